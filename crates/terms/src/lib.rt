// The numbered words of the subject: why something is refused, in which layer, the kinds of types, and the limits.
#![tactic(auto)]

ghost use Rattle.std.specs.Prelude.{◌≡◌, Some};
ghost use Rattle.terms.specs.Refusals.{number, layer, layer_number, refusal, refusal_text, TellsReason};

use std::fmt;

mod kind;

pub use kind::{Kind, UnknownKind};

// The most arguments that a call has.
pub const MOST_ARGUMENTS: usize = 16;

// The most parameters that a function has.
pub const MOST_PARAMETERS: usize = 16;

// The most bytes that a label has.
pub const LONGEST_LABEL: usize = 64;

// The most bytes that a signature has.
pub const LONGEST_SIGNATURE: usize = 1024;

// The most levels that a type has.
pub const DEEPEST_TYPE: u8 = 8;

// The largest precision of a decimal.
pub const MOST_PRECISION: u8 = 38;

// The largest units: a Timestamp's is nanosecond, an Interval's MonthDayNano.
pub const LAST_TIMESTAMP_UNIT: u8 = 3;

pub const LAST_INTERVAL_UNIT: u8 = 2;

// The size of a fixed-size list that stands for any size.
pub const ANY_SIZE: i32 = i32::MIN;

// The number of the label `+TZ`, the zone of a Timestamp that stands for any zone.
pub const ANY_ZONE: u16 = 1;

// How many labels are there from the start: `item`, `+TZ` and `+00`.
pub const FIRST_LABELS: u16 = 3;

// The fewest and the most places for labels that a memory has.
pub const LEAST_LABELS: usize = 16;

pub const MOST_LABELS: usize = 1024;

// The fewest and the most places for types.
pub const LEAST_TYPES: usize = 256;

pub const MOST_TYPES: usize = 4096;

// The fewest and the most places for functions.
pub const LEAST_FUNCTIONS: usize = 1;

pub const MOST_FUNCTIONS: usize = 256;

// The fewest and the most places for plan entries.
pub const LEAST_ENTRIES: usize = 1;

pub const MOST_ENTRIES: usize = 4096;

// How many types a call or a fold may add: so many places are free before it begins.
pub const ROOM_FOR_CALL: usize = 256;

// Why something is refused, with the number that the refusal is known by.
#[derive(Clone, Copy, Debug, PartialEq, Eq)]
pub enum Reason {
    // A buffer below its least, or a count record that the memory does not vouch for.
    BufferTooSmall = 1,
    // A label of too many bytes.
    LabelTooLong = 11,
    // A kind or another number of a type out of its range, or a number that the kind does not use and that is not 0.
    OutOfRange = 12,
    // A type over a label or a type that is not there.
    UnknownPart = 13,
    // A wildcard within a type, or a key of a Dictionary that is no integer.
    BadPart = 14,
    // A type of too many levels.
    TooDeep = 15,
    // A function over a label that is not there, or of too many parameters.
    BadFunction = 16,
    // No function has that number or name.
    UnknownFunction = 20,
    // Too many arguments, more or fewer names than arguments, or a name outside its text.
    MalformedCall = 21,
    // An argument without a name after one with a name.
    PositionalAfterNamed = 23,
    // Beside a name, more arguments without one than the function has parameters.
    TooManyPositional = 24,
    // A name that no parameter has.
    UnknownParameter = 25,
    // A parameter that an earlier argument was given to already.
    ParameterGivenTwice = 26,
    // A parameter that is given no argument, and stands before one that is.
    MissingParameter = 27,
    // No place is left for a label.
    LabelsFull = 40,
    // No place is left for a type.
    TypesFull = 41,
    // No place is left for a function.
    FunctionsFull = 42,
    // No place is left for a plan entry.
    PlanFull = 43,
    // Fewer places are free for types than a call or a fold may take.
    TooFewFreeTypes = 44,
    // There is nothing to take back.
    NothingToTakeBack = 45,
    // Nothing is there to read.
    NothingThere = 46,
}

// The number tells the reason: no other has it.
impl From<Reason> for u8 {
    ghost from_gives = { TellsReason };

    fn from(reason: Reason) -> u8 {
        reason as u8
    }
}

impl Reason {
    // The refusal that is about the argument or the parameter at a place.
    pub fn at(self, place: usize) -> Refusal
        ensures { result ≡ refusal self place }
    {
        Refusal {
            reason: self,
            place,
        }
    }
}

// What part of the work refuses.
#[derive(Clone, Copy, Debug, PartialEq, Eq)]
pub enum Layer {
    // Reading what was handed in.
    Reading = 1,
    // Putting arguments under their parameters.
    Names = 2,
    // What is there, and what there is room for.
    State = 5,
}

impl From<Layer> for u8 {
    ghost from_gives = { λ layer n. n ≡ layer_number layer };

    fn from(layer: Layer) -> u8 {
        layer as u8
    }
}

// A reason, and which argument or parameter it is about: 0 where it is about none, as it is printed.
#[derive(Clone, Copy, Debug, PartialEq, Eq)]
pub struct Refusal {
    pub reason: Reason,
    pub place: usize,
}

// The refusal that is about no argument and no parameter.
impl From<Reason> for Refusal {
    ghost from_gives = { λ reason r. r ≡ refusal reason 0 };

    fn from(reason: Reason) -> Refusal {
        reason.at(0)
    }
}

impl Refusal {
    // The number that is printed. It tells the reason: no other has it.
    pub fn number(&self) -> u8
        ensures value { result ≡ number self.now.reason }
        ensures only { (q : Reason) → number q ≡ result → q ≡ self.now.reason }
    {
        self.reason.into()
    }

    pub fn layer(&self) -> Layer
        ensures { result ≡ layer self.now.reason }
    {
        match self.reason {
            Reason::PositionalAfterNamed
            | Reason::TooManyPositional
            | Reason::UnknownParameter
            | Reason::ParameterGivenTwice
            | Reason::MissingParameter => Layer::Names,
            Reason::LabelsFull
            | Reason::TypesFull
            | Reason::FunctionsFull
            | Reason::PlanFull
            | Reason::TooFewFreeTypes
            | Reason::NothingToTakeBack
            | Reason::NothingThere => Layer::State,
            _ => Layer::Reading,
        }
    }
}

// The refusal as the program prints it.
impl fmt::Display for Refusal {
    ghost output = { λ r. Some (refusal_text r) };

    fn fmt<W: fmt::Write>(&self, f: &mut fmt::Formatter<W>) -> fmt::Result {
        let number = self.number();
        let layer = u8::from(self.layer());
        let place = self.place;
        write!(f, "refused {number} layer {layer} place {place}")
    }
}
