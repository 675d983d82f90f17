// Names to places: puts each argument of a call under its parameter.
#![tactic(auto)]

ghost use Rattle.std.specs.Prelude.{◌≡◌, ◌<◌, ◌≤◌, not, [], length, IfSome, None, Some, slice_index_or};
ghost use Rattle.std.specs.List.{AllByRecursion};
ghost use Rattle.terms.specs.Limits.{most_arguments};
ghost use Rattle.terms.specs.Refusals.{refusal_of};
ghost use Rattle.arguments.specs.Answers.{outcome, put};
ghost use Rattle.arguments.specs.Called.{params, names};
ghost use Rattle.arguments.specs.First.{first, first_below, any_below, count_below};
ghost use Rattle.arguments.specs.Places.{named, outside, malformed, late, with_names};
ghost use Rattle.arguments.specs.Resolution.{Resolution};
ghost use Rattle.arguments.specs.View.{bytes_of};
ghost use Rattle.arguments.specs.Worked.{Holds, table};

use call::Call;
use fixed::FixedVec;
use terms::{MOST_ARGUMENTS, Reason, Refusal};

mod by_name;
mod by_place;
mod call;
mod resolved;
mod written;

pub use resolved::Resolved;
pub use written::{Argument, ArgumentName};

// Whether a name reaches past its text.
fn is_outside(arg_name: &Option<ArgumentName>, text: &[u8]) -> bool
    ensures { result ≡ outside text.now arg_name.now }
{
    arg_name.is_some_and(|name| name.start > text.len() || name.len > text.len() - name.start)
}

// Whether one of the names does.
fn has_name_outside(arg_names: &[Option<ArgumentName>], text: &[u8]) -> bool
    ensures { result ≡ any_below (λ i. outside text.now (slice_index_or arg_names.now i None)) (length arg_names.now) }
{
    arg_names.iter().any(|arg_name| is_outside(arg_name, text))
}

// Refuses with 21: too many arguments, more or fewer names than arguments, or a name outside its text.
pub fn validate_arguments(
    args: &[Argument],
    arg_names: &[Option<ArgumentName>],
    text: &[u8],
) -> Result<(), Refusal>
    ensures { refusal_of result ≡ malformed text.now args.now arg_names.now }
{
    if args.len() > MOST_ARGUMENTS
        || args.len() != arg_names.len()
        || has_name_outside(arg_names, text)
    {
        return Err(Reason::MalformedCall.into());
    }
    Ok(())
}

// The first argument with a name.
fn first_named(arg_names: &[Option<ArgumentName>]) -> Option<usize>
    ensures value { result ≡ first_below (named arg_names.now) (length arg_names.now) }
    ensures within { IfSome result (λ i. i < length arg_names.now) }
{
    arg_names.iter().position(|arg_name| arg_name.is_some())
}

// The first argument without one. (Not one function with a flag: each contract is in the words of where it serves.)
fn first_unnamed(arg_names: &[Option<ArgumentName>]) -> Option<usize>
    ensures value { result ≡ first_below (λ i. not (named arg_names.now i)) (length arg_names.now) }
    ensures within { IfSome result (λ i. i < length arg_names.now) }
{
    arg_names.iter().position(|arg_name| arg_name.is_none())
}

impl Call<'_> {
    // Refuses with 23: from the first argument with a name on, which is at `from`, all have one.
    fn validate_argument_order(self, from: usize) -> Result<(), Refusal>
        requires value { Some from ≡ first_below (named self.arg_names.now) (length self.arg_names.now) }
        requires within { from < length self.arg_names.now }
        ensures { refusal_of result ≡ first (late self.entry.arg_names.now) (length self.entry.arg_names.now) }
    {
        match first_unnamed(&self.arg_names[from..]) {
            Some(behind) => Err(Reason::PositionalAfterNamed.at(from + behind)),
            None => Ok(()),
        }
    }

    // How many arguments have no name.
    fn positional_count(self) -> usize
        ensures { result ≡ count_below (λ i. not (named self.entry.arg_names.now i)) (length self.entry.arg_names.now) }
    {
        self.arg_names
            .iter()
            .filter(|arg_name| arg_name.is_none())
            .count()
    }

    // Puts the arguments into an empty list, each under its parameter, where one of them has a name.
    fn reorder_named_arguments(
        self,
        items: &mut FixedVec<Argument, MOST_ARGUMENTS>,
    ) -> Result<(), Refusal>
        requires { items.old ≡ [] }
        ensures value { put result items.new ≡ with_names (params self.entry) (names self.entry) self.entry.args.now }
        ensures few { length items.new ≤ most_arguments }
    {
        if self.positional_count() > self.param_names.len() {
            return Err(Reason::TooManyPositional.into());
        }
        let mut places = [0; MOST_ARGUMENTS];
        self.assign_places(&mut places)?;
        self.gather(&places, items)
    }

    // Puts the arguments into an empty list by place.
    fn resolve(self, items: &mut FixedVec<Argument, MOST_ARGUMENTS>) -> Result<(), Refusal>
        requires { items.old ≡ [] }
        ensures value { Resolution (params self.entry) self.entry.text.now self.entry.args.now self.entry.arg_names.now (put result items.new) }
        ensures few { length items.new ≤ most_arguments }
    {
        let Some(from) = first_named(self.arg_names) else {
            self.as_written(items);
            return Ok(());
        };
        self.validate_argument_order(from)?;
        self.reorder_named_arguments(items)
    }
}

// The arguments of a call by place.
//
// - Arguments without a name come before those with one, and stay where they are written.
// - A named argument goes to the first parameter that its name matches.
// - No two arguments go to one place, and no place below the number of arguments stays empty.
//
// With parameters a, b, c: (10, c => 30, b => 20) gives 10, 20, 30.
pub fn resolve_function_arguments(
    param_names: &[&[u8]],
    args: &[Argument],
    arg_names: &[Option<ArgumentName>],
    text: &[u8],
) -> Result<Resolved, Refusal>
    ensures { Resolution (bytes_of param_names.now) text.now args.now arg_names.now (outcome result) }
{
    let call = Call::new(param_names, args, arg_names, text)?;
    let mut items = FixedVec::new();
    call.resolve(&mut items)?;
    Ok(Resolved { items })
}

// How many worked cases there are: a table of calls, each with the outcome that the definition gives it.
pub fn worked_cases() -> usize
    ensures value { result ≡ length table }
    ensures cases { AllByRecursion Holds table }
{
    6
}
