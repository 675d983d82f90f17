// Why a line is not read, in plain words.
ghost use Rattle.std.specs.Prelude.{◌≡◌};
ghost use Rattle.script.specs.declared.fault.Fault.TheVariants.{Memory};

use std::alloc::{AllocError, AllocFailed};
use thiserror::Error;

// What should stand where a line does not go on.
#[derive(Clone, Copy, Debug, PartialEq, Eq, Error)]
pub enum Part {
    #[error("`function` or `arguments`")]
    Keyword,
    #[error("a name")]
    Text,
    #[error("`(`")]
    Open,
    #[error("an argument")]
    Argument,
    #[error("`=>`")]
    Arrow,
    #[error("the number of an argument")]
    Id,
    #[error("`,` or `)`")]
    Separator,
    #[error("the end of the line")]
    End,
}

#[derive(Clone, Copy, Debug, PartialEq, Eq, Error)]
pub enum Fault {
    #[error("there is not enough memory")]
    Memory,
    // A byte that begins nothing, at its place in the line.
    #[error("byte {byte:#04x} at place {place} begins nothing")]
    Stray { place: usize, byte: u8 },
    // A byte that belongs to no escape, at its place in the line.
    #[error("byte {byte:#04x} at place {place} belongs to no escape")]
    Escape { place: usize, byte: u8 },
    // A number of more than 32 bits; the place of the digit that is too many.
    #[error("the number at place {place} has more than 32 bits")]
    Large { place: usize },
    // The line ends within a quoted text or an arrow.
    #[error("the line ends in a quoted text or an arrow")]
    Unfinished,
    // The tokens do not go on as they should.
    #[error("expected {0}")]
    Expected(Part),
}

// By hand, as the next: a `From` that is derived has no contract, and what `?` makes of it would not be known.
impl From<AllocError> for Fault {
    ghost from_gives = { λ _ r. r ≡ Memory };

    fn from(_e: AllocError) -> Fault {
        Fault::Memory
    }
}

impl<T: Drop> From<AllocFailed<T>> for Fault {
    ghost from_gives = { λ _ r. r ≡ Memory };

    fn from(_e: AllocFailed<T>) -> Fault {
        Self::Memory
    }
}
