// Why a step is not done.
ghost use Rattle.std.specs.Prelude.{◌≡◌};
ghost use Rattle.session.specs.declared.failure.Failure.TheVariants.{Memory, Refused as ByRule};

use std::alloc::{AllocError, AllocFailed};
use terms::Refusal;

#[derive(Clone, Copy, Debug, PartialEq, Eq)]
pub enum Failure {
    // There is not enough memory.
    Memory,
    // A rule refuses it.
    Refused(Refusal),
}

// By hand, as those below: a `From` that is derived has no contract, and what `?` makes of it would not be known.
impl From<AllocError> for Failure {
    ghost from_gives = { λ _ r. r ≡ Memory };

    fn from(_e: AllocError) -> Failure {
        Failure::Memory
    }
}

impl<T: Drop> From<AllocFailed<T>> for Failure {
    ghost from_gives = { λ _ r. r ≡ Memory };

    fn from(_e: AllocFailed<T>) -> Failure {
        Failure::Memory
    }
}

impl From<Refusal> for Failure {
    ghost from_gives = { λ e r. r ≡ ByRule e };

    fn from(e: Refusal) -> Failure {
        Failure::Refused(e)
    }
}
