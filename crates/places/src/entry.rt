// A call that was accepted: its function, and its arguments by place.
ghost use Rattle.std.specs.Prelude.{◌≤◌, [], length};
ghost use Rattle.std.proofs.Common.{zero-le};
ghost use Rattle.terms.specs.Limits.{most_arguments};

use arguments::Argument;
use fixed::{Blank, FixedVec};
use terms::MOST_ARGUMENTS;

#[derive(Clone, Copy)]
pub struct Entry {
    pub function: u16,
    pub arguments: FixedVec<Argument, MOST_ARGUMENTS>,
    ghost few: { length arguments ≤ most_arguments },
}

// What a place holds that no call was put in.
impl Blank for Entry {
    ghost blank = { record { function = 0; arguments = []; few = zero-le } };

    fn blank() -> Entry {
        Entry {
            function: 0,
            arguments: FixedVec::new(),
        }
    }
}
