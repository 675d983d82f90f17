// The arguments of a call, each at its place.
ghost use Rattle.std.specs.Prelude.{◌≤◌, length};
ghost use Rattle.terms.specs.Limits.{most_arguments};

use crate::written::Argument;
use fixed::FixedVec;
use terms::MOST_ARGUMENTS;

#[derive(Clone, Copy, PartialEq, Eq)]
pub struct Resolved {
    pub(crate) items: FixedVec<Argument, MOST_ARGUMENTS>,
    ghost few: { length items ≤ most_arguments },
}
