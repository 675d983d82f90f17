// A label: a text of at most 64 bytes.
ghost use Rattle.std.specs.Prelude.{◌≤◌, length};
ghost use Rattle.terms.specs.Limits.{longest_label};

use fixed::FixedVec;
use terms::LONGEST_LABEL;

mod writing;

#[derive(Clone, Copy, PartialEq, Eq)]
pub struct Label {
    bytes: FixedVec<u8, LONGEST_LABEL>,
    ghost short: { length bytes ≤ longest_label },
}
