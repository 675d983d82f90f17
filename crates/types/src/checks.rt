// Whether a record may stand as a type behind those that are there.
ghost use Rattle.std.specs.Prelude.{◌≡◌};
ghost use Rattle.terms.specs.Kinds.{is_integer};
ghost use Rattle.terms.specs.Refusals.{refusal_of, plainly};
ghost use Rattle.types.specs.Checks.{unknown_part, bad_part, unfit};
ghost use Rattle.types.specs.Trees.{kind_of};
ghost use Rattle.types.specs.Views.{size, meant};

use crate::ranges::in_range;
use crate::record::{child_of, label_of, second_of};
use crate::view::View;
use places::TypeRecord;
use terms::{DEEPEST_TYPE, Kind, Reason, Refusal};

impl View<'_> {
    // Whether a type is an integer.
    fn is_integer(self, n: u16) -> bool
        ensures { result ≡ is_integer (kind_of (meant self.entry n)) }
    {
        self.kind(n).is_some_and(Kind::is_integer)
    }

    // Whether a label or a type in a record is not there.
    fn has_unknown_part(self, r: &TypeRecord) -> bool
        ensures { result ≡ unknown_part self.entry.labels (size self.entry) r.now }
    {
        let types = self.len();
        let is_unknown = |n: u16| types <= usize::from(n);
        label_of(r).is_some_and(|label| self.labels <= label)
            || child_of(r).is_some_and(is_unknown)
            || second_of(r).is_some_and(is_unknown)
    }

    // Whether what a record is made of is a wildcard, or no integer where it is a key.
    fn has_bad_part(self, r: &TypeRecord) -> bool
        ensures { result ≡ bad_part (meant self.entry) r.now }
    {
        matches!(child_of(r), Some(n) if self.is_wildcard(n))
            || matches!(second_of(r), Some(n) if !self.is_integer(n))
    }

    // Whether a record may stand as a type: 12 where a number is out of its range, 13 where a part is not there,
    // 14 where a part may not be one, 15 where it is too deep, and the first of these that is true.
    pub fn check(self, r: TypeRecord) -> Result<(), Refusal>
        ensures { refusal_of result ≡ plainly (unfit self.entry.labels (size self.entry) (meant self.entry) r) }
    {
        let reason = if !in_range(&r) {
            Reason::OutOfRange
        } else if self.has_unknown_part(&r) {
            Reason::UnknownPart
        } else if self.has_bad_part(&r) {
            Reason::BadPart
        } else if self.levels_of(&r) > DEEPEST_TYPE {
            Reason::TooDeep
        } else {
            return Ok(());
        };
        Err(reason.into())
    }
}
