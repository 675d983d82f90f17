// What a record says by itself.
ghost use Rattle.std.specs.Prelude.{◌≡◌, ◌≤◌, MatchOption, if◌then◌else◌};
ghost use Rattle.terms.specs.Kinds.{kind_number, kinds, has_child};
ghost use Rattle.types.specs.Trees.{wild_head, head_of, is_dictionary};
ghost use Rattle.types.specs.Checks.{uses_label};

use places::TypeRecord;
use terms::{ANY_SIZE, ANY_ZONE, Kind};

// The kind, where there is such a kind.
pub(crate) fn kind_of(r: &TypeRecord) -> Option<Kind>
    ensures { MatchOption result (kinds ≤ r.now.kind) (λ k. kind_number k ≡ r.now.kind) }
{
    Kind::try_from(r.kind).ok()
}

// The label, where it counts: that of a list's field, and the zone of a Timestamp whose flag is 1.
pub(crate) fn label_of(r: &TypeRecord) -> Option<u16>
    ensures { result ≡ (if uses_label r.now.kind r.now.flag then Some r.now.label else None) }
{
    let counts = match kind_of(r)? {
        Kind::Timestamp => r.flag == 1,
        kind => kind.is_list(),
    };
    counts.then_some(r.label)
}

// The type that it is made of: the element of a list, the value of a Dictionary.
pub(crate) fn child_of(r: &TypeRecord) -> Option<u16>
    ensures { result ≡ (if has_child r.now.kind then Some r.now.child else None) }
{
    kind_of(r)?.has_child().then_some(r.child)
}

// The second type that it is made of: the key of a Dictionary.
pub(crate) fn second_of(r: &TypeRecord) -> Option<u16>
    ensures { result ≡ (if is_dictionary r.now.kind then Some r.now.second else None) }
{
    (kind_of(r)? == Kind::Dictionary).then_some(r.second)
}

// Whether it is that of a wildcard.
pub(crate) fn is_wildcard(r: &TypeRecord) -> bool
    ensures { result ≡ wild_head (head_of r.now) }
{
    match kind_of(r) {
        Some(Kind::FixedSizeList) => r.size == ANY_SIZE,
        Some(Kind::Timestamp) => r.flag == 1 && r.label == ANY_ZONE,
        _ => false,
    }
}
