// Whether the numbers of a record fit its kind: in their ranges, and 0 where the kind does not use them.
ghost use Rattle.std.specs.Prelude.{◌≡◌};
ghost use Rattle.terms.specs.Kinds.{kind_number};
ghost use Rattle.types.specs.Checks.{unit_fits, precision_fits, scale_fits, size_fits, flag_fits, ranges_fit, unused_zero, in_range};

use crate::record::{child_of, kind_of, label_of, second_of};
use places::TypeRecord;
use terms::{ANY_SIZE, Kind, LAST_INTERVAL_UNIT, LAST_TIMESTAMP_UNIT, MOST_PRECISION};

fn unit_fits(kind: Kind, unit: u8) -> bool
    ensures { result ≡ unit_fits (kind_number kind) unit }
{
    match kind {
        Kind::Timestamp => unit <= LAST_TIMESTAMP_UNIT,
        Kind::Interval => unit <= LAST_INTERVAL_UNIT,
        _ => unit == 0,
    }
}

fn precision_fits(kind: Kind, precision: u8) -> bool
    ensures { result ≡ precision_fits (kind_number kind) precision }
{
    match kind {
        Kind::Decimal128 => (1..=MOST_PRECISION).contains(&precision),
        _ => precision == 0,
    }
}

fn scale_fits(kind: Kind, precision: u8, scale: u8) -> bool
    ensures { result ≡ scale_fits (kind_number kind) precision scale }
{
    match kind {
        Kind::Decimal128 => scale <= precision,
        _ => scale == 0,
    }
}

#[tactic(auto, unfolding(crate::specs::Checks::size_fits))]
fn size_fits(kind: Kind, size: i32) -> bool
    ensures { result ≡ size_fits (kind_number kind) size }
{
    match kind {
        Kind::FixedSizeList => size >= 0 || size == ANY_SIZE,
        _ => size == 0,
    }
}

// A list or a Timestamp has a flag of 0 or 1, any other kind one of 0.
fn flag_fits(kind: Kind, flag: u8) -> bool
    ensures { result ≡ flag_fits (kind_number kind) flag }
{
    flag <= u8::from(kind.is_list() || kind == Kind::Timestamp)
}

// Whether the numbers are in the ranges of a kind.
fn ranges_fit(kind: Kind, r: &TypeRecord) -> bool
    ensures { result ≡ ranges_fit (kind_number kind) r.now }
{
    unit_fits(kind, r.unit)
        && precision_fits(kind, r.precision)
        && scale_fits(kind, r.precision, r.scale)
        && size_fits(kind, r.size)
        && flag_fits(kind, r.flag)
}

// Whether what the kind does not use is 0.
fn unused_is_zero(r: &TypeRecord) -> bool
    ensures { result ≡ unused_zero r.now.kind r.now }
{
    (label_of(r).is_some() || r.label == 0)
        && (child_of(r).is_some() || r.child == 0)
        && (second_of(r).is_some() || r.second == 0)
}

// Whether there is such a kind, and the numbers fit it.
pub(crate) fn in_range(r: &TypeRecord) -> bool
    ensures { result ≡ in_range r.now }
{
    kind_of(r).is_some_and(|kind| ranges_fit(kind, r)) && unused_is_zero(r)
}
