// A type as a record of nine numbers, as they are handed in: each may be out of its range, and is then refused. Parts are
// named by number, since memory is fixed.
ghost use Rattle.std.specs.Prelude.{◌≡◌};
ghost use Rattle.terms.specs.Kinds.{kind_number};
ghost use Rattle.places.specs.Records.{plain};

use terms::Kind;

#[derive(Clone, Copy, PartialEq, Eq)]
pub struct TypeRecord {
    pub kind: u8,
    pub unit: u8,
    pub precision: u8,
    pub scale: u8,
    pub size: i32,
    pub label: u16,
    pub flag: u8,
    pub child: u16,
    pub second: u16,
}

impl TypeRecord {
    // The type that its kind alone makes.
    pub fn plain(kind: Kind) -> TypeRecord
        ensures { result ≡ plain (kind_number kind) }
    {
        TypeRecord {
            kind: kind.into(),
            unit: 0,
            precision: 0,
            scale: 0,
            size: 0,
            label: 0,
            flag: 0,
            child: 0,
            second: 0,
        }
    }
}
