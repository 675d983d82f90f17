// The live types of a memory, with what is known of them.
ghost use Rattle.std.specs.Prelude.{length};
ghost use Rattle.types.specs.Facts.{Sound, Apart};

use places::TypeRecord;

// Records that stand as types, over so many labels. A number of it stands for a tree.
#[derive(Clone, Copy)]
pub struct View<'a> {
    pub records: &'a [TypeRecord],
    pub labels: u16,
    ghost sound: { Sound labels records.now (length records.now) },
    ghost apart: { Apart records.now (length records.now) },
}
