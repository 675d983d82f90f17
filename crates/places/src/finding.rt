// Finding a thing among those that are kept.
ghost use Rattle.std.specs.Prelude.{◌≡◌, Decides};
ghost use Rattle.places.specs.Finding.{Finds};

use crate::label::Label;
use crate::record::TypeRecord;

// Things of which it can be told whether they are the same.
pub trait Same {
    fn same(&self, other: &Self) -> bool
        ensures { Decides result (self.now ≡ other.now) };
}

impl Same for Label {
    fn same(&self, other: &Label) -> bool {
        self.as_bytes() == other.as_bytes()
    }
}

impl Same for TypeRecord {
    fn same(&self, other: &TypeRecord) -> bool {
        *self == *other
    }
}

// Where the thing is, if it is there: of several places, any. (Place by place, as its proof goes.)
pub fn find<T: Same>(things: &[T], thing: &T) -> Option<usize>
    ensures { Finds things.now thing.now result }
{
    for i in 0..things.len() {
        if things[i].same(thing) {
            return Some(i);
        }
    }
    None
}
