// A trial: types that are added through it go again unless it is kept.
ghost use Rattle.std.specs.Prelude.{◌≡◌, ◌-◌, cond, MatchBool};
ghost use Rattle.types.specs.Views.{size};
ghost use Rattle.pool.specs.Held.{vouches as sound, rooms_of};
ghost use Rattle.pool.specs.Steps.{TypeAdd, Shows, held};

use super::{Counts, Memory, Trial};
use places::TypeRecord;
use terms::Refusal;
use types::View;

impl Counts {
    // Opens a trial, which has the counts to itself until it is kept or let go.
    pub fn trial(&mut self) -> Trial<'_>
        ensures lent { result.counts.ghost_name ≡ self.entry.ghost_name }
        ensures start { result.start ≡ self.old.types }
        ensures counts { held result ≡ self.old }
    {
        let start = self.types;
        Trial {
            counts: self,
            start,
        }
    }
}

impl Trial<'_> {
    // Finds or adds a type, as `Memory::add_type` does.
    pub fn add_type(&mut self, memory: &mut Memory<'_>, r: TypeRecord) -> Result<u16, Refusal>
        ensures added { TypeAdd memory.old (held self.old) r result memory.new (held self.new) }
        ensures start { self.new.start ≡ self.old.start }
        ensures lent { self.new.counts.ghost_name ≡ self.old.counts.ghost_name }
    {
        memory.add_type(self.counts, r)
    }

    // The live types, with those that were added through it.
    pub fn view<'v>(&self, memory: &'v Memory<'_>) -> View<'v>
        ensures { MatchBool (sound memory.now (held self.now)) (Shows memory.now (held self.now) result) (size result ≡ 0) }
    {
        memory.view(self.counts)
    }

    // Keeps what was added through it: what is taken apart is not dropped.
    pub fn keep(self)
        ensures { self.exit.0.now ≡ self.entry.counts.now }
    {
        let Trial {
            counts: _,
            start: _,
        } = self;
    }
}
