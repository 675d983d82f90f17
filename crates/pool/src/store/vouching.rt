// Whether a memory vouches for counts, and what it shows of its types.
ghost use Rattle.std.specs.Prelude.{◌≡◌, ◌-◌, if◌then◌else◌, MatchBool, OnOk};
ghost use Rattle.terms.specs.Refusals.{refusal_of, plainly};
ghost use Rattle.types.specs.Views.{size};
ghost use Rattle.pool.specs.Held.{vouches as sound, rooms_of};
ghost use Rattle.pool.specs.Laws.{Well};
ghost use Rattle.pool.specs.Reasons.{why_strange, why_no_call};
ghost use Rattle.pool.specs.Steps.{Shows};

use super::{Counts, Memory};
use terms::{FIRST_LABELS, ROOM_FOR_CALL, Reason, Refusal};
use types::View;

impl<'m> Memory<'m> {
    // Whether it holds what the counts say, functions and entries over types that are live.
    fn vouches(&self, counts: &Counts) -> bool
        ensures { result ≡ sound self.now counts.now }
    {
        FIRST_LABELS <= counts.labels
            && counts.labels == self.labels.high
            && counts.types <= self.types.high
            && self.functions.holds(counts.functions, counts.types)
            && self.entries.holds(counts.entries, counts.types)
    }

    // Refusal 1 where it does not vouch for the counts.
    pub fn check(&self, counts: &Counts) -> Result<(), Refusal>
        ensures refused { refusal_of result ≡ plainly (why_strange self.now counts.now) }
        ensures well { OnOk result (Well self.now counts.now) }
    {
        if self.vouches(counts) {
            Ok(())
        } else {
            Err(Reason::BufferTooSmall.into())
        }
    }

    // The live types; none where it does not vouch for the counts.
    pub fn view(&self, counts: &Counts) -> View<'_>
        ensures { MatchBool (sound self.now counts.now) (Shows self.now counts.now result) (size result ≡ 0) }
    {
        let records = if self.vouches(counts) {
            self.types.live(counts.types)
        } else {
            &[]
        };
        View {
            records,
            labels: self.labels.high,
        }
    }

    // How many places are free for types; none where it does not vouch for the counts.
    pub fn free_types(&self, counts: &Counts) -> usize
        ensures { result ≡ (if sound self.now counts.now then (rooms_of self.now).types - counts.now.types else 0) }
    {
        if self.vouches(counts) {
            self.types.room() - usize::from(counts.types)
        } else {
            0
        }
    }

    // Refusal 44 where fewer places are free for types than a call or a fold may take.
    pub fn check_room(&self, counts: &Counts) -> Result<(), Refusal>
        ensures { refusal_of result ≡ plainly (why_no_call self.now counts.now) }
    {
        self.check(counts)?;
        if self.free_types(counts) < ROOM_FOR_CALL {
            return Err(Reason::TooFewFreeTypes.into());
        }
        Ok(())
    }
}
