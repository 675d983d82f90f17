// Lent places that are written one behind another.
ghost use Rattle.std.specs.Prelude.{◌≡◌, ◌<◌, ◌≤◌, ◌^◌, min, length, Some, MatchResult};
ghost use Rattle.std.specs.List.{slice_get};
ghost use Rattle.terms.specs.Refusals.{refusal};
ghost use Rattle.terms.specs.declared.Reason.TheVariants.{NothingThere};

use places::{Same, Stamped, find};
use terms::{Reason, Refusal};

// Places that the caller lends, at most so many of which are used, and how many of them hold something. (No Vec: this
// allocates nothing.)
#[derive(Drop)]
pub struct Slots<'m, T, const MOST: usize> {
    places: &'m mut [T],
    pub(super) high: u16,
    ghost most: { MOST < 2 ^ 16 },
    ghost room: { high ≤ min (length places.now) MOST },
}

// What stands at a place; refused with 46 where there are no more.
pub(super) fn read<T>(live: &[T], n: u16) -> Result<&T, Refusal>
    ensures { MatchResult result (λ x. (n < length live.now) × (slice_get live.now n ≡ Some x.now)) (λ e. (length live.now ≤ n) × (e ≡ refusal NothingThere 0)) }
{
    live.get(usize::from(n)).ok_or(Reason::NothingThere.into())
}

impl<'m, T: Copy, const MOST: usize> Slots<'m, T, MOST> {
    ghost use Rattle.std.specs.Prelude.{◌≡◌, ◌<◌, ◌≤◌, ◌^◌, min, length, MatchResult};
    ghost use Rattle.pool.specs.Slots.{room as room_of, live as live_of, Made, Push, Intern};

    // Lent places, of which the first hold the things that are given.
    pub(super) fn new(places: &'m mut [T], first: &[T]) -> Slots<'m, T, MOST>
        requires most { MOST < 2 ^ 16 }
        requires room { length first.now ≤ min (length places.old) MOST }
        ensures { Made (length places.old) first.now result }
    {
        places[..first.len()].copy_from_slice(first);
        Slots {
            places,
            high: first.len() as u16,
        }
    }

    // How many places there are.
    pub(super) fn room(&self) -> usize
        ensures { result ≡ room_of self.now }
    {
        self.places.len().min(MOST)
    }

    // The first places.
    pub(super) fn live(&self, count: u16) -> &[T]
        requires { count ≤ self.now.high }
        ensures { result.now ≡ live_of self.now count }
    {
        &self.places[..usize::from(count)]
    }

    // Puts a thing behind the first ones, and gives its number; refused where no place is left.
    pub(super) fn push(&mut self, count: &mut u16, x: T, full: Reason) -> Result<u16, Refusal>
        ensures { Push self.old count.old x full result self.new count.new }
    {
        let n = *count;
        if usize::from(n) >= self.room() {
            return Err(full.into());
        }
        self.places[usize::from(n)] = x;
        self.high = n + 1;
        *count = n + 1;
        Ok(n)
    }

    // The number of a thing among the first ones: its old one where it is there, and else the next.
    pub(super) fn intern(&mut self, count: &mut u16, x: T, full: Reason) -> Result<u16, Refusal>
    where
        T: Same,
        requires { count.old ≤ self.old.high }
        ensures { Intern self.old count.old x full result self.new count.new }
    {
        match find(self.live(*count), &x) {
            Some(k) => Ok(k as u16),
            None => self.push(count, x, full),
        }
    }
}

impl<T: Copy, const MOST: usize> Slots<'_, Stamped<T>, MOST> {
    ghost use Rattle.std.specs.Prelude.{◌≡◌};
    ghost use Rattle.pool.specs.Slots.{holds as holds_of};

    // Whether the first `count` places hold something, written when at most `types` types were live.
    pub(super) fn holds(&self, count: u16, types: u16) -> bool
        ensures { result ≡ holds_of self.now count types }
    {
        count <= self.high
            && self
                .live(count)
                .last()
                .is_none_or(|newest| newest.types <= types)
    }
}
