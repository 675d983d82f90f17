// Making counts and memory.
ghost use Rattle.std.specs.Prelude.{◌≡◌, ◌<◌, ◌≤◌, length, IfOk, MatchResult};
ghost use Rattle.terms.specs.Refusals.{refusal};
ghost use Rattle.terms.specs.declared.Reason.TheVariants.{BufferTooSmall};
ghost use Rattle.terms.specs.Refusals.{refusal_of, plainly};
ghost use Rattle.pool.specs.Makes.{why_small, new_counts, New};

use super::slots::Slots;
use super::{Counts, Lease, Memory};
use places::{Entry, Function, Label, Stamped, TypeRecord};
use terms::{
    FIRST_LABELS, LEAST_ENTRIES, LEAST_FUNCTIONS, LEAST_LABELS, LEAST_TYPES, Reason, Refusal,
};

impl Counts {
    // The counts of a memory that is new.
    pub fn new() -> Counts
        ensures { result ≡ new_counts }
    {
        Counts {
            labels: FIRST_LABELS,
            types: 0,
            functions: 0,
            entries: 0,
        }
    }
}

// Whether a slice is long enough.
fn check_least<T>(places: &[T], least: usize) -> Result<(), Refusal>
    ensures { MatchResult result (λ _. least ≤ length places.now) (λ e. (length places.now < least) × (e ≡ refusal BufferTooSmall 0)) }
{
    if places.len() < least {
        return Err(Reason::BufferTooSmall.into());
    }
    Ok(())
}

impl<'m> Lease<'m> {
    // Refusal 1 where a slice is too short. Places past the most are not used.
    pub fn new(
        labels: &'m mut [Label],
        types: &'m mut [TypeRecord],
        functions: &'m mut [Stamped<Function>],
        entries: &'m mut [Stamped<Entry>],
    ) -> Result<Lease<'m>, Refusal>
        ensures refused { refusal_of result ≡ plainly (why_small (length labels.old) (length types.old) (length functions.old) (length entries.old)) }
        ensures made { IfOk result (λ l. (l.labels.now ≡ labels.old) × (l.types.now ≡ types.old) × (l.functions.now ≡ functions.old) × (l.entries.now ≡ entries.old)) }
    {
        check_least(labels, LEAST_LABELS)?;
        check_least(types, LEAST_TYPES)?;
        check_least(functions, LEAST_FUNCTIONS)?;
        check_least(entries, LEAST_ENTRIES)?;
        Ok(Lease {
            labels,
            types,
            functions,
            entries,
        })
    }

    // A memory that holds the three labels and nothing else.
    pub fn memory(self) -> Memory<'m>
        ensures { New (length self.entry.labels.now) (length self.entry.types.now) (length self.entry.functions.now) (length self.entry.entries.now) result }
    {
        let first = [Label::item(), Label::zone_wildcard(), Label::utc()];
        let Lease {
            labels,
            types,
            functions,
            entries,
        } = self;
        Memory {
            labels: Slots::new(labels, &first),
            types: Slots::new(types, &[]),
            functions: Slots::new(functions, &[]),
            entries: Slots::new(entries, &[]),
        }
    }
}
