// The lent memory, the count record that lies beside it, and the guard over the counts.
ghost use Rattle.std.specs.Prelude.{◌≡◌, ◌≤◌, length};
ghost use Rattle.terms.specs.Limits.{least_labels, least_types, least_functions, least_entries};
ghost use Rattle.types.specs.Facts.{Sound, Apart};
ghost use Rattle.pool.specs.Facts.{Begun, Rising, back};

use places::{Entry, Function, Label, Stamped, TypeRecord};
use slots::Slots;
use terms::{MOST_ENTRIES, MOST_FUNCTIONS, MOST_LABELS, MOST_TYPES};

pub mod labelling;
pub mod makes;
pub mod rows;
pub mod slots;
pub mod trials;
pub mod typing;
pub mod vouching;

// How many labels, types, functions and entries are live: what lies in memory past these counts is no part of anything.
// It lies beside the memory and in no struct with it, which is a rule here: a trial has it alone. So every step is given
// both, and tests that they fit.
#[derive(Drop)]
pub struct Counts {
    labels: u16,
    types: u16,
    functions: u16,
    entries: u16,
}

// Slices that the caller lends, none of them below its least.
#[derive(Drop)]
pub struct Lease<'m> {
    labels: &'m mut [Label],
    types: &'m mut [TypeRecord],
    functions: &'m mut [Stamped<Function>],
    entries: &'m mut [Stamped<Entry>],
    ghost labels_enough: { least_labels ≤ length labels.now },
    ghost types_enough: { least_types ≤ length types.now },
    ghost functions_enough: { least_functions ≤ length functions.now },
    ghost entries_enough: { least_entries ≤ length entries.now },
}

// Memory that the caller lends. It vouches for what lies below the four heights.
#[derive(Drop)]
pub struct Memory<'m> {
    labels: Slots<'m, Label, MOST_LABELS>,
    types: Slots<'m, TypeRecord, MOST_TYPES>,
    functions: Slots<'m, Stamped<Function>, MOST_FUNCTIONS>,
    entries: Slots<'m, Stamped<Entry>, MOST_ENTRIES>,
    ghost labels_begun: { Begun labels.places.now labels.high },
    ghost labels_apart: { Apart labels.places.now labels.high },
    ghost types_sound: { Sound labels.high types.places.now types.high },
    ghost types_apart: { Apart types.places.now types.high },
    ghost functions_rising: { Rising functions.places.now functions.high },
    ghost entries_rising: { Rising entries.places.now entries.high },
}

// A guard over the count record alone: unless it is kept, the count of types goes back to where it was.
pub struct Trial<'c> {
    counts: &'c mut Counts,
    start: u16,
}

impl Drop for Trial<'_> {
    fn drop(self)
        ensures { self.exit.0.now ≡ back self.entry.counts.now self.entry.start }
    {
        let Trial { counts, start } = self;
        counts.types = start;
    }
}
