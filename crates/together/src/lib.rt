// Types that are added together or not at all: what a trial does, seen by a caller that knows only what the pool promises.
#![tactic(auto)]

ghost use Rattle.std.specs.Prelude.{◌⊎◌, IfErr, MatchResult};
ghost use Rattle.together.specs.Together.{Kept, Dropped, Untried, Room};

use places::TypeRecord;
use pool::{Counts, Memory};
use terms::Refusal;

// Adds the types of all records, in their order, or none of them.
pub fn add_all(
    counts: &mut Counts,
    memory: &mut Memory<'_>,
    records: &[TypeRecord],
) -> Result<(), Refusal>
    ensures kept { MatchResult result (λ _. Kept memory.old counts.old records.now memory.new counts.new) (λ e. Untried memory.old counts.old e memory.new counts.new ⊎ Dropped memory.old counts.old records.now e memory.new counts.new) }
    ensures room { IfErr result (λ e. Room memory.old counts.old records.now e) }
{
    memory.check(counts)?;
    let mut trial = counts.trial();
    for r in records {
        trial.add_type(memory, *r)?;
    }
    trial.keep();
    Ok(())
}
