// Functions and plan entries: places that are appended, read and counted back. What they mean is not known here; each
// is stamped with how many types were live when it was written.
ghost use Rattle.std.specs.Prelude.{◌≡◌, IfOk, Some};
ghost use Rattle.std.specs.List.{slice_get};
ghost use Rattle.terms.specs.Refusals.{refusal_of, plainly};
ghost use Rattle.pool.specs.Slots.{Back};
ghost use Rattle.pool.specs.Held.{functions_of, entries_of};
ghost use Rattle.pool.specs.Reasons.{why_read};
ghost use Rattle.pool.specs.Rows.{function_rows, entry_rows, RowAdd, RowBack};

use super::slots::read;
use super::{Counts, Memory};
use places::{Entry, Function, Stamped};
use terms::{Reason, Refusal};

// Counts the newest back and gives its number; refused with 45 where there is none.
fn take_back(count: &mut u16) -> Result<u16, Refusal>
    ensures { Back count.old result count.new }
{
    *count = count.checked_sub(1).ok_or(Reason::NothingToTakeBack)?;
    Ok(*count)
}

// One method each for functions and for entries; the work is in `Slots`, `read` and `take_back`.
impl<'m> Memory<'m> {
    // Appends a function and gives its number; refused with 42 where no place is left.
    pub fn add_function(&mut self, counts: &mut Counts, function: &Function) -> Result<u16, Refusal>
        ensures { RowAdd function_rows self.old counts.old function.now result self.new counts.new }
    {
        self.check(counts)?;
        let row = Stamped::new(*function, counts.types);
        self.functions
            .push(&mut counts.functions, row, Reason::FunctionsFull)
    }

    // The function of a number; refused with 46 where there is none.
    pub fn function(&self, counts: &Counts, n: u16) -> Result<&Function, Refusal>
        ensures refused { refusal_of result ≡ plainly (why_read self.now counts.now counts.now.functions n) }
        ensures value { IfOk result (λ f. slice_get (functions_of self.now counts.now) n ≡ Some f.now) }
    {
        self.check(counts)?;
        let row = read(self.functions.live(counts.functions), n)?;
        Ok(&row.content)
    }

    // Counts the newest function back and gives its number; refused with 45 where there is none.
    pub fn take_back_function(&self, counts: &mut Counts) -> Result<u16, Refusal>
        ensures { RowBack function_rows self.now counts.old result counts.new }
    {
        self.check(counts)?;
        take_back(&mut counts.functions)
    }

    // Appends an entry and gives its place; refused with 43 where no place is left.
    pub fn add_entry(&mut self, counts: &mut Counts, entry: &Entry) -> Result<u16, Refusal>
        ensures { RowAdd entry_rows self.old counts.old entry.now result self.new counts.new }
    {
        self.check(counts)?;
        let row = Stamped::new(*entry, counts.types);
        self.entries
            .push(&mut counts.entries, row, Reason::PlanFull)
    }

    // The entry at a place; refused with 46 where there is none.
    pub fn entry(&self, counts: &Counts, n: u16) -> Result<&Entry, Refusal>
        ensures refused { refusal_of result ≡ plainly (why_read self.now counts.now counts.now.entries n) }
        ensures value { IfOk result (λ e. slice_get (entries_of self.now counts.now) n ≡ Some e.now) }
    {
        self.check(counts)?;
        let row = read(self.entries.live(counts.entries), n)?;
        Ok(&row.content)
    }

    // Counts the newest entry back and gives its place; refused with 45 where there is none.
    pub fn take_back_entry(&self, counts: &mut Counts) -> Result<u16, Refusal>
        ensures { RowBack entry_rows self.now counts.old result counts.new }
    {
        self.check(counts)?;
        take_back(&mut counts.entries)
    }
}
