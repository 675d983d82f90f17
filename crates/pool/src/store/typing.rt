// Adding types and reading them.
ghost use Rattle.std.specs.Prelude.{◌≡◌, IfOk};
ghost use Rattle.terms.specs.Refusals.{refusal_of, plainly};
ghost use Rattle.pool.specs.Reasons.{why_read};
ghost use Rattle.pool.specs.Steps.{TypeAdd, TypeRead};

use super::slots::read;
use super::{Counts, Memory};
use places::TypeRecord;
use terms::{Reason, Refusal};

impl<'m> Memory<'m> {
    // The number of the type of a record: its old one where it is there, and else the next. Refused with 1 where the
    // counts are strange, 12 to 15 where the record may not stand, 41 where it is not there and no place is left.
    pub fn add_type(&mut self, counts: &mut Counts, r: TypeRecord) -> Result<u16, Refusal>
        ensures { TypeAdd self.old counts.old r result self.new counts.new }
    {
        self.check(counts)?;
        self.view(counts).check(r)?;
        self.types.intern(&mut counts.types, r, Reason::TypesFull)
    }

    // The record of a type, whose tree it makes; refused with 46 where there is none with that number.
    pub fn type_record(&self, counts: &Counts, n: u16) -> Result<TypeRecord, Refusal>
        ensures refused { refusal_of result ≡ plainly (why_read self.now counts.now counts.now.types n) }
        ensures value { IfOk result (λ x. TypeRead self.now counts.now n x) }
    {
        self.check(counts)?;
        let record = read(self.types.live(counts.types), n)?;
        Ok(*record)
    }
}
