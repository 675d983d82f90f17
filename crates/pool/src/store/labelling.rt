// Adding labels and reading them.
ghost use Rattle.std.specs.Prelude.{◌≡◌, IfOk, Some};
ghost use Rattle.std.specs.List.{slice_get};
ghost use Rattle.terms.specs.Refusals.{refusal_of, plainly};
ghost use Rattle.pool.specs.Held.{labels_of};
ghost use Rattle.pool.specs.Reasons.{why_read};
ghost use Rattle.pool.specs.Steps.{LabelAdd};

use super::slots::read;
use super::{Counts, Memory};
use places::Label;
use terms::{Reason, Refusal};

impl<'m> Memory<'m> {
    // The number of the label with these bytes: its old one where it is there, and else the next. Refused with 1 where
    // the counts are strange, 11 where it has more than 64 bytes, 40 where it is not there and no place is left.
    pub fn add_label(&mut self, counts: &mut Counts, text: &[u8]) -> Result<u16, Refusal>
        ensures { LabelAdd self.old counts.old text.now result self.new counts.new }
    {
        self.check(counts)?;
        let label = Label::new(text)?;
        self.labels
            .intern(&mut counts.labels, label, Reason::LabelsFull)
    }

    // The bytes of a label; refused with 46 where there is none with that number.
    pub fn label(&self, counts: &Counts, n: u16) -> Result<&[u8], Refusal>
        ensures refused { refusal_of result ≡ plainly (why_read self.now counts.now counts.now.labels n) }
        ensures value { IfOk result (λ bs. slice_get (labels_of self.now counts.now) n ≡ Some bs.now) }
    {
        self.check(counts)?;
        let label = read(self.labels.live(counts.labels), n)?;
        Ok(label.as_bytes())
    }
}
