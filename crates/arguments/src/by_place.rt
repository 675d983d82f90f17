// The arguments of a call gathered by place, into a list that is lent: one that is handed on is copied whole at each step.
ghost use Rattle.std.specs.Prelude.{◌≡◌, ◌<◌, ◌≤◌, [], length, IfSome};
ghost use Rattle.terms.specs.Limits.{most_arguments};
ghost use Rattle.arguments.specs.Answers.{listed, put};
ghost use Rattle.arguments.specs.Gathering.{giver_in, stands_at, gathered};

use crate::call::Call;
use crate::resolved::Resolved;
use crate::written::Argument;
use fixed::FixedVec;
use terms::{MOST_ARGUMENTS, Reason, Refusal};

impl Resolved {
    // The arguments in the order of their places.
    pub fn as_slice(&self) -> &[Argument]
        ensures value { result.now ≡ listed self.now }
    {
        self.items.as_slice()
    }
}

impl Call<'_> {
    // Puts the arguments into an empty list where they are written.
    pub(crate) fn as_written(self, items: &mut FixedVec<Argument, MOST_ARGUMENTS>)
        requires { items.old ≡ [] }
        ensures value { items.new ≡ self.entry.args.now }
        ensures few { length items.new ≤ most_arguments }
    {
        items.extend_from_slice(self.args);
    }

    // The first argument that has place `k`.
    fn giver_of(self, places: &[usize; MOST_ARGUMENTS], k: usize) -> Option<usize>
        ensures value { result ≡ giver_in places.now (length self.entry.args.now) k }
        ensures within { IfSome result (λ i. i < length self.entry.args.now) }
    {
        places[..self.args.len()]
            .iter()
            .position(|place| *place == k)
    }

    // The argument at place `k`, or 27 where there is none.
    fn argument_at(self, places: &[usize; MOST_ARGUMENTS], k: usize) -> Result<Argument, Refusal>
        ensures { result ≡ stands_at self.entry.args.now k (giver_in places.now (length self.entry.args.now) k) }
    {
        let giver = self
            .giver_of(places, k)
            .ok_or(Reason::MissingParameter.at(k))?;
        Ok(self.args[giver])
    }

    // Puts the arguments into an empty list by place, or refuses with 27 for the first place that no argument has.
    #[tactic(auto, using(crate::proofs::Formed::few))]
    pub(crate) fn gather(
        self,
        places: &[usize; MOST_ARGUMENTS],
        items: &mut FixedVec<Argument, MOST_ARGUMENTS>,
    ) -> Result<(), Refusal>
        requires { items.old ≡ [] }
        ensures value { put result items.new ≡ gathered places.now self.entry.args.now }
        ensures few { length items.new ≤ most_arguments }
    {
        // Over places: who has place `k` is asked for each.
        for k in 0..self.args.len() {
            items.push(self.argument_at(places, k)?);
        }
        Ok(())
    }
}
