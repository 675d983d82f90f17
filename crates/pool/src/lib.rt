// Lent memory for labels, types, functions and plan entries, the counts beside it, and trials.
#![tactic(auto)]

mod store;

pub use store::{Counts, Lease, Memory, Trial};
