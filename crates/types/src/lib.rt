// Types as trees: what the numbers of a list of records stand for, and reads of it.
#![tactic(auto)]

mod checks;
mod ranges;
mod reads;
mod record;
mod view;

pub use view::View;
