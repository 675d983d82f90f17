// What one place of the lent memory holds.
#![tactic(auto)]

mod entry;
mod finding;
mod function;
mod label;
mod record;
mod stamped;

pub use entry::Entry;
pub use finding::{Same, find};
pub use function::Function;
pub use label::Label;
pub use record::TypeRecord;
pub use stamped::Stamped;
