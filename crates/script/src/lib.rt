// Reads a line of a script.
#![tactic(auto)]

mod fault;
mod items;
mod lines;
mod lists;
mod reads;
mod spans;
mod tokens;

pub use fault::{Fault, Part};
pub use items::Text;
pub use lines::{ArgumentsLine, FunctionLine, Line};
pub use reads::{read_line, worked_lines};
pub use tokens::{Span, Token, Tokens, tokens_of};
