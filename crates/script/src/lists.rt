// A list in parentheses, with commas between its items.
ghost use Rattle.script.specs.Spelling.{BeginsList};

use crate::fault::{Fault, Part};
use crate::items::{Item, after};
use crate::tokens::Token;
use std::alloc::Global;

// Reads the list that the tokens begin with, and says what follows it.
pub(crate) fn read_list<T: Item + Drop>(
    heap: Global,
    tokens: &[Token],
) -> Result<(Vec<T>, &[Token]), Fault>
    ensures { BeginsList T.spelled tokens.now result }
{
    let mut items = Vec::new(heap);
    let mut rest = after(tokens, Token::Open).ok_or(Fault::Expected(Part::Open))?;
    if let Some(behind) = after(rest, Token::Close) {
        return Ok((items, behind));
    }
    // A loop, since each turn goes on with the tokens that the last one left.
    loop {
        let (item, more) = T::read(rest)?;
        items.push(item)?;
        if let Some(behind) = after(more, Token::Close) {
            return Ok((items, behind));
        }
        rest = after(more, Token::Comma).ok_or(Fault::Expected(Part::Separator))?;
    }
}
