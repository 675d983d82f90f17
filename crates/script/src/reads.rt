// Reads a line of a script from its bytes.
ghost use Rattle.std.specs.Prelude.{◌≡◌, length, IfErr};
ghost use Rattle.std.specs.List.{AllByRecursion};
ghost use Rattle.script.specs.Seen.{Faulty};
ghost use Rattle.script.specs.Whole.{is_blank, comment, Answers};
ghost use Rattle.script.specs.Worked.{Holds, table};

use crate::fault::Fault;
use crate::lines::{Line, line_of};
use crate::tokens::tokens_of;
use std::alloc::Global;

fn is_blank(byte: u8) -> bool
    ensures { result ≡ is_blank byte }
{
    matches!(byte, b' ' | b'\t')
}

// Whether the first byte that is no blank is `#`.
fn is_comment(line: &[u8]) -> bool
    ensures { result ≡ comment line.now }
{
    line.iter().copied().find(|byte| !is_blank(*byte)) == Some(b'#')
}

// Reads one line, without its end. A blank line and a comment say nothing.
pub fn read_line(heap: Global, line: &[u8]) -> Result<Line, Fault>
    ensures cases { Answers line.now result }
    ensures refused { IfErr result (Faulty line.now) }
{
    if is_comment(line) {
        return Ok(Line::Blank);
    }
    line_of(heap, tokens_of(heap, line)?)
}

// How many worked lines there are: a table of lines, each with the tokens that the definition gives it.
pub fn worked_lines() -> usize
    ensures value { result ≡ length table }
    ensures cases { AllByRecursion Holds table }
{
    7
}
