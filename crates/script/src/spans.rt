// The bytes that a span stands for.
ghost use Rattle.std.specs.Prelude.{◌≡◌};
ghost use Rattle.script.specs.Seen.{bytes};

use crate::tokens::Span;

impl Span {
    // This part of a text, as far as the text goes.
    pub fn part_of(self, text: &[u8]) -> &[u8]
        ensures { result.now ≡ bytes text.now self }
    {
        let rest = text.get(self.start..).unwrap_or(&[]);
        rest.get(..self.len).unwrap_or(rest)
    }
}
