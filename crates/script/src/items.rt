// What the lists of a line are of, and how one is read off its tokens.
ghost use Rattle.std.specs.Prelude.{◌≡◌, List, [], ◌∷◌, ◌++◌, MatchOption, ◌≢◌};
ghost use Rattle.script.specs.declared.tokens.Token.{Token as Mark};
ghost use Rattle.script.specs.Spelling.{text_of, name_of, spelled_text, spelled_argument, spelled_id, Apart, Begins, Foreign};
ghost use Rattle.script.specs.Laws.{texts_apart, arguments_apart};

use crate::fault::{Fault, Part};
use crate::tokens::{Span, Token};
use arguments::ArgumentName;

// A word or a quoted text: any label. (An argument's name has a type of its own, by the name that the function ported has
// for it.)
#[derive(Clone, Copy, PartialEq, Eq)]
pub struct Text {
    pub span: Span,
    pub is_quoted: bool,
}

// An argument as it is written: its id, and its name where it has one.
#[derive(Clone, Copy)]
pub struct Written {
    pub id: u32,
    pub name: Option<ArgumentName>,
}

// What a list can be of.
pub trait Item: Sized {
    ghost spelled: { Self → List Mark };

    ghost apart: { Apart spelled };

    // What the tokens begin with, and what follows it.
    fn read(tokens: &[Token]) -> Result<(Self, &[Token]), Fault>
        ensures { Begins spelled tokens.now result };
}

impl From<Text> for ArgumentName {
    ghost from_gives = { λ t n. n ≡ name_of t };

    fn from(text: Text) -> ArgumentName {
        ArgumentName {
            start: text.span.start,
            len: text.span.len,
            is_quoted: text.is_quoted,
        }
    }
}

// What follows a token, where the tokens begin with it.
pub(crate) fn after(tokens: &[Token], token: Token) -> Option<&[Token]>
    ensures { MatchOption result ((rest : List Mark) → tokens.now ≢ token ∷ rest) (λ rest. tokens.now ≡ token ∷ rest.now) }
{
    tokens.strip_prefix(&[token])
}

// A text, where the tokens begin with one, and what follows it.
fn split_text(tokens: &[Token]) -> Option<(Text, &[Token])>
    ensures { MatchOption result (Foreign spelled_text tokens.now) (λ p. tokens.now ≡ spelled_text p.0 ++ p.1.now) }
{
    let (span, is_quoted, rest) = match tokens {
        [Token::Word(span), rest @ ..] => (*span, false, rest),
        [Token::Quoted(span), rest @ ..] => (*span, true, rest),
        _ => return None,
    };
    Some((Text { span, is_quoted }, rest))
}

// A number, where the tokens begin with one, and what follows it.
fn split_number(tokens: &[Token]) -> Option<(u32, &[Token])>
    ensures { MatchOption result (Foreign spelled_id tokens.now) (λ p. tokens.now ≡ spelled_id p.0 ++ p.1.now) }
{
    match tokens {
        [Token::Number(id), rest @ ..] => Some((*id, rest)),
        _ => None,
    }
}

impl Item for Text {
    ghost spelled = { spelled_text };

    ghost apart = { texts_apart };

    fn read(tokens: &[Token]) -> Result<(Text, &[Token]), Fault> {
        split_text(tokens).ok_or(Fault::Expected(Part::Text))
    }
}

impl Item for Written {
    ghost spelled = { spelled_argument };

    ghost apart = { arguments_apart };

    fn read(tokens: &[Token]) -> Result<(Written, &[Token]), Fault> {
        if let Some((id, rest)) = split_number(tokens) {
            return Ok((Written { id, name: None }, rest));
        }
        let (name, rest) = split_text(tokens).ok_or(Fault::Expected(Part::Argument))?;
        let rest = after(rest, Token::Arrow).ok_or(Fault::Expected(Part::Arrow))?;
        let (id, rest) = split_number(rest).ok_or(Fault::Expected(Part::Id))?;
        let name = Some(ArgumentName::from(name));
        Ok((Written { id, name }, rest))
    }
}
