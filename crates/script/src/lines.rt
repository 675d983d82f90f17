// What a line says, read off its tokens.
ghost use Rattle.std.specs.Prelude.{◌≡◌, map, IfOk, MatchOption};
ghost use Rattle.script.specs.Lines.{Says, Named, argument, name_in, Lined};
ghost use Rattle.script.specs.Seen.{bytes};

use crate::fault::{Fault, Part};
use crate::items::{Item, Text, Written};
use crate::lists::read_list;
use crate::tokens::{Token, Tokens};
use arguments::{Argument, ArgumentName};
use std::alloc::{AllocError, Global};

// A function and its parameters, which are parts of the text.
#[derive(Clone, Drop)]
pub struct FunctionLine {
    pub text: Vec<u8>,
    pub name: Text,
    pub params: Vec<Text>,
}

// The arguments for a function, each with its name where it has one. The names are parts of the text.
#[derive(Drop)]
pub struct ArgumentsLine {
    pub text: Vec<u8>,
    pub name: Text,
    // Apart from their names, as `resolve_function_arguments` is lent them.
    pub args: Vec<Argument>,
    pub names: Vec<Option<ArgumentName>>,
}

#[derive(Drop)]
pub enum Line {
    Blank,
    Function(FunctionLine),
    Arguments(ArgumentsLine),
}

// The word that a line begins with.
#[derive(Clone, Copy, PartialEq, Eq)]
enum Keyword {
    Function,
    Arguments,
}

// The keyword that a token is.
fn keyword_of(text: &[u8], token: Token) -> Option<Keyword>
    ensures { MatchOption result ((k : Keyword) → Says text.now token k → ⊥) (λ k. Says text.now token k) }
{
    let Token::Word(span) = token else {
        return None;
    };
    match span.part_of(text) {
        b"function" => Some(Keyword::Function),
        b"arguments" => Some(Keyword::Arguments),
        _ => None,
    }
}

// Reads a name and a list, and no more.
fn read_named<T: Item + Drop>(heap: Global, tokens: &[Token]) -> Result<(Text, Vec<T>), Fault>
    ensures { Named T.spelled tokens.now result }
{
    let (name, rest) = Text::read(tokens)?;
    let (items, rest) = read_list(heap, rest)?;
    if !rest.is_empty() {
        return Err(Fault::Expected(Part::End));
    }
    Ok((name, items))
}

// The arguments that are written, apart from their names.
fn args_of(heap: Global, written: &[Written]) -> Result<Vec<Argument>, AllocError>
    ensures { IfOk result (λ v. v.items ≡ map argument written.now) }
{
    written
        .iter()
        .map(|written| Argument {
            id: written.id,
            type_number: 0,
        })
        .collect(heap)
}

// The names that they are written with.
fn names_of(heap: Global, written: &[Written]) -> Result<Vec<Option<ArgumentName>>, AllocError>
    ensures { IfOk result (λ v. v.items ≡ map name_in written.now) }
{
    written.iter().map(|written| written.name).collect(heap)
}

// The line that the tokens spell.
pub(crate) fn line_of(heap: Global, tokens: Tokens) -> Result<Line, Fault>
    ensures { Lined tokens.text.items tokens.tokens.items result }
{
    let Tokens { text, tokens } = tokens;
    let Some((token, rest)) = tokens.split_first() else {
        return Ok(Line::Blank);
    };
    match keyword_of(&text, *token).ok_or(Fault::Expected(Part::Keyword))? {
        Keyword::Function => {
            let (name, params) = read_named(heap, rest)?;
            Ok(Line::Function(FunctionLine { text, name, params }))
        }
        Keyword::Arguments => {
            let (name, written) = read_named::<Written>(heap, rest)?;
            let args = args_of(heap, &written)?;
            let names = names_of(heap, &written)?;
            let line = ArgumentsLine {
                text,
                name,
                args,
                names,
            };
            Ok(Line::Arguments(line))
        }
    }
}
