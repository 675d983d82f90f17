// Labels and arguments as they are printed.
#![tactic(auto)]

ghost use Rattle.std.specs.Prelude.{◌≡◌, ◌<◌, true, [], ◌∷◌, ◌++◌, IfOk, Some, string_bytes, if◌then◌else◌, codes, OnOk, nat_lt};
ghost use Rattle.std.specs.List.{slice_get};
ghost use Rattle.printing.specs.Printing.{word_byte, word_bytes, is_word, hex_digit, hexed, escaped, quoted_text, label_text, under, piece, placed_text};
ghost use Rattle.printing.specs.Reading.{label_token, ReadsBack, Reads};
ghost use Rattle.arguments.specs.View.{bytes_of};
ghost use Rattle.script.specs.Tokens.{quoted};

use arguments::Argument;
use std::alloc::{AllocError, Global};
use std::fmt::{self, Display};

// A label as a script writes it: a word, or in quotes.
#[derive(Clone, Copy)]
pub struct Label<'a>(pub &'a [u8]);

// A label in quotes.
#[derive(Clone, Copy)]
pub struct Quoted<'a>(pub &'a [u8]);

// A byte in quotes.
#[derive(Clone, Copy)]
struct Escaped(u8);

// A byte by its number.
#[derive(Clone, Copy)]
struct Hexed(u8);

fn is_word_byte(byte: u8) -> bool
    ensures { result ≡ word_byte byte }
{
    byte.is_ascii_alphanumeric() || byte == b'_'
}

fn has_word_bytes(label: &[u8]) -> bool
    ensures { result ≡ word_bytes label.now }
{
    label.iter().all(|byte| is_word_byte(*byte))
}

// Whether a label can stand without quotes: letters, digits and `_`, and no digit first.
fn is_word(label: &[u8]) -> bool
    ensures { result ≡ is_word label.now }
{
    match label {
        [first, ..] => !first.is_ascii_digit() && has_word_bytes(label),
        [] => false,
    }
}

fn hex_digit(value: u8) -> u8
    ensures { result ≡ hex_digit value }
{
    match value {
        0..10 => b'0' + value,
        10..16 => b'A' + (value - 10),
        _ => b'?',
    }
}

impl<'a> Label<'a> {
    // The label to be printed, which reads back as that label.
    pub fn new(label: &'a [u8]) -> Label<'a>
        ensures value { result.0.now ≡ label.now }
        ensures reads { ReadsBack (label_text result.0.now) (label_token label.now) }
    {
        Label(label)
    }
}

impl<'a> Quoted<'a> {
    // The label to be printed in quotes, which reads back as that label.
    pub fn new(label: &'a [u8]) -> Quoted<'a>
        ensures value { result.0.now ≡ label.now }
        ensures reads { ReadsBack (quoted_text result.0.now) (quoted label.now) }
    {
        Quoted(label)
    }
}

impl Display for Label<'_> {
    ghost output = { λ l. Some (label_text l.0.now) };

    #[tactic(auto, using(crate::proofs::Texts::word_utf8))]
    fn fmt<W: fmt::Write>(&self, f: &mut fmt::Formatter<W>) -> fmt::Result {
        match str::from_utf8(self.0) {
            Ok(word) if is_word(self.0) => f.write_str(word),
            _ => Quoted::new(self.0).fmt(f),
        }
    }
}

impl Display for Quoted<'_> {
    ghost output = { λ q. Some (quoted_text q.0.now) };

    fn fmt<W: fmt::Write>(&self, f: &mut fmt::Formatter<W>) -> fmt::Result {
        f.write_str("\"")?;
        for byte in self.0 {
            Escaped(*byte).fmt(f)?;
        }
        f.write_str("\"")
    }
}

impl Display for Escaped {
    ghost output = { λ e. Some (escaped e.0) };

    fn fmt<W: fmt::Write>(&self, f: &mut fmt::Formatter<W>) -> fmt::Result {
        match self.0 {
            b'"' => f.write_str("\\\""),
            b'\\' => f.write_str("\\\\"),
            byte @ b' '..=b'~' => f.write_char(char::from(byte)),
            byte => Hexed(byte).fmt(f),
        }
    }
}

impl Display for Hexed {
    ghost output = { λ h. Some (hexed h.0) };

    fn fmt<W: fmt::Write>(&self, f: &mut fmt::Formatter<W>) -> fmt::Result {
        f.write_str("\\x")?;
        f.write_char(char::from(hex_digit(self.0 / 16)))?;
        f.write_char(char::from(hex_digit(self.0 % 16)))
    }
}

// One byte of ASCII. (The text of an answer is pushed: through `Display`, by which words to people go, a byte that is
// escaped takes a third more time.)
fn push_ascii(out: &mut String, byte: u8) -> Result<(), AllocError>
    requires { byte < 128 }
    ensures { OnOk result (string_bytes out.new ≡ string_bytes out.old ++ byte ∷ []) }
{
    out.push(char::from(byte))
}

// One byte by its number.
fn push_hex(out: &mut String, byte: u8) -> Result<(), AllocError>
    ensures { OnOk result (string_bytes out.new ≡ string_bytes out.old ++ hexed byte) }
{
    out.push_str("\\x")?;
    push_ascii(out, hex_digit(byte / 16))?;
    push_ascii(out, hex_digit(byte % 16))
}

// One byte in quotes.
fn push_escaped(out: &mut String, byte: u8) -> Result<(), AllocError>
    ensures { OnOk result (string_bytes out.new ≡ string_bytes out.old ++ escaped byte) }
{
    match byte {
        b'"' => out.push_str("\\\""),
        b'\\' => out.push_str("\\\\"),
        b' '..=b'~' => push_ascii(out, byte),
        _ => push_hex(out, byte),
    }
}

// A label in quotes, which reads back as that label.
pub fn push_quoted(out: &mut String, label: &[u8]) -> Result<(), AllocError>
    ensures value { OnOk result (string_bytes out.new ≡ string_bytes out.old ++ quoted_text label.now) }
    ensures reads { OnOk result (Reads (string_bytes out.old) (string_bytes out.new) (quoted label.now)) }
{
    push_ascii(out, b'"')?;
    for byte in label {
        push_escaped(out, *byte)?;
    }
    push_ascii(out, b'"')
}

// A word as it is.
#[tactic(auto, using(crate::proofs::Texts::word_ascii))]
fn push_word(out: &mut String, word: &[u8]) -> Result<(), AllocError>
    requires { word_bytes word.now ≡ true }
    ensures { OnOk result (string_bytes out.new ≡ string_bytes out.old ++ word.now) }
{
    for byte in word {
        push_ascii(out, *byte)?;
    }
    Ok(())
}

// A label as a script writes it, a word or in quotes, which reads back as that label.
pub fn push_label(out: &mut String, label: &[u8]) -> Result<(), AllocError>
    ensures value { OnOk result (string_bytes out.new ≡ string_bytes out.old ++ label_text label.now) }
    ensures reads { OnOk result (Reads (string_bytes out.old) (string_bytes out.new) (label_token label.now)) }
{
    if is_word(label) {
        push_word(out, label)
    } else {
        push_quoted(out, label)
    }
}

// A comma behind what is not the first.
fn push_comma(out: &mut String, place: usize) -> Result<(), AllocError>
    ensures { OnOk result (string_bytes out.new ≡ string_bytes out.old ++ (if nat_lt 0 place then codes ", " else [])) }
{
    out.push_str(if place > 0 { ", " } else { "" })
}

// The parameter at a place, where there is one.
fn push_under(out: &mut String, params: &[&[u8]], place: usize) -> Result<(), AllocError>
    ensures { OnOk result (string_bytes out.new ≡ string_bytes out.old ++ under (slice_get (bytes_of params.now) place)) }
{
    if let Some(param) = params.get(place) {
        push_label(out, param)?;
        out.push_str(": ")?;
    }
    Ok(())
}

// The argument at its place, behind a comma unless it is the first, and under its parameter where there is one.
fn push_argument(
    out: &mut String,
    params: &[&[u8]],
    place: usize,
    arg: &Argument,
) -> Result<(), AllocError>
    ensures { OnOk result (string_bytes out.new ≡ string_bytes out.old ++ piece (bytes_of params.now) place arg.now) }
{
    push_comma(out, place)?;
    push_under(out, params, place)?;
    write!(out, "{}", arg.id)
}

// A function's name and the arguments by place, each under its parameter where there is one.
pub fn placed_text(
    heap: Global,
    name: &[u8],
    params: &[&[u8]],
    args: &[Argument],
) -> Result<String, AllocError>
    ensures { IfOk result (λ s. string_bytes s ≡ placed_text name.now (bytes_of params.now) args.now) }
{
    let mut out = String::new(heap);
    push_label(&mut out, name)?;
    push_ascii(&mut out, b'(')?;
    for (place, arg) in args.iter().enumerate() {
        push_argument(&mut out, params, place, arg)?;
    }
    push_ascii(&mut out, b')')?;
    Ok(out)
}
