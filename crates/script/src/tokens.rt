// Cuts a line into tokens, byte after byte.
ghost use Rattle.std.specs.Prelude.{◌≡◌, ◌≤◌, [], ◌∷◌, ◌++◌, length, IfErr};
ghost use Rattle.std.specs.List.{AllByRecursion};
ghost use Rattle.std.specs.Option.{option_map};
ghost use Rattle.std.proofs.Props.{props};
ghost use Rattle.script.specs.Tokens.{class, goes_on, hex_value, lex};
ghost use Rattle.script.specs.Seen.{Within, Within-prop, Faulty, Ends};

use crate::fault::Fault;
use std::alloc::Global;

// A part of the decoded text. (By number: a slice would borrow the text while it grows.)
#[derive(Clone, Copy, PartialEq, Eq)]
pub struct Span {
    pub start: usize,
    pub len: usize,
}

#[derive(Clone, Copy, PartialEq, Eq)]
pub enum Token {
    Word(Span),
    Quoted(Span),
    Number(u32),
    Open,
    Close,
    Comma,
    Arrow,
}

// The tokens of a line. The text has the bytes of all its words and quoted texts.
#[derive(Drop)]
pub struct Tokens {
    pub text: Vec<u8>,
    pub tokens: Vec<Token>,
}

// What a byte outside quotes is.
#[derive(Clone, Copy)]
enum Class {
    Blank,
    Letter,
    Digit,
    Quote,
    Opens,
    Closes,
    Separates,
    Equals,
    Other,
}

// The value of a hexadecimal digit.
#[derive(Clone, Copy)]
struct HexDigit {
    value: u8,
    ghost small: { value ≤ 15 },
}

// What is begun.
#[derive(Clone, Copy)]
enum Mode {
    Between,
    InWord,
    InQuote,
    InEscape,
    InHigh,
    InLow(HexDigit),
    InNumber(u32),
    InArrow,
}

// A byte of the line, at its place.
#[derive(Clone, Copy)]
struct Input {
    place: usize,
    byte: u8,
}

// The text and the tokens so far. The bytes of what is begun are those from `start` on.
#[derive(Drop)]
struct Lexer {
    text: Vec<u8>,
    tokens: Vec<Token>,
    start: usize,
    mode: Mode,
    ghost spans_within: { AllByRecursion (Within (length text.items)) tokens.items } by { Prim.hlevel (Within-prop, props) },
    ghost start_within: { start ≤ length text.items },
}

fn class_of(byte: u8) -> Class
    ensures { result ≡ class byte }
{
    match byte {
        b'_' | b'A'..=b'Z' | b'a'..=b'z' => Class::Letter,
        b'0'..=b'9' => Class::Digit,
        b' ' | b'\t' => Class::Blank,
        b'"' => Class::Quote,
        b'(' => Class::Opens,
        b')' => Class::Closes,
        b',' => Class::Separates,
        b'=' => Class::Equals,
        _ => Class::Other,
    }
}

// Whether a byte goes on with a word.
fn goes_on(byte: u8) -> bool
    ensures { result ≡ goes_on (class byte) }
{
    matches!(class_of(byte), Class::Letter | Class::Digit)
}

impl HexDigit {
    fn of(byte: u8) -> Option<Self>
        ensures { option_map (λ h. h.value) result ≡ hex_value byte }
    {
        let value = char::from(byte).to_digit(16)?;
        Some(HexDigit { value: value as u8 })
    }
}

impl Input {
    fn stray(self) -> Fault
        ensures { result ≡ Fault.Stray self.place self.byte }
    {
        Fault::Stray {
            place: self.place,
            byte: self.byte,
        }
    }

    fn escape(self) -> Fault
        ensures { result ≡ Fault.Escape self.place self.byte }
    {
        Fault::Escape {
            place: self.place,
            byte: self.byte,
        }
    }
}

impl Lexer {
    ghost use Rattle.script.specs.Tokens.{at, nothing, begins, goes, step, finish, in_word, in_number, in_quote, in_escape, in_high, in_low};
    ghost use Rattle.script.specs.Seen.{bytes, seen, Inside};
    ghost use Rattle.script.specs.Lexing.{pending, begun, done, state, Grows, Steps, Finishes};

    // One byte more in the text, which belongs to what is then begun.
    fn keep(&mut self, byte: u8, mode: Mode) -> Result<(), Fault>
        ensures { Grows result (Some (at (done self.old) (pending (begun self.old ++ byte ∷ []) mode))) self.new }
    {
        self.text.push(byte)?;
        self.mode = mode;
        Ok(())
    }

    // One token more, and nothing begun. (That it lies within the text is asked here alone, of the token that is given.)
    fn emit(&mut self, token: Token) -> Result<(), Fault>
        requires { Within (length self.old.text.items) token }
        ensures { Grows result (Some (at (done self.old ++ seen self.old.text.items token ∷ []) nothing)) self.new }
    {
        self.tokens.push(token)?;
        self.mode = Mode::Between;
        Ok(())
    }

    // The part of the text that is begun.
    fn begun(&self) -> Span
        ensures value { bytes self.now.text.items result ≡ begun self.now }
        ensures within { Inside (length self.now.text.items) result }
    {
        Span {
            start: self.start,
            len: self.text.len() - self.start,
        }
    }

    // A byte where nothing is begun.
    fn begin(&mut self, input: Input) -> Result<(), Fault>
        ensures { Steps input result (begins (done self.old) input.byte (class input.byte)) self.new }
    {
        self.start = self.text.len();
        match class_of(input.byte) {
            Class::Blank => self.mode = Mode::Between,
            Class::Letter => self.keep(input.byte, Mode::InWord)?,
            Class::Digit => self.mode = Mode::InNumber(u32::from(input.byte - b'0')),
            Class::Quote => self.mode = Mode::InQuote,
            Class::Opens => self.emit(Token::Open)?,
            Class::Closes => self.emit(Token::Close)?,
            Class::Separates => self.emit(Token::Comma)?,
            Class::Equals => self.mode = Mode::InArrow,
            Class::Other => return Err(input.stray()),
        }
        Ok(())
    }

    // A byte in or behind a word.
    fn in_word(&mut self, input: Input) -> Result<(), Fault>
        ensures { Steps input result (goes (done self.old) (in_word (begun self.old)) input.byte) self.new }
    {
        if goes_on(input.byte) {
            return self.keep(input.byte, Mode::InWord);
        }
        self.emit(Token::Word(self.begun()))?;
        self.begin(input)
    }

    // A byte in or behind a number.
    fn in_number(&mut self, number: u32, input: Input) -> Result<(), Fault>
        ensures { Steps input result (goes (done self.old) (in_number number) input.byte) self.new }
    {
        let Some(digit) = char::from(input.byte).to_digit(10) else {
            self.emit(Token::Number(number))?;
            return self.begin(input);
        };
        let more = number
            .checked_mul(10)
            .and_then(|tens| tens.checked_add(digit))
            .ok_or(Fault::Large { place: input.place })?;
        self.mode = Mode::InNumber(more);
        Ok(())
    }

    // A byte in a quoted text.
    fn in_quote(&mut self, byte: u8) -> Result<(), Fault>
        ensures { Grows result (goes (done self.old) (in_quote (begun self.old)) byte) self.new }
    {
        match byte {
            b'"' => self.emit(Token::Quoted(self.begun()))?,
            b'\\' => self.mode = Mode::InEscape,
            _ => self.keep(byte, Mode::InQuote)?,
        }
        Ok(())
    }

    // The byte behind a backslash.
    fn in_escape(&mut self, input: Input) -> Result<(), Fault>
        ensures { Steps input result (goes (done self.old) (in_escape (begun self.old)) input.byte) self.new }
    {
        match input.byte {
            b'x' => self.mode = Mode::InHigh,
            b'"' | b'\\' => self.keep(input.byte, Mode::InQuote)?,
            _ => return Err(input.escape()),
        }
        Ok(())
    }

    // The first digit of an escaped byte.
    fn in_high(&mut self, input: Input) -> Result<(), Fault>
        ensures { Steps input result (goes (done self.old) (in_high (begun self.old)) input.byte) self.new }
    {
        let high = HexDigit::of(input.byte).ok_or(input.escape())?;
        self.mode = Mode::InLow(high);
        Ok(())
    }

    // The second digit of an escaped byte.
    fn in_low(&mut self, high: HexDigit, input: Input) -> Result<(), Fault>
        ensures { Steps input result (goes (done self.old) (in_low (begun self.old) high.value) input.byte) self.new }
    {
        let low = HexDigit::of(input.byte).ok_or(input.escape())?;
        self.keep(high.value * 16 + low.value, Mode::InQuote)
    }

    // One byte more of the line.
    fn push(&mut self, input: Input) -> Result<(), Fault>
        ensures { Steps input result (step (state self.old) input.byte) self.new }
    {
        match self.mode {
            Mode::Between => self.begin(input),
            Mode::InWord => self.in_word(input),
            Mode::InQuote => self.in_quote(input.byte),
            Mode::InEscape => self.in_escape(input),
            Mode::InHigh => self.in_high(input),
            Mode::InLow(high) => self.in_low(high, input),
            Mode::InNumber(number) => self.in_number(number, input),
            Mode::InArrow => match input.byte {
                b'>' => self.emit(Token::Arrow),
                _ => Err(input.stray()),
            },
        }
    }

    // The tokens where the line ends.
    fn finish(mut self) -> Result<Tokens, Fault>
        ensures { Finishes result (finish (state self)) }
    {
        match self.mode {
            Mode::Between => {}
            Mode::InWord => self.emit(Token::Word(self.begun()))?,
            Mode::InNumber(number) => self.emit(Token::Number(number))?,
            _ => return Err(Fault::Unfinished),
        }
        let Lexer { text, tokens, .. } = self;
        Ok(Tokens { text, tokens })
    }
}

// Cuts a line into its tokens.
pub fn tokens_of(heap: Global, line: &[u8]) -> Result<Tokens, Fault>
    ensures cases { Ends result (lex line.now) }
    ensures refused { IfErr result (Faulty line.now) }
{
    let mut lexer = Lexer {
        text: Vec::new(heap),
        tokens: Vec::new(heap),
        start: 0,
        mode: Mode::Between,
    };
    for (place, &byte) in line.iter().enumerate() {
        lexer.push(Input { place, byte })?;
    }
    lexer.finish()
}
