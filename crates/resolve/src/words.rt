// What a refusal means, in words for whoever wrote the line.
use arguments::ArgumentName;
use printing::{Label, Quoted};
use script::{ArgumentsLine, FunctionLine, Span};
use std::{fmt, iter};
use terms::{LONGEST_LABEL, MOST_ARGUMENTS, MOST_PARAMETERS, Reason, Refusal};

// What the refusal of a function means, and what to change.
#[derive(Clone, Copy)]
pub(crate) struct FunctionWords<'a> {
    pub(crate) refusal: Refusal,
    pub(crate) line: &'a FunctionLine,
}

// What the refusal of a line of arguments means, and what to change. Arguments are counted from 1 here.
#[derive(Clone, Copy)]
pub(crate) struct ArgumentsWords<'a> {
    pub(crate) refusal: Refusal,
    pub(crate) line: &'a ArgumentsLine,
    pub(crate) params: &'a [&'a [u8]],
}

// Some labels, with commas between them.
#[derive(Clone, Copy)]
struct Labels<'a>(&'a [&'a [u8]]);

// The name of an argument, in quotes where it was written so; nothing where it has none.
#[derive(Clone, Copy)]
struct Name<'a> {
    text: &'a [u8],
    name: Option<ArgumentName>,
}

// A label of the line that is too long: the name, or else the first such parameter.
fn too_long(line: &FunctionLine) -> &[u8] {
    iter::once(&line.name)
        .chain(line.params.iter())
        .map(|label| label.span.part_of(&line.text))
        .find(|label| label.len() > LONGEST_LABEL)
        .unwrap_or(&[])
}

impl fmt::Display for FunctionWords<'_> {
    fn fmt<W: fmt::Write>(&self, f: &mut fmt::Formatter<W>) -> fmt::Result {
        let line = self.line;
        match self.refusal.reason {
            Reason::LabelTooLong => {
                let label = Label::new(too_long(line));
                write!(
                    f,
                    "{label} is too long a name: shorten it to {LONGEST_LABEL} bytes"
                )
            }
            _ => {
                let name = Label::new(line.name.span.part_of(&line.text));
                let count = line.params.len();
                write!(
                    f,
                    "{name} has {count} parameters: leave some out, {MOST_PARAMETERS} is the most"
                )
            }
        }
    }
}

impl fmt::Display for ArgumentsWords<'_> {
    fn fmt<W: fmt::Write>(&self, f: &mut fmt::Formatter<W>) -> fmt::Result {
        let line = self.line;
        let function = Label::new(line.name.span.part_of(&line.text));
        let place = self.refusal.place;
        let nth = place.saturating_add(1);
        let id = line.args.get(place).map_or(0, |arg| arg.id);
        let name = Name {
            text: &line.text,
            name: line.names.get(place).copied().flatten(),
        };
        match self.refusal.reason {
            Reason::UnknownFunction => {
                write!(
                    f,
                    "no function is called {function}: write its function line first, or correct the name"
                )
            }
            Reason::PositionalAfterNamed => {
                write!(
                    f,
                    "argument {nth}, {id}, has no name and stands behind one that has: name it, or move it to the front"
                )
            }
            Reason::TooManyPositional => {
                let given = line.names.iter().filter(|name| name.is_none()).count();
                let most = self.params.len();
                write!(
                    f,
                    "{given} arguments have no name, and {function} takes {most} at most beside a name: leave some out"
                )
            }
            Reason::UnknownParameter => {
                let names = Labels(self.params);
                write!(
                    f,
                    "argument {nth}, {id}, is for {name}, and {function} has no such parameter: it has {names}"
                )
            }
            Reason::ParameterGivenTwice => {
                write!(
                    f,
                    "argument {nth}, {id}, is for {name}, which an argument before it has: give each parameter once"
                )
            }
            Reason::MissingParameter => {
                let param = Label::new(self.params.get(place).copied().unwrap_or(&[]));
                write!(
                    f,
                    "parameter {param} of {function} has no argument: give it one, or leave out what stands behind it"
                )
            }
            _ => {
                let count = line.args.len();
                write!(
                    f,
                    "{count} arguments for {function} are too many: {MOST_ARGUMENTS} is the most"
                )
            }
        }
    }
}

impl fmt::Display for Labels<'_> {
    fn fmt<W: fmt::Write>(&self, f: &mut fmt::Formatter<W>) -> fmt::Result {
        for (k, label) in self.0.iter().enumerate() {
            if k > 0 {
                write!(f, ", ")?;
            }
            write!(f, "{}", Label::new(label))?;
        }
        Ok(())
    }
}

impl fmt::Display for Name<'_> {
    fn fmt<W: fmt::Write>(&self, f: &mut fmt::Formatter<W>) -> fmt::Result {
        let Some(name) = self.name else {
            return Ok(());
        };
        let ArgumentName {
            start,
            len,
            is_quoted,
        } = name;
        let label = Span { start, len }.part_of(self.text);
        if is_quoted {
            write!(f, "{}", Quoted::new(label))
        } else {
            write!(f, "{}", Label::new(label))
        }
    }
}
