// The functions that were written so far, and what comes of the arguments written for one. The text of a line comes
// beside it, and not from it, so that a caller may lend one that is not his own.
#![tactic(auto)]

ghost use Rattle.std.specs.Prelude.{◌≡◌, ◌||◌, []};
ghost use Rattle.std.specs.Option.{option_map};
ghost use Rattle.terms.specs.Refusals.{refusal_of};
ghost use Rattle.session.specs.Known.{known, functions, writes, long, any_long, unfit, Adds, newest, Answers};

use arguments::resolve_function_arguments;
use printing::placed_text;
use script::{ArgumentsLine, FunctionLine};
use std::alloc::Global;
use terms::{LONGEST_LABEL, MOST_PARAMETERS, Reason, Refusal};

mod failure;
mod function;

pub use failure::Failure;
pub use function::Function;

// The functions in the order in which they were written.
#[derive(Drop)]
pub struct Session {
    functions: Vec<Function>,
}

fn is_long(label: &[u8]) -> bool
    ensures { result ≡ long label.now }
{
    label.len() > LONGEST_LABEL
}

// Whether the name or a parameter has too many bytes.
fn has_long_label(text: &[u8], line: &FunctionLine) -> bool
    ensures { result ≡ (long (writes text.now line.now).name || any_long (writes text.now line.now).params) }
{
    is_long(line.name.span.part_of(text))
        || line
            .params
            .iter()
            .any(|param| is_long(param.span.part_of(text)))
}

// Refuses a function that is not taken.
fn check(text: &[u8], line: &FunctionLine) -> Result<(), Refusal>
    ensures { refusal_of result ≡ unfit (writes text.now line.now) }
{
    if has_long_label(text, line) {
        return Err(Reason::LabelTooLong.into());
    }
    if line.params.len() > MOST_PARAMETERS {
        return Err(Reason::BadFunction.into());
    }
    Ok(())
}

impl Session {
    // No function yet.
    pub fn new(heap: Global) -> Session
        ensures { functions result ≡ [] }
    {
        Session {
            functions: Vec::new(heap),
        }
    }

    // Takes one function more. The answer is its number.
    pub fn add_function(
        &mut self,
        heap: Global,
        text: &[u8],
        line: &FunctionLine,
    ) -> Result<usize, Failure>
        ensures { Adds (functions self.old) (writes text.now line.now) result (functions self.new) }
    {
        check(text, line)?;
        let number = self.functions.len();
        let line = FunctionLine {
            text: Vec::from_slice(heap, text)?,
            name: line.name,
            params: Vec::from_slice(heap, &line.params)?,
        };
        self.functions.push(Function { line })?;
        Ok(number)
    }

    // The newest function of that name.
    pub fn newest(&self, name: &[u8]) -> Option<&Function>
        ensures { option_map (λ f. known f.now) result ≡ newest name.now (functions self.now) }
    {
        self.functions
            .iter()
            .rev()
            .find(|function| function.is_named(name))
    }

    // The arguments of a line as text, each under its parameter, for the function that it names.
    pub fn answer(&self, heap: Global, text: &[u8], line: &ArgumentsLine) -> Result<String, Failure>
        ensures { Answers (functions self.now) text.now line.now result }
    {
        let name = line.name.span.part_of(text);
        let unknown = Refusal::from(Reason::UnknownFunction);
        let function = self.newest(name).ok_or(unknown)?;
        let params = function.param_names(heap)?;
        let resolved = resolve_function_arguments(&params, &line.args, &line.names, text)?;
        Ok(placed_text(heap, name, &params, resolved.as_slice())?)
    }
}
