// A call that is well formed.
ghost use Rattle.std.specs.Prelude.{IsNone};
ghost use Rattle.arguments.specs.Places.{malformed};

use crate::validate_arguments;
use crate::written::{Argument, ArgumentName};
use terms::Refusal;

// The parameters of a call, its arguments with their names, and the text that the names stand in. Arguments and names lie
// apart, as in the function that is ported.
#[derive(Clone, Copy)]
pub(crate) struct Call<'a> {
    pub(crate) param_names: &'a [&'a [u8]],
    pub(crate) args: &'a [Argument],
    pub(crate) arg_names: &'a [Option<ArgumentName>],
    pub(crate) text: &'a [u8],
    ghost well_formed: { IsNone (malformed text.now args.now arg_names.now) },
}

impl<'a> Call<'a> {
    ghost use Rattle.std.specs.Prelude.{◌≡◌, IfOk};
    ghost use Rattle.terms.specs.Refusals.{refusal_of};
    ghost use Rattle.arguments.specs.Places.{malformed};

    // A call of these parts, or 21 where it is not well formed.
    pub(crate) fn new(
        param_names: &'a [&'a [u8]],
        args: &'a [Argument],
        arg_names: &'a [Option<ArgumentName>],
        text: &'a [u8],
    ) -> Result<Call<'a>, Refusal>
        ensures refused { refusal_of result ≡ malformed text.now args.now arg_names.now }
        ensures parts { IfOk result (λ c. (c.param_names ≡ param_names.entry) × (c.args ≡ args.entry)
            × (c.arg_names ≡ arg_names.entry) × (c.text ≡ text.entry)) }
    {
        validate_arguments(args, arg_names, text)?;
        Ok(Call {
            param_names,
            args,
            arg_names,
            text,
        })
    }
}
