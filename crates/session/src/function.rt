// A function that was written.
ghost use Rattle.std.specs.Prelude.{◌≡◌, IfOk};
ghost use Rattle.std.specs.Str.{bytes_eq};
ghost use Rattle.arguments.specs.View.{bytes_of};
ghost use Rattle.session.specs.Known.{known};

use script::FunctionLine;
use std::alloc::{AllocError, Global};

#[derive(Drop)]
pub struct Function {
    pub(crate) line: FunctionLine,
}

impl Function {
    // Whether its name has exactly these bytes.
    pub fn is_named(&self, name: &[u8]) -> bool
        ensures { result ≡ bytes_eq (known self.now).name name.now }
    {
        self.line.name.span.part_of(&self.line.text) == name
    }

    // The names of the parameters, in their order.
    pub fn param_names(&self, heap: Global) -> Result<Vec<&[u8]>, AllocError>
        ensures { IfOk result (λ v. bytes_of v.items ≡ (known self.now).params) }
    {
        let text = self.line.text.as_slice();
        self.line
            .params
            .iter()
            .map(|param| param.span.part_of(text))
            .collect(heap)
    }
}
