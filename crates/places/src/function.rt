// A function as it is kept: the number of its label, those of its parameters' labels, and its signature's bytes.
ghost use Rattle.std.specs.Prelude.{◌≤◌, [], length};
ghost use Rattle.std.proofs.Common.{zero-le};
ghost use Rattle.terms.specs.Limits.{most_parameters, longest_signature};

use fixed::{Blank, FixedVec};
use terms::{LONGEST_SIGNATURE, MOST_PARAMETERS};

#[derive(Clone, Copy)]
pub struct Function {
    pub label: u16,
    pub parameters: FixedVec<u16, MOST_PARAMETERS>,
    pub signature: FixedVec<u8, LONGEST_SIGNATURE>,
    ghost few_parameters: { length parameters ≤ most_parameters },
    ghost short_signature: { length signature ≤ longest_signature },
}

// What a place holds that no function was put in.
impl Blank for Function {
    ghost blank = { record { label = 0; parameters = []; signature = []; few_parameters = zero-le; short_signature = zero-le } };

    fn blank() -> Function {
        Function {
            label: 0,
            parameters: FixedVec::new(),
            signature: FixedVec::new(),
        }
    }
}
