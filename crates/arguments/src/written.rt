// An argument as it is written.

use fixed::Blank;

// What a call is given: an id of the caller's, and the number of its type.
#[derive(Clone, Copy, Debug, PartialEq, Eq)]
pub struct Argument {
    pub id: u32,
    pub type_number: u16,
}

impl Blank for Argument {
    ghost blank = { record { id = 0; type_number = 0 } };

    fn blank() -> Argument {
        Argument {
            id: 0,
            type_number: 0,
        }
    }
}

// The name that an argument is written with: a part of a text that the caller lends. By number and not as a slice, so that
// one that reaches past its text can be refused.
#[derive(Clone, Copy, Debug, PartialEq, Eq)]
pub struct ArgumentName {
    pub start: usize,
    pub len: usize,
    // A quoted name matches exactly, any other ignoring ASCII case.
    pub is_quoted: bool,
}
