// Where an argument goes: by its name, or where it is written.
ghost use Rattle.std.specs.Prelude.{◌≡◌, ◌<◌, length, IfOk};
ghost use Rattle.terms.specs.Refusals.{refusal_of};
ghost use Rattle.arguments.specs.Called.{params, names, name_of};
ghost use Rattle.arguments.specs.First.{first};
ghost use Rattle.arguments.specs.Gathering.{Assigned, claimed};
ghost use Rattle.arguments.specs.Names.{matches, first_match};
ghost use Rattle.arguments.specs.Places.{clash, place};

use crate::call::Call;
use terms::{MOST_ARGUMENTS, Reason, Refusal};

// A name as the text spells it.
#[derive(Clone, Copy)]
struct Spelling<'a> {
    bytes: &'a [u8],
    is_quoted: bool,
}

impl Spelling<'_> {
    // A quoted name matches exactly, any other ignoring ASCII case.
    fn matches(self, param_name: &[u8]) -> bool
        ensures { result ≡ matches (name_of self.entry) param_name.now }
    {
        if self.is_quoted {
            self.bytes == param_name
        } else {
            self.bytes.eq_ignore_ascii_case(param_name)
        }
    }
}

impl Call<'_> {
    // The first parameter that a name matches. (Place by place, as its proof goes.)
    fn parameter_index(self, name: Spelling) -> Option<usize>
        ensures { result ≡ first_match (name_of name.entry) (params self.entry) }
    {
        for k in 0..self.param_names.len() {
            if name.matches(self.param_names[k]) {
                return Some(k);
            }
        }
        None
    }

    // Where the argument goes that is written at `i`: there, or to the first parameter that its name matches.
    #[tactic(auto, using(crate::proofs::Formed::name_within))]
    fn place_of(self, i: usize) -> Option<usize>
        requires { i < length self.arg_names.now }
        ensures { result ≡ place (params self.entry) (names self.entry) i }
    {
        let Some(name) = self.arg_names[i] else {
            return Some(i);
        };
        self.parameter_index(Spelling {
            bytes: &self.text[name.start..name.start + name.len],
            is_quoted: name.is_quoted,
        })
    }

    // The place of the argument at `i`, or 25 where it has none, or 26 where an argument before it has that place.
    fn claim_place(self, i: usize, places: &[usize; MOST_ARGUMENTS]) -> Result<usize, Refusal>
        requires { i < length self.arg_names.now }
        ensures { result ≡ claimed places.now i (place (params self.entry) (names self.entry) i) }
    {
        let place = self.place_of(i).ok_or(Reason::UnknownParameter.at(i))?;
        if places[..i].contains(&place) {
            return Err(Reason::ParameterGivenTwice.at(i));
        }
        Ok(place)
    }

    // Puts the place of each argument, or refuses with 25 or 26 for the first that has none or one that was given already.
    pub(crate) fn assign_places(self, places: &mut [usize; MOST_ARGUMENTS]) -> Result<(), Refusal>
        ensures refused { refusal_of result ≡ first (clash (params self.entry) (names self.entry)) (length self.entry.arg_names.now) }
        ensures places { IfOk result (λ _. Assigned (params self.entry) (names self.entry) (length self.entry.arg_names.now) places.new) }
    {
        // Over arguments by number, which refusals name. (In an array: of a list, its length would be said again at each use.)
        for i in 0..self.arg_names.len() {
            places[i] = self.claim_place(i, places)?;
        }
        Ok(())
    }
}
