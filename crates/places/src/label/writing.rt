// Making a label of a text, and reading it.
ghost use Rattle.std.specs.Prelude.{◌≡◌, ◌≤◌, [], length};
ghost use Rattle.terms.specs.Limits.{longest_label};
ghost use Rattle.places.specs.Labels.{spelled, item, zone_wildcard, utc, written, labelled};

use super::Label;
use fixed::FixedVec;
use terms::{LONGEST_LABEL, Reason, Refusal};

impl Label {
    // The label of no bytes.
    pub fn empty() -> Label
        ensures { spelled result ≡ [] }
    {
        Label {
            bytes: FixedVec::new(),
        }
    }

    // The label of the text, which is short enough.
    fn of(text: &[u8]) -> Label
        requires { length text.now ≤ longest_label }
        ensures { spelled result ≡ text.now }
    {
        Label {
            bytes: FixedVec::from_slice(text),
        }
    }

    // The label of the text, or 11 where it has too many bytes.
    pub fn new(text: &[u8]) -> Result<Label, Refusal>
        ensures { written result ≡ labelled text.now }
    {
        if text.len() > LONGEST_LABEL {
            return Err(Reason::LabelTooLong.into());
        }
        Ok(Label::of(text))
    }

    // The label of what a list is made of.
    pub fn item() -> Label
        ensures { spelled result ≡ item }
    {
        Label::of(b"item")
    }

    // The time zone that stands for any other.
    pub fn zone_wildcard() -> Label
        ensures { spelled result ≡ zone_wildcard }
    {
        Label::of(b"+TZ")
    }

    // The time zone of no offset.
    pub fn utc() -> Label
        ensures { spelled result ≡ utc }
    {
        Label::of(b"+00")
    }

    // Its bytes.
    pub fn as_bytes(&self) -> &[u8]
        ensures { result.now ≡ spelled self.now }
    {
        self.bytes.as_slice()
    }
}
