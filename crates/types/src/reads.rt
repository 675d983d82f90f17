// What can be read of a type, by its number. A number that names nothing stands for no type.
ghost use Rattle.std.specs.Prelude.{◌≡◌, ℕ, ◌<◌, ◌≤◌, Bool, true, false, MatchOption, ◌==◌};
ghost use Rattle.std.specs.List.{slice_get};
ghost use Rattle.terms.specs.Limits.{deepest_type};
ghost use Rattle.terms.specs.Kinds.{kind_number, is_list, is_integer, has_child};
ghost use Rattle.types.specs.Trees.{none, kind_of, child_of, second_of, wild, is_dictionary, native_of, grown, within, depth as levels, base_type, dimensions, innermost, same as same_trees};
ghost use Rattle.types.specs.Views.{records as records_of, size, meant, told, kind_code, Stands, Passes};

use crate::record;
use crate::view::View;
use places::TypeRecord;
use terms::Kind;

impl View<'_> {
    // How many types it shows.
    pub fn len(self) -> usize
        ensures { result ≡ size self.entry }
    {
        self.records.len()
    }

    // The record of a type.
    pub fn record(self, n: u16) -> Option<TypeRecord>
        ensures value { result ≡ slice_get (records_of self.entry) n }
        ensures stands { MatchOption result (meant self.entry n ≡ none) (λ x. Stands self.entry n x) }
    {
        self.records.get(usize::from(n)).copied()
    }

    // The kind of a type.
    pub fn kind(self, n: u16) -> Option<Kind>
        ensures { kind_code result ≡ kind_of (meant self.entry n) }
    {
        record::kind_of(&self.record(n)?)
    }

    // Whether a type is of that kind.
    pub fn is_kind(self, n: u16, kind: Kind) -> bool
        ensures { result ≡ (kind_of (meant self.entry n) == kind_number kind) }
    {
        self.kind(n) == Some(kind)
    }

    // Whether a type is a list, of any of the five kinds.
    pub fn is_list(self, n: u16) -> bool
        ensures { result ≡ is_list (kind_of (meant self.entry n)) }
    {
        self.kind(n).is_some_and(Kind::is_list)
    }

    // The element of a list, or the value of a Dictionary: a type before it.
    pub fn child(self, n: u16) -> Option<u16>
        ensures value { told self.entry result ≡ child_of (meant self.entry n) }
        ensures below { MatchOption result (has_child (kind_of (meant self.entry n)) ≡ false) (λ c. (has_child (kind_of (meant self.entry n)) ≡ true) × (c < n)) }
    {
        record::child_of(&self.record(n)?)
    }

    // The key of a Dictionary: a type before it.
    pub fn second_child(self, n: u16) -> Option<u16>
        ensures value { told self.entry result ≡ second_of (meant self.entry n) }
        ensures below { MatchOption result (is_dictionary (kind_of (meant self.entry n)) ≡ false) (λ c. (is_dictionary (kind_of (meant self.entry n)) ≡ true) × (c < n)) }
    {
        record::second_of(&self.record(n)?)
    }

    // The kind of the key of a Dictionary: an integer's.
    pub fn key(self, n: u16) -> Option<Kind>
        ensures value { kind_code result ≡ kind_of (second_of (meant self.entry n)) }
        ensures integer { MatchOption result (is_dictionary (kind_of (meant self.entry n)) ≡ false) (λ k. is_integer (kind_number k) ≡ true) }
    {
        self.kind(self.second_child(n)?)
    }

    // Whether a type stands for many: a fixed-size list of any size, or a Timestamp of any zone.
    pub fn is_wildcard(self, n: u16) -> bool
        ensures { result ≡ wild (meant self.entry n) }
    {
        self.record(n).is_some_and(|r| record::is_wildcard(&r))
    }

    // How many levels a type has, 8 at most.
    #[cycle(levels)]
    #[tactic(auto, using(crate::proofs::Steps::depths))]
    pub fn depth(self, n: u16) -> u8
        ensures value { result ≡ levels (meant self.entry n) }
        ensures bound { result ≤ deepest_type }
    {
        match self.record(n) {
            Some(r) => self.levels_of(&r),
            None => 0,
        }
    }

    // How many levels the type of a record has. What has a second part has a first one too.
    #[cycle(levels)]
    #[tactic(auto, using(crate::proofs::Steps::depths))]
    pub(crate) fn levels_of(self, r: &TypeRecord) -> u8
        ensures { result ≡ levels (grown (meant self.entry) r.now) }
    {
        let below = match (record::child_of(r), record::second_of(r)) {
            (Some(value), Some(key)) => self.depth(value).max(self.depth(key)),
            (Some(element), None) => self.depth(element),
            (None, _) => 0,
        };
        1 + below
    }

    // Goes from a type to its child as long as its kind is one to pass through, and says where that ends.
    fn within<P: Fn(Kind) -> bool>(self, n: u16, through: P) -> u16
        requires { P.IsAlwaysCallable through }
        ensures { (p : ℕ → Bool) → Passes (P.post through) p → meant self.entry result ≡ within p (meant self.entry n) }
    {
        match (self.kind(n), self.child(n)) {
            (Some(kind), Some(child)) if through(kind) => self.within(child, through),
            _ => n,
        }
    }

    // The first type within that is no list.
    pub fn base_type(self, n: u16) -> u16
        ensures { meant self.entry result ≡ base_type (meant self.entry n) }
    {
        self.within(n, Kind::is_list)
    }

    // How many lists there are from the outside, 8 at most.
    #[tactic(auto, using(crate::proofs::Steps::counts))]
    pub fn list_dimensions(self, n: u16) -> u8
        ensures value { result ≡ dimensions (meant self.entry n) }
        ensures bound { result ≤ deepest_type }
    {
        match self.child(n) {
            Some(element) if self.is_list(n) => 1 + self.list_dimensions(element),
            _ => 0,
        }
    }

    // The value of a Dictionary, and of a Dictionary within it, to the innermost; any other type itself.
    pub fn innermost_value(self, n: u16) -> u16
        ensures { meant self.entry result ≡ innermost (meant self.entry n) }
    {
        self.within(n, |kind| kind == Kind::Dictionary)
    }

    // The native kind of a type: that of its innermost value.
    pub fn native_kind(self, n: u16) -> Option<Kind>
        ensures { kind_code result ≡ native_of (meant self.entry n) }
    {
        self.kind(self.innermost_value(n)).map(Kind::native)
    }

    // Whether two numbers stand for the same type.
    #[tactic(auto, using(crate::proofs::Viewed::sames))]
    pub fn same_type(self, a: u16, b: u16) -> bool
        ensures { result ≡ same_trees (meant self.entry a) (meant self.entry b) }
    {
        a == b || (self.record(a).is_none() && self.record(b).is_none())
    }
}
