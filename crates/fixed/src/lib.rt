// A list of at most so many things, in a place of fixed size.
#![tactic(auto)]

ghost use Rattle.std.specs.Cmp.{on_equiv, on_per};
ghost use Rattle.std.specs.Cmp.Lexicographic.{pointwise, lists_per, lists_equiv};
ghost use Rattle.std.specs.Prelude.{◌≡◌, ◌-◌, ◌<◌, ◌≤◌, List, [], ◌∷◌, ◌++◌, length, take, drop, replicate, MatchResult};

use std::alloc::AllocError;
use std::marker::Model;

// A type with a value for places where nothing was put. (The library's `Default` says what a default may be, and not which
// value it is.)
pub trait Blank: Copy {
    ghost blank: { Self };

    fn blank() -> Self
        ensures { result ≡ blank };
}

// One by one, since an impl for several types at once would take a macro.
impl Blank for u8 {
    ghost blank = { 0 };

    fn blank() -> u8 {
        b'\0'
    }
}

impl Blank for u16 {
    ghost blank = { 0 };

    fn blank() -> u16 {
        0
    }
}

// The things come first, and blanks behind them, so that equal lists are the same value. An array, since nothing is
// allocated here. Contracts see the list without its bound: a struct that needs the bound says it in a ghost field.
#[derive(Copy)]
pub struct FixedVec<T: Blank, const N: usize> {
    items: [T; N],
    len: usize,
}

impl<T: Blank, const N: usize> Model for FixedVec<T, N> {
    ghost use Rattle.std.specs.Prelude.{◌≡◌, ◌-◌, ◌≤◌, List, ◌++◌, length, take, drop, replicate};
    ghost use Rattle.fixed.specs.Padding.{length-front, front-padded};

    ghost Value = { List T };

    ghost view = { λ v. take v.len v.items };

    ghost invariant = { λ v. (v.len ≤ N) × (length v.items ≡ N) × (drop v.len v.items ≡ replicate (N - v.len) T.blank) };

    ghost inverse = { λ xs. record { items = xs ++ replicate (N - length xs) T.blank; len = length xs } };

    ghost inverse_ok = { λ a h. rw (front-padded a.items a.len N T.blank h, length-front a.items a.len N (h.0, h.1)) };
}

// A derive would clone thing by thing, and say less of what comes of it.
impl<T: Blank, const N: usize> Clone for FixedVec<T, N> {
    ghost is_clone = { λ a b. b ≡ a };

    ghost is_infallible = { λ _. Unit {0} };

    fn clone(&self) -> Result<Self, AllocError> {
        Ok(*self)
    }
}

// A derive would compare the blanks too.
impl<T: Blank + PartialEq, const N: usize> PartialEq for FixedVec<T, N> {
    ghost eq = { pointwise T.eq };

    ghost laws = { lists_per T.laws };

    fn eq(&self, other: &Self) -> bool {
        self.as_slice() == other.as_slice()
    }
}

impl<T: Blank + Eq, const N: usize> Eq for FixedVec<T, N> {
    ghost laws = { lists_equiv T.Eq.laws };
}

// More things than there is room for.
#[derive(Clone, Copy, Debug, PartialEq, Eq)]
pub struct TooMany;

impl<T: Blank, const N: usize> TryFrom<&[T]> for FixedVec<T, N> {
    type Error = TooMany;

    ghost try_from_gives = { λ things r. MatchResult r (λ v. (v ≡ things.now) × (length things.now ≤ N)) (λ _. N < length things.now) };

    fn try_from(things: &[T]) -> Result<Self, TooMany> {
        if things.len() > N {
            return Err(TooMany);
        }
        Ok(FixedVec::from_slice(things))
    }
}

impl<T: Blank, const N: usize> FixedVec<T, N> {
    // No things.
    pub fn new() -> Self
        ensures { result ≡ [] }
    {
        FixedVec {
            items: [T::blank(); N],
            len: 0,
        }
    }

    // These things, as many of them as there is room for.
    pub fn from_slice(things: &[T]) -> Self
        ensures { result ≡ take N things.now }
    {
        let len = things.len().min(N);
        let mut items = [T::blank(); N];
        items[..len].copy_from_slice(&things[..len]);
        FixedVec { items, len }
    }

    // One thing more at the end, where there is room.
    pub fn push(&mut self, thing: T)
        ensures { self.new ≡ take N (self.old ++ thing ∷ []) }
    {
        if self.len < N {
            self.items[self.len] = thing;
            self.len += 1;
        }
    }

    // These things more at the end, as many of them as there is room for.
    pub fn extend_from_slice(&mut self, things: &[T])
        ensures { self.new ≡ take N (self.old ++ things.now) }
    {
        let more = things.len().min(N - self.len);
        let items = &mut self.items[..];
        items[self.len..self.len + more].copy_from_slice(&things[..more]);
        self.len += more;
    }

    // The things.
    pub fn as_slice(&self) -> &[T]
        ensures value { result.now ≡ self.now }
        ensures bound { length self.now ≤ N }
    {
        &self.items[..self.len]
    }
}
