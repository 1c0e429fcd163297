//! Sets of small numbers in words: what one word and two words of bits share, said and proved once for both.
ghost use Rattle.std.specs.Prelude.{◌≡◌, ℕ, [], ◌∷◌, ◌-◌, ◌^◌, ◌<◌, eqb, MatchOption};
ghost use Rattle.std.specs.Int.Bits.{bit_and};
ghost use Rattle.std.specs.Int.Count.{count_trailing_zeros};
ghost use Rattle.std.specs.Iterator.{YieldsFirst, item_count};
ghost use Rattle.bondset.specs.Sets.{has, members, value};

use crate::BondSet;

/// A set of the numbers below a bound, with a bit for each.
pub trait WordSet: Copy {
    // The bound: so many bits there are.
    ghost room: { ℕ };

    // The number in which k has weight 2^k.
    ghost number: { Self → ℕ };

    /// Whether `k` is in the set.
    fn member(self, k: usize) -> bool
        ensures { result ≡ has (number self) k };

    /// Whether nothing is in the set.
    fn is_empty(self) -> bool
        ensures empty { result ≡ eqb (number self) 0 }
        ensures fits { number self < 2 ^ room };

    /// The lowest member of the set: the bound if it is empty.
    fn lowest(self) -> usize
        ensures { result ≡ count_trailing_zeros room (number self) };

    /// The set without its lowest member.
    fn others(self) -> Self
        ensures { number result ≡ bit_and (number self) (number self - 1) };
}

/// The lowest member of a set and the set without it, or nothing if it is empty.
pub fn split_lowest<S: WordSet>(set: S) -> Option<(usize, S)>
    ensures { MatchOption result (members S.room (S.number set) ≡ [])
        (λ (k, rest). members S.room (S.number set) ≡ k ∷ members S.room (S.number rest)) }
{
    if set.is_empty() {
        return None;
    }
    Some((set.lowest(), set.others()))
}

/// The members of a set, the lowest first.
#[derive(Clone, Copy)]
pub struct Each<S> {
    rest: S,
}

impl<S: WordSet> Each<S> {
    /// All members of a set.
    pub fn of(set: S) -> Each<S>
        ensures { result.rest ≡ set }
    {
        Each { rest: set }
    }
}

impl<S: WordSet> Iterator for Each<S> {
    type Item = usize;

    ghost next_gives = { YieldsFirst (λ s. members S.room (S.number s.rest)) };

    ghost remaining = { item_count (λ s. members S.room (S.number s.rest)) };

    fn next(&mut self) -> Option<usize> {
        let (lowest, others) = split_lowest(self.rest)?;
        self.rest = others;
        Some(lowest)
    }
}

impl WordSet for BondSet {
    ghost room = { 128 };

    ghost number = { value };

    fn member(self, k: usize) -> bool {
        if k < 64 {
            return (self.lo >> k) & 1 == 1;
        }
        if k < 128 {
            return (self.hi >> (k - 64)) & 1 == 1;
        }
        false
    }

    fn is_empty(self) -> bool {
        self.lo | self.hi == 0
    }

    fn lowest(self) -> usize {
        if self.lo != 0 {
            return self.lo.trailing_zeros() as usize;
        }
        self.hi.trailing_zeros() as usize + 64
    }

    fn others(self) -> BondSet {
        if self.lo != 0 {
            return BondSet {
                lo: self.lo & (self.lo - 1),
                hi: self.hi,
            };
        }
        if self.hi != 0 {
            return BondSet {
                lo: 0,
                hi: self.hi & (self.hi - 1),
            };
        }
        self
    }
}

impl WordSet for u64 {
    ghost room = { 64 };

    ghost number = { λ s. s };

    fn member(self, k: usize) -> bool {
        if k < 64 {
            return (self >> k) & 1 == 1;
        }
        false
    }

    fn is_empty(self) -> bool {
        self == 0
    }

    fn lowest(self) -> usize {
        self.trailing_zeros() as usize
    }

    fn others(self) -> u64 {
        if self == 0 {
            return 0;
        }
        self & (self - 1)
    }
}

impl IntoIterator for BondSet {
    type Item = usize;

    type IntoIter = Each<BondSet>;

    ghost into_iter_gives = { λ set it. it.rest ≡ set };

    fn into_iter(self) -> Each<BondSet> {
        Each::of(self)
    }
}
