//! Sets of up to 128 bonds, as two words: bond k is bit k of `lo`, or bit k - 64 of `hi`.
//!
//! A set's value is the number in which bond k has weight 2^k, and each function says exactly what becomes of that number:
//! sums, intersections, single bonds, membership, length, the lowest bond, the bonds from one on, and the set as 12 bytes.
//! A byte beyond the end of a list counts as 0.
//! Each of these answers for every input, but for `BondSet::byte`, which asks for one of the 12, and nothing is assumed of what the bonds
//! join. What sets of two words and of one share stands in `WordSet`.

#![tactic(auto)]

ghost use Rattle.std.specs.Prelude.{◌≡◌, ◌+◌, ◌*◌, ◌/◌, ◌^◌, ◌<◌, ◌≤◌, min, length, get_or};
ghost use Rattle.std.specs.Int.Bits.{bit_xor, bit_and};
ghost use Rattle.std.proofs.Math.Seq.{paste};
ghost use Rattle.bondset.specs.Bytes.{byte_of, bytes_of, of_bytes};
ghost use Rattle.bondset.specs.Rows.{row_at, put_row};
ghost use Rattle.bondset.specs.Sets.{single, length_to, value};

pub mod indexed;
pub mod reduction;
mod word_sets;

pub use word_sets::{Each, WordSet, split_lowest};

/// A set of bonds: bond k is in it if bit k is 1, counted from the lowest bit of `lo` through `hi`.
#[derive(Clone, Copy)]
pub struct BondSet {
    /// Bonds 0 to 63.
    pub lo: u64,
    /// Bonds 64 to 127.
    pub hi: u64,
}

impl BondSet {
    /// The set of no bond.
    pub fn empty() -> BondSet
        ensures { value result ≡ 0 }
    {
        BondSet { lo: 0, hi: 0 }
    }

    /// The set of bond `k` alone: empty if there is no room for bond `k`.
    pub fn single(k: usize) -> BondSet
        ensures { value result ≡ single k }
    {
        if k < 64 {
            return BondSet {
                lo: 1u64 << k,
                hi: 0,
            };
        }
        if k < 128 {
            return BondSet {
                lo: 0,
                hi: 1u64 << (k - 64),
            };
        }
        BondSet::empty()
    }

    /// The bonds in exactly one of two sets.
    pub fn sum(self, other: BondSet) -> BondSet
        ensures { value result ≡ bit_xor (value self) (value other) }
    {
        BondSet {
            lo: self.lo ^ other.lo,
            hi: self.hi ^ other.hi,
        }
    }

    /// The bonds in both of two sets.
    pub fn intersection(self, other: BondSet) -> BondSet
        ensures { value result ≡ bit_and (value self) (value other) }
    {
        BondSet {
            lo: self.lo & other.lo,
            hi: self.hi & other.hi,
        }
    }

    /// The number of bonds in the set.
    pub fn length(self) -> u32
        ensures { result ≡ length_to 128 (value self) }
    {
        self.lo.count_ones() + self.hi.count_ones()
    }

    /// The bonds of the set from bond `k` on.
    pub fn since(self, k: usize) -> BondSet
        ensures { value result ≡ value self / 2 ^ k * 2 ^ k }
    {
        if k < 64 {
            return BondSet {
                lo: (self.lo >> k) << k,
                hi: self.hi,
            };
        }
        if k < 128 {
            return BondSet {
                lo: 0,
                hi: (self.hi >> (k - 64)) << (k - 64),
            };
        }
        BondSet::empty()
    }

    /// Byte `j` of the set, of its first 12: bond 8j is the lowest bit.
    pub fn byte(self, j: usize) -> u8
        requires { j < 12 }
        ensures { result ≡ byte_of (value self) j }
    {
        if j < 8 {
            return self.lo.to_le_bytes()[j];
        }
        self.hi.to_le_bytes()[j - 8]
    }

    /// Writes the set's first 12 bytes at the start of `out`, as many as it has room for; bond k is bit k mod 8 of byte k / 8.
    pub fn to_bytes(self, out: &mut [u8])
        ensures { out.new ≡ paste out.old 0 (bytes_of 12 (value self)) (min 12 (length out.old)) }
    {
        let words = [self.lo.to_le_bytes(), self.hi.to_le_bytes()];
        let n = out.len().min(12);
        out[..n].copy_from_slice(&words.as_flattened()[..n]);
    }

    /// The set that the first 12 bytes stand for, as `to_bytes` writes them; a missing byte counts as 0.
    pub fn from_bytes(bytes: &[u8]) -> BondSet
        ensures { value result ≡ of_bytes bytes.now }
    {
        let mut all = [0u8; 16];
        let n = bytes.len().min(12);
        all[..n].copy_from_slice(&bytes[..n]);
        let (words, _) = all.as_chunks::<8>();
        BondSet {
            lo: u64::from_le_bytes(words[0]),
            hi: u64::from_le_bytes(words[1]),
        }
    }
}

/// Byte `i`, or 0 if there is none.
pub fn byte_at(bytes: &[u8], i: usize) -> u8
    ensures { result ≡ get_or bytes.now i 0 }
{
    bytes.get(i).copied().unwrap_or(0)
}

/// Row `i` of sets that stand in a flat array, row i in words 2i and 2i + 1.
pub fn row_at(rows: &[u64], i: usize) -> BondSet
    requires { 2 * (i + 1) ≤ length rows.now }
    ensures { value result ≡ row_at rows.now i }
{
    BondSet {
        lo: rows[2 * i],
        hi: rows[2 * i + 1],
    }
}

/// Stores `v` as row `i` of sets that stand in a flat array.
pub fn put_row(rows: &mut [u64], i: usize, v: BondSet)
    requires { 2 * (i + 1) ≤ length rows.old }
    ensures { rows.new ≡ put_row rows.old i (value v) }
{
    rows[2 * i] = v.lo;
    rows[2 * i + 1] = v.hi;
}
