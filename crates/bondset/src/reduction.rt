//! Reducing a bond set by rows that stand in lent arrays.
//!
//! Each row has a tag, the set of that number in `tags`, and a pivot, the byte of that number in `pivots`: a bond that the row holds. The tag
//! names chosen sets by their numbers, and the row is their sum.
ghost use Rattle.std.specs.Prelude.{◌<◌, ◌≤◌, length};
ghost use Rattle.bondset.specs.Sets.{value};
ghost use Rattle.bondset.specs.Rows.{flat};
ghost use Rattle.bondset.specs.Reduction.{Reduces, Pushes};

use crate::{BondSet, WordSet};

/// A set on its way through the rows.
#[derive(Clone, Copy)]
pub struct Reduced {
    /// What remains of the set.
    pub rest: BondSet,
    /// The numbers of the chosen sets used on the way.
    pub used: BondSet,
}

/// Reduces `v` by the rows from, .., to - 1 in order: where the rest holds the pivot, the row is added to the rest, and its tag to what was used.
pub fn reduce(
    rows: &[BondSet],
    tags: &[BondSet],
    pivots: &[u8],
    from: usize,
    to: usize,
    v: Reduced,
) -> Reduced
    requires rows_fit { to ≤ length rows.now }
    requires tags_fit { to ≤ length tags.now }
    requires pivots_fit { to ≤ length pivots.now }
    ensures { Reduces (flat rows.now) (flat tags.now) pivots.now from to (value v.rest) (value v.used)
        (value result.rest) (value result.used) }
{
    let mut rest = v.rest;
    let mut used = v.used;
    // The rest once more, where any byte finds its word: a pivot is looked up without asking which of two words it is in.
    let mut words = [rest.lo, rest.hi, 0u64, 0u64];
    for i in from..to {
        let k = usize::from(pivots[i]);
        if (words[k / 64] >> (k % 64)) & 1 == 1 {
            rest = rest.sum(rows[i]);
            words[0] = rest.lo;
            words[1] = rest.hi;
            used = used.sum(tags[i]);
        }
    }
    Reduced { rest, used }
}

/// Stores `v.rest` as row `count`, with its lowest bond as the pivot; its tag names what was used and the new chosen set, `count`.
pub fn push(rows: &mut [BondSet], tags: &mut [BondSet], pivots: &mut [u8], count: usize, v: Reduced)
    requires rows_fit { count < length rows.old }
    requires tags_fit { count < length tags.old }
    requires pivots_fit { count < length pivots.old }
    ensures { Pushes (flat rows.old) (flat tags.old) pivots.old count (value v.rest) (value v.used)
        (flat rows.new) (flat tags.new) pivots.new }
{
    rows[count] = v.rest;
    tags[count] = v.used.sum(BondSet::single(count));
    pivots[count] = v.rest.lowest() as u8;
}
