//! Reducing a bond set by rows that are found by their pivots, with the result of `reduction::reduce`.
//!
//! Rows, tags and pivots are those of `reduction`, and a row is never changed. Byte b of `place` is the row whose pivot is bond b, where b is a
//! fresh pivot: one that no other row holds. A set is then reduced by the rows of the fresh pivots that it holds, in any order, because no
//! addition changes which these are; and then by the few other rows, the late ones, in order.
ghost use Rattle.std.specs.Prelude.{◌≡◌, ◌+◌, ◌*◌, ◌<◌, ◌≤◌, length, replicate};
ghost use Rattle.bondset.specs.Sets.{value, members};
ghost use Rattle.bondset.specs.Rows.{flat};
ghost use Rattle.bondset.specs.Reduction.{Reduces};
ghost use Rattle.bondset.specs.Index.{Reaches, AddsWithin, AddsHeld, AddsPlaced, AddsLate, Indexed, Enters, PushesIndexed};

use crate::reduction::Reduced;
use crate::{BondSet, WordSet};

/// How rows are found.
#[derive(Clone, Copy)]
pub struct Index {
    /// Pivots that no other row holds: `place` has their rows.
    pub fresh: BondSet,
    /// The numbers of the rows whose pivot is not fresh.
    pub late: BondSet,
    /// Every bond of every row.
    pub all: BondSet,
}

impl Index {
    /// Enters the pivot of a new row, `count`: its lowest bond that no row holds, which is fresh, or where there is none its lowest bond, and the
    /// row is late.
    fn enter(&mut self, pivots: &mut [u8], place: &mut [u8], count: usize, rest: BondSet)
        requires count_in_bounds { count < length pivots.old }
        requires in_bounds { 128 ≤ length place.old }
        requires count_bound { count < 128 }
        ensures { Enters pivots.old place.old (value self.old.fresh) (value self.old.late) (value self.old.all) count (value rest)
            pivots.new place.new (value self.new.fresh) (value self.new.late) (value self.new.all) }
    {
        let new = rest.sum(rest.intersection(self.all));
        // If nothing is new, `all` has every bond of the row.
        if new.is_empty() {
            pivots[count] = rest.lowest() as u8;
            self.late = self.late.sum(BondSet::single(count));
            return;
        }
        let b = new.lowest();
        pivots[count] = b as u8;
        place[b] = count as u8;
        self.fresh = self.fresh.sum(BondSet::single(b));
        self.all = self.all.sum(new);
    }
}

/// Adds row `i` and its tag, if it is one of the rows from, .., to - 1.
fn add_within(
    rows: &[BondSet],
    tags: &[BondSet],
    from: usize,
    to: usize,
    i: usize,
    v: Reduced,
) -> Reduced
    requires rows_fit { to ≤ length rows.now }
    requires tags_fit { to ≤ length tags.now }
    ensures { AddsWithin (flat rows.now) (flat tags.now) from to i (value v.rest) (value v.used)
        (value result.rest) (value result.used) }
{
    if i < from || to <= i {
        return v;
    }
    Reduced {
        rest: v.rest.sum(rows[i]),
        used: v.used.sum(tags[i]),
    }
}

/// Adds row `i` and its tag, if it is one of the rows from, .., to - 1 and the rest holds its pivot.
fn add_held(
    rows: &[BondSet],
    tags: &[BondSet],
    pivots: &[u8],
    from: usize,
    to: usize,
    i: usize,
    v: Reduced,
) -> Reduced
    requires rows_fit { to ≤ length rows.now }
    requires tags_fit { to ≤ length tags.now }
    requires pivots_fit { to ≤ length pivots.now }
    ensures { AddsHeld (flat rows.now) (flat tags.now) pivots.now from to i (value v.rest) (value v.used)
        (value result.rest) (value result.used) }
{
    if to <= i {
        return v;
    }
    if v.rest.member(usize::from(pivots[i])) {
        return add_within(rows, tags, from, to, i, v);
    }
    v
}

/// Adds the rows from, .., to - 1 that stand at the places of `hits`, and their tags.
fn add_placed(
    rows: &[BondSet],
    tags: &[BondSet],
    place: &[u8],
    from: usize,
    to: usize,
    hits: BondSet,
    v: Reduced,
) -> Reduced
    requires rows_fit { to ≤ length rows.now }
    requires tags_fit { to ≤ length tags.now }
    requires in_bounds { 128 ≤ length place.now }
    ensures { AddsPlaced (flat rows.now) (flat tags.now) place.now from to (members 128 (value hits))
        (value v.rest) (value v.used) (value result.rest) (value result.used) }
{
    let mut w = v;
    for b in hits {
        w = add_within(rows, tags, from, to, usize::from(place[b]), w);
    }
    w
}

/// Adds the rows from, .., to - 1 of `late` in order, each where the rest then holds its pivot, and their tags.
fn add_late(
    rows: &[BondSet],
    tags: &[BondSet],
    pivots: &[u8],
    from: usize,
    to: usize,
    late: BondSet,
    v: Reduced,
) -> Reduced
    requires rows_fit { to ≤ length rows.now }
    requires tags_fit { to ≤ length tags.now }
    requires pivots_fit { to ≤ length pivots.now }
    ensures { AddsLate (flat rows.now) (flat tags.now) pivots.now from to (members 128 (value late))
        (value v.rest) (value v.used) (value result.rest) (value result.used) }
{
    let mut w = v;
    for i in late {
        w = add_held(rows, tags, pivots, from, to, i, w);
    }
    w
}

/// Reduces `v` by the rows from, .., to - 1, as `reduction::reduce` does.
pub fn reduce(
    rows: &[BondSet],
    tags: &[BondSet],
    pivots: &[u8],
    place: &[u8],
    index: Index,
    from: usize,
    to: usize,
    v: Reduced,
) -> Reduced
    requires rows_fit { to ≤ length rows.now }
    requires tags_fit { to ≤ length tags.now }
    requires pivots_fit { to ≤ length pivots.now }
    requires in_bounds { 128 ≤ length place.now }
    requires reaches { Reaches (flat rows.now) pivots.now place.now
        (value index.fresh) (value index.late) (value index.all) to }
    ensures { Reduces (flat rows.now) (flat tags.now) pivots.now from to (value v.rest) (value v.used)
        (value result.rest) (value result.used) }
{
    if to <= from {
        return v;
    }
    let hits = v.rest.intersection(index.fresh);
    let w = add_placed(rows, tags, place, from, to, hits, v);
    add_late(rows, tags, pivots, from, to, index.late, w)
}

/// Stores `v.rest` as row `count`, with its pivot; its tag names what was used and the new chosen set, `count`.
pub fn push(
    rows: &mut [BondSet],
    tags: &mut [BondSet],
    pivots: &mut [u8],
    place: &mut [u8],
    index: Index,
    count: usize,
    v: Reduced,
) -> Index
    requires rows_fit { count < length rows.old }
    requires tags_fit { count < length tags.old }
    requires pivots_fit { count < length pivots.old }
    requires in_bounds { 128 ≤ length place.old }
    requires count_bound { count < 128 }
    ensures { PushesIndexed (flat rows.old) (flat tags.old) pivots.old place.old
        (value index.fresh) (value index.late) (value index.all) count (value v.rest) (value v.used)
        (flat rows.new) (flat tags.new) pivots.new place.new
        (value result.fresh) (value result.late) (value result.all) }
{
    rows[count] = v.rest;
    tags[count] = v.used.sum(BondSet::single(count));
    let mut grown = index;
    grown.enter(pivots, place, count, v.rest);
    grown
}

/// The rows of a reduction: at most `N` bond sets, each with its tag and its pivot, and how they are found.
#[derive(Clone, Copy)]
pub struct Rows<const N: usize> {
    /// The rows.
    pub rows: [BondSet; N],
    /// For each row the numbers of the chosen sets whose sum it is.
    pub tags: [BondSet; N],
    /// For each row a bond that it holds.
    pub pivots: [u8; N],
    /// For each fresh pivot its row.
    pub place: [u8; 128],
    /// How the rows are found.
    pub index: Index,
    /// How many rows there are.
    pub count: usize,
    // A set names the late rows.
    pub ghost few: { N ≤ 128 },
    pub ghost room: { count ≤ N },
}

impl<const N: usize> Rows<N> {
    /// No row.
    pub fn new() -> Rows<N>
        requires { N ≤ 128 }
        ensures counted { result.count ≡ 0 }
        ensures rows_empty { flat result.rows ≡ replicate (2 * N) 0 }
        ensures tags_empty { flat result.tags ≡ replicate (2 * N) 0 }
        ensures pivots_empty { result.pivots ≡ replicate N 0 }
        ensures indexed { Indexed (flat result.rows) result.pivots result.place
            (value result.index.fresh) (value result.index.late) (value result.index.all) 0 }
    {
        let none = BondSet::empty();
        Rows {
            rows: [none; N],
            tags: [none; N],
            pivots: [0; N],
            place: [0; 128],
            index: Index {
                fresh: none,
                late: none,
                all: none,
            },
            count: 0,
        }
    }

    /// Reduces `v` by the rows from, .., to - 1, as `reduction::reduce` does.
    pub fn reduce(&self, from: usize, to: usize, v: Reduced) -> Reduced
        requires to_in_bounds { to ≤ self.now.count }
        requires indexed { Indexed (flat self.now.rows) self.now.pivots self.now.place
            (value self.now.index.fresh) (value self.now.index.late) (value self.now.index.all) self.now.count }
        ensures { Reduces (flat self.now.rows) (flat self.now.tags) self.now.pivots from to (value v.rest) (value v.used)
            (value result.rest) (value result.used) }
    {
        reduce(
            &self.rows,
            &self.tags,
            &self.pivots,
            &self.place,
            self.index,
            from,
            to,
            v,
        )
    }

    /// Stores `v.rest` as one more row, with its pivot; its tag names what was used and the new chosen set, of the row's number.
    pub fn push(&mut self, v: Reduced)
        requires { self.old.count < N }
        ensures counted { self.new.count ≡ self.old.count + 1 }
        ensures pushed { PushesIndexed (flat self.old.rows) (flat self.old.tags) self.old.pivots self.old.place
            (value self.old.index.fresh) (value self.old.index.late) (value self.old.index.all) self.old.count (value v.rest) (value v.used)
            (flat self.new.rows) (flat self.new.tags) self.new.pivots self.new.place
            (value self.new.index.fresh) (value self.new.index.late) (value self.new.index.all) }
    {
        let count = self.count;
        self.index = push(
            &mut self.rows,
            &mut self.tags,
            &mut self.pivots,
            &mut self.place,
            self.index,
            count,
            v,
        );
        self.count = count + 1;
    }
}
