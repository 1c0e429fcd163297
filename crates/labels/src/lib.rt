//! Labels of marked rings: which a tag names, and how the classes of these rings are joined.
//!
//! A marked ring's label is a byte of a lent list, and rings with one label are of one class. A tag is a set of marked rings.
//!
//! Promises: joining leaves exactly the labels that the plan in `model` says. It asks that each label is below 128, so that labels make a set
//! of two words, and that the list reaches to the last ring that may be joined.

#![tactic(auto)]

ghost use Rattle.std.specs.Prelude.{◌≡◌, true, ◌<◌, ◌≤◌, ◌^◌, length};
ghost use Rattle.std.specs.Int.Bits.{bit_or};
ghost use Rattle.std.specs.Int.Count.{count_trailing_zeros};
ghost use Rattle.bondset.specs.Sets.{value};
ghost use Rattle.model.specs.State.{labels_in, relabel as relabelled, joined};
ghost use Rattle.labels.specs.Labelled.{Labelled, Alike};

use bondset::{BondSet, WordSet};

/// The set with `k` in it.
fn with(a: BondSet, k: usize) -> BondSet
    requires { k < 128 }
    ensures { value result ≡ bit_or (value a) (2 ^ k) }
{
    let b = BondSet::single(k);
    BondSet {
        lo: a.lo | b.lo,
        hi: a.hi | b.hi,
    }
}

/// The labels of the marked rings that `t` names.
fn labels_in(labels: &[u8], t: BondSet) -> BondSet
    requires { Labelled labels.now }
    ensures { value result ≡ labels_in labels.now (value t) }
{
    let mut all = BondSet::empty();
    for j in t {
        all = with(all, usize::from(bondset::byte_at(labels, j)));
    }
    all
}

/// Marked ring `j` takes the lowest label of `w` if its own is in `w`.
fn relabel(labels: &mut [u8], w: BondSet, j: usize)
    requires { j < length labels.old }
    ensures { labels.new ≡ relabelled (value w) (count_trailing_zeros 128 (value w)) j labels.old }
{
    if w.member(usize::from(labels[j])) {
        labels[j] = w.lowest() as u8;
    }
}

/// Whether the marked rings that `t` names have one label.
fn alike(labels: &[u8], t: BondSet) -> bool
    ensures { result ≡ true → Alike labels.now (value t) }
{
    let first = bondset::byte_at(labels, t.lowest());
    t.into_iter().all(|j| bondset::byte_at(labels, j) == first)
}

/// Joins the classes of the marked rings from, .., to - 1 that `t` names: nothing changes if they have one label, as most often.
pub fn join(labels: &mut [u8], from: usize, to: usize, t: BondSet)
    requires to_in_bounds { to ≤ length labels.old }
    requires labelled { Labelled labels.old }
    ensures { labels.new ≡ joined from to (value t) labels.old }
{
    if alike(labels, t) {
        return;
    }
    let w = labels_in(labels, t);
    for j in from..to {
        relabel(labels, w, j);
    }
}
