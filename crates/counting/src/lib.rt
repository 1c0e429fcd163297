//! The number of paths from an atom to the top, and the number of rings.
//!
//! Promises: the number of paths is exactly what the engine's plan in `model` says, for any lent words in which no two layers share an atom,
//! which the layers of the plan never do, and then it fits a word. A running count of rings is exact up to the largest word, and there is none
//! as soon as there are more.

#![tactic(auto)]

ghost use Rattle.std.specs.Prelude.{◌≡◌, true, [], ℕ, ◌+◌, ◌*◌, ◌-◌, ◌^◌, ◌<◌, ◌≤◌, length, get_or};
ghost use Rattle.bondset.specs.Sets.{bit};
ghost use Rattle.model.specs.Layer.{ways};
ghost use Rattle.paths.specs.Nets.{net};
ghost use Rattle.counting.specs.Counts.{Disjoint, Sized, Table, Others, Counted, added};

/// How many paths lead to the top from each of two atoms.
#[derive(Clone, Copy)]
pub struct PathCounts {
    /// Paths from the one.
    pub from_p: u64,
    /// Paths from the other.
    pub from_q: u64,
}

/// Whether one path alone leads to the top from atom `t` of layer `d`, as it does where each step down has one way to go.
fn lone(adj: &[u64], layers: &[u64], d: usize, t: usize) -> bool
    requires t_bound { t < 64 }
    requires in_bounds { 64 ≤ length adj.now }
    requires d_in_bounds { d ≤ length layers.now }
    ensures { result ≡ true → ways (net adj.now []) layers.now d t ≡ 1 }
{
    let mut a = t;
    for &layer in layers[..d].iter().rev() {
        let Some((next, 0)) = bondset::split_lowest(adj[a] & layer) else {
            return false;
        };
        a = next;
    }
    true
}

/// Writes 1 as the count of each atom of the set: from the top one path leads to the top.
pub fn ones(counts: &mut [u64], s: u64)
    requires { 64 ≤ length counts.old }
    ensures { (t : ℕ) → bit s t ≡ 1 → get_or counts.new t 0 ≡ 1 }
{
    for t in atoms::each(s) {
        counts[t] = 1;
    }
}

/// The number of paths from atom `t` of layer `e` + 1, as the sum of those from its neighbours in layer `e`.
fn total(adj: &[u64], layers: &[u64], counts: &[u64], e: usize, t: usize) -> u64
    requires t_bound { t < 64 }
    requires t_value { bit (get_or layers.now (e + 1) 0) t ≡ 1 }
    requires sized { Sized adj.now layers.now counts.now (e + 1) }
    requires disjoint { Disjoint layers.now (e + 1) }
    requires table { Table adj.now layers.now e counts.now }
    ensures { result ≡ ways (net adj.now []) layers.now (e + 1) t }
{
    let mut sum: u64 = 0;
    for s in atoms::each(adj[t] & layers[e]) {
        sum += counts[s];
    }
    sum
}

/// Takes the table from layer `e` to layer `e` + 1.
pub fn fill(adj: &[u64], layers: &[u64], counts: &mut [u64], e: usize)
    requires sized { Sized adj.now layers.now counts.old (e + 1) }
    requires disjoint { Disjoint layers.now (e + 1) }
    requires table { Table adj.now layers.now e counts.old }
    ensures next_table { Table adj.now layers.now (e + 1) counts.new }
    ensures others { Others (get_or layers.now (e + 1) 0) counts.old counts.new }
{
    for t in atoms::each(layers[e + 1]) {
        counts[t] = total(adj, layers, counts, e, t);
    }
}

/// How many paths lead to the top from `p` and from `q`, both of layer `d`: the counts of each layer from those of the layer before.
fn tabled(
    adj: &[u64],
    layers: &[u64],
    counts: &mut [u64],
    d: usize,
    p: usize,
    q: usize,
) -> PathCounts
    requires sized { Sized adj.now layers.now counts.old d }
    requires disjoint { Disjoint layers.now d }
    requires p_value { bit (get_or layers.now d 0) p ≡ 1 }
    requires q_value { bit (get_or layers.now d 0) q ≡ 1 }
    ensures { Counted adj.now layers.now d p q result }
{
    ones(counts, layers[0]);
    for e in 0..d {
        fill(adj, layers, counts, e);
    }
    PathCounts {
        from_p: counts[p],
        from_q: counts[q],
    }
}

/// How many paths lead to the top from `p` and from `q`, both of layer `d`: one each, most often, and else by a table for which `counts` is room.
pub fn ways(
    adj: &[u64],
    layers: &[u64],
    counts: &mut [u64],
    d: usize,
    p: usize,
    q: usize,
) -> PathCounts
    requires sized { Sized adj.now layers.now counts.old d }
    requires disjoint { Disjoint layers.now d }
    requires p_value { bit (get_or layers.now d 0) p ≡ 1 }
    requires q_value { bit (get_or layers.now d 0) q ≡ 1 }
    ensures { Counted adj.now layers.now d p q result }
{
    if lone(adj, layers, d, p) && lone(adj, layers, d, q) {
        return PathCounts {
            from_p: 1,
            from_q: 1,
        };
    }
    tabled(adj, layers, counts, d, p, q)
}

/// The count with `a` times `b` rings more: none once there are more than a word can say.
#[tactic(auto, using(crate::proofs::Added::added_past, crate::proofs::Added::added_some), unfolding(crate::specs::Counts::added))]
pub fn add(count: Option<u64>, a: u64, b: u64) -> Option<u64>
    ensures { result ≡ added (2 ^ 64 - 1) count (a * b) }
{
    let size = a.checked_mul(b)?;
    count?.checked_add(size)
}
