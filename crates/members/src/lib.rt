//! The rings of a family, written out: the paths to the top counted, and listed by recursion on the distance.
//!
//! Promises: `rings` writes exactly the sets of `member_sets`, one after another, where there are places for all of them, and nothing where there
//! are not; `specs/Listed.antt` says which sets these are and in which order. No call of the archive uses it yet.

#![tactic(auto)]

ghost use Rattle.std.specs.Prelude.{◌≡◌, [], map, ◌+◌, ◌*◌, ◌<◌, ◌≤◌, length, drop, SomeIff};
ghost use Rattle.std.specs.Int.Bits.{bit_xor};
ghost use Rattle.bondset.specs.Bytes.{bytes_of, of_bytes};
ghost use Rattle.bondset.specs.Sets.{value};
ghost use Rattle.model.specs.Layer.{ways};
ghost use Rattle.paths.specs.Nets.{net as net_of};
ghost use Rattle.counting.specs.Counts.{Disjoint, Sized};
ghost use Rattle.members.specs.Listed.{Tables, placed, places_at, over, member_sets, set_of, Room, Listed, Counted, Told, Ends};

use atoms::Net;
use bondset::BondSet;

/// Fills the table of the numbers of paths to the top for the atoms of the layers 0 to `d`: those of layer `d` from those of the layer before.
pub fn count(adj: &[u64], layers: &[u64], counts: &mut [u64], d: usize)
    requires sized { Sized adj.now layers.now counts.old d }
    requires disjoint { Disjoint layers.now d }
    ensures { Tables adj.now layers.now d counts.new }
{
    if d == 0 {
        counting::ones(counts, layers[0]);
        return;
    }
    count(adj, layers, counts, d - 1);
    counting::fill(adj, layers, counts, d - 1);
}

/// Puts a set into a place.
fn put(rings: &mut [u8], j: usize, v: BondSet)
    requires { 12 * (j + 1) ≤ length rings.old }
    ensures { rings.new ≡ over rings.old (12 * j) (bytes_of 12 (value v)) }
{
    let from = 12 * j;
    v.to_bytes(&mut rings[from..]);
}

/// Adds a set to the set of place `from`, and puts the sum into place `to`.
fn mix(rings: &mut [u8], set: BondSet, from: usize, to: usize)
    requires from_in_bounds { 12 * (from + 1) ≤ length rings.old }
    requires to_le_from { to ≤ from }
    ensures { rings.new ≡ over rings.old (12 * to) (bytes_of 12 (bit_xor (value set) (of_bytes (drop (12 * from) rings.old)))) }
{
    let start = 12 * from;
    let sum = set.sum(BondSet::from_bytes(&rings[start..]));
    put(rings, to, sum);
}

/// Adds a set to the sets of `count` places from `from` on, and puts the sums into as many places from `at` on.
fn block(rings: &mut [u8], set: BondSet, from: usize, count: usize, at: usize)
    requires count_in_bounds { 12 * (from + count) ≤ length rings.old }
    requires at_le_from { at ≤ from }
    ensures { rings.new ≡ over rings.old (12 * at) (placed (map (bit_xor (value set)) (places_at rings.old from count))) }
{
    for j in 0..count {
        mix(rings, set, from + j, at + j);
    }
}

/// For each path from atom `t` to the top, with one atom of each of the `layers`, adds its bonds and those of the set `lo`, `hi` to the sets of
/// the last `count` places, and puts the sums one after another from place `at` on; answers the place behind them. The set is two
/// numbers and not a struct: a level of the recursion is to take little stack.
fn list(
    net: &Net,
    layers: &[u64],
    rings: &mut [u8],
    t: usize,
    lo: u64,
    hi: u64,
    count: usize,
    at: usize,
) -> usize
    requires t_bound { t < 64 }
    requires room { Room rings.old count at (ways (net_of net.now.adj []) layers.now (length layers.now) t) }
    ensures { Listed net.now.adj net.now.touch layers.now (length layers.now) t (set_of lo hi) count at rings.old rings.new result }
{
    let Some((&layer, nearer)) = layers.split_last() else {
        let from = rings.len() / 12 - count;
        block(rings, BondSet { lo, hi }, from, count, at);
        return at + count;
    };
    let mut next = at;
    for s in atoms::each(net.adj[t] & layer) {
        let set = BondSet { lo, hi }.sum(paths::bond(&net.touch, t, s));
        next = list(net, nearer, rings, s, set.lo, set.hi, count, next);
    }
    next
}

/// Writes the rings that `link` makes with the paths from `p` and the `b` paths from `q`, 12 bytes a ring, as many as there are places: the link
/// into the last place, with each path from `q` into the last `b` places, and these with each path from `p` into all places, the last `b` last.
fn write(net: &Net, layers: &[u64], rings: &mut [u8], p: usize, q: usize, link: BondSet, b: usize)
    requires p_bound { p < 64 }
    requires q_bound { q < 64 }
    requires counted { Counted net.now.adj layers.now rings.old (length layers.now) p q b }
    ensures { rings.new ≡ placed (member_sets (net_of net.now.adj net.now.touch) layers.now (length layers.now) p q (value link)) }
{
    let n = rings.len() / 12;
    if n == 0 {
        return;
    }
    put(rings, n - 1, link);
    list(net, layers, rings, q, 0, 0, 1, n - b);
    list(net, layers, rings, p, 0, 0, b, 0);
}

/// How many places `a` times `b` sets take, if there are so many.
fn enough(places: usize, a: usize, b: usize) -> Option<usize>
    ensures { SomeIff result (a * b ≤ places) (a * b) }
{
    let n = a.checked_mul(b)?;
    (n <= places).then_some(n)
}

/// Counts the rings that `link` makes with the paths from `p` and `q`, `d` steps below the top, and writes them into `rings`, 12 bytes a ring,
/// if there are places for all of them: answers how many, or nothing if there are fewer places, and then writes nothing. `counts` is room for
/// the counts.
pub fn rings(
    net: &Net,
    layers: &[u64],
    counts: &mut [u64],
    rings: &mut [u8],
    d: usize,
    p: usize,
    q: usize,
    link: BondSet,
) -> Option<u64>
    requires sized { Sized net.now.adj layers.now counts.old d }
    requires disjoint { Disjoint layers.now d }
    requires ends { Ends layers.now d p q }
    ensures { Told (member_sets (net_of net.now.adj net.now.touch) layers.now d p q (value link)) rings.old rings.new result }
{
    count(&net.adj, layers, counts, d);
    let b = counts[q] as usize;
    let n = enough(rings.len() / 12, counts[p] as usize, b)?;
    let end = 12 * n;
    write(net, &layers[..d], &mut rings[..end], p, q, link, b);
    Some(n as u64)
}
