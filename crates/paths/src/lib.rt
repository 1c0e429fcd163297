//! Chosen paths through the layers of atoms under a top atom.
//!
//! A compound stands in lent words: the neighbours of each atom as a set of atoms (`adj`, one word an atom), the bonds at each atom as a bond
//! set (`touch`, two words an atom), and the layers under a top atom (`layers`, one set of atoms a distance, the top first).
//!
//! Promises: the bond between two atoms, the link of a family and the bonds of two chosen paths walked in step are exactly what the engine's
//! plan in `model` says, for any such words. Paths that meet below the top give the empty set.

#![tactic(auto)]

ghost use Rattle.std.specs.Prelude.{◌≡◌, false, true, [], ℕ, ◌<◌, ◌≤◌, length, IfSome, MatchOption};
ghost use Rattle.std.specs.Int.Bits.{bit_xor};
ghost use Rattle.bondset.specs.Sets.{value};
ghost use Rattle.model.specs.Cross.{cross};
ghost use Rattle.model.specs.Net.{bond};
ghost use Rattle.model.specs.Layer.{walk};
ghost use Rattle.model.specs.State.{link};
ghost use Rattle.model.specs.Loops.{fam};
ghost use Rattle.paths.specs.Nets.{net, nearest, apart};

use bondset::BondSet;

/// The bond between two bonded atoms: the bonds at both.
pub fn bond(touch: &[u64], a: usize, b: usize) -> BondSet
    requires a_bound { a < 64 }
    requires b_bound { b < 64 }
    requires in_bounds { 128 ≤ length touch.now }
    ensures { value result ≡ bond (net [] touch.now) a b }
{
    bondset::row_at(touch, a).intersection(bondset::row_at(touch, b))
}

/// What closes the two paths of a family to a ring: the bond between `p` and `q`, or the path `p`, `x`, `q` if there is an atom `x` between them.
pub fn link(touch: &[u64], p: usize, q: usize, x: Option<usize>) -> BondSet
    requires p_bound { p < 64 }
    requires q_bound { q < 64 }
    requires x_bound { IfSome x (λ a. a < 64) }
    requires in_bounds { 128 ≤ length touch.now }
    ensures { (k t : ℕ) → value result ≡ link (net [] touch.now) (fam k t (cross x) p q) }
{
    match x {
        None => bond(touch, p, q),
        Some(x) => bond(touch, p, x).sum(bond(touch, x, q)),
    }
}

/// The lowest neighbour of atom `a` in a layer, if it has one there.
fn next(adj: &[u64], layer: u64, a: usize) -> Option<usize>
    requires a_bound { a < 64 }
    requires in_bounds { 64 ≤ length adj.now }
    ensures { MatchOption result (nearest adj.now layer a ≡ 64) (λ next. (next < 64) × (next ≡ nearest adj.now layer a)) }
{
    atoms::each(adj[a] & layer).next()
}

/// The next atoms of both paths, of layer `i`: none if one of the paths does not go on, or they meet below the top.
fn step(adj: &[u64], layer: u64, i: usize, a: usize, b: usize) -> Option<(usize, usize)>
    requires a_bound { a < 64 }
    requires b_bound { b < 64 }
    requires in_bounds { 64 ≤ length adj.now }
    ensures { MatchOption result (apart (nearest adj.now layer a) (nearest adj.now layer b) i ≡ false)
        (λ (a_next, b_next). (a_next ≡ nearest adj.now layer a) × (b_next ≡ nearest adj.now layer b) × (apart a_next b_next i ≡ true)) }
{
    let a_next = next(adj, layer, a)?;
    let b_next = next(adj, layer, b)?;
    (a_next != b_next || i == 0).then_some((a_next, b_next))
}

/// The ring so far with the next bond of either path.
fn longer(touch: &[u64], ring: BondSet, a: usize, a_next: usize, b: usize, b_next: usize) -> BondSet
    requires a_bound { a < 64 }
    requires a_next_bound { a_next < 64 }
    requires b_bound { b < 64 }
    requires b_next_bound { b_next < 64 }
    requires in_bounds { 128 ≤ length touch.now }
    ensures { value result ≡ bit_xor (bit_xor (value ring) (bond (net [] touch.now) a a_next)) (bond (net [] touch.now) b b_next) }
{
    ring.sum(bond(touch, a, a_next)).sum(bond(touch, b, b_next))
}

/// The chosen paths from `p` and `q`, `d` steps below the top, walked in step: their bonds added to `ring`, or the empty set if they meet
/// below the top, or one of them does not go on.
pub fn walk(
    adj: &[u64],
    touch: &[u64],
    layers: &[u64],
    d: usize,
    p: usize,
    q: usize,
    ring: BondSet,
) -> BondSet
    requires p_bound { p < 64 }
    requires q_bound { q < 64 }
    requires d_in_bounds { d ≤ length layers.now }
    requires in_bounds { 64 ≤ length adj.now }
    requires in_bounds_2 { 128 ≤ length touch.now }
    ensures { value result ≡ walk (net adj.now touch.now) layers.now d p q (value ring) }
{
    let mut a = p;
    let mut b = q;
    let mut sum = ring;
    for (i, &layer) in layers[..d].iter().enumerate().rev() {
        let Some((a_next, b_next)) = step(adj, layer, i, a, b) else {
            return BondSet::empty();
        };
        sum = longer(touch, sum, a, a_next, b, b_next);
        a = a_next;
        b = b_next;
    }
    sum
}
