//! Searches from an atom through the compound, one distance after the other.
//!
//! A search tells whether all atoms hang together, and which atoms stand under a top atom at each distance. Each function promises what the
//! plan in `model` computes, and nothing of how: the inside of a search may change and no caller notices.

#![tactic(auto)]

ghost use Rattle.std.specs.Prelude.{◌≡◌, ◌-◌, ◌^◌, ◌<◌, ◌≤◌, eqb, length};
ghost use Rattle.model.specs.Layer.{wave, layers_into};
ghost use Rattle.atoms.specs.Nets.{neighbours};
ghost use Rattle.search.specs.Search.{Ready, Goes};

mod queue;

use queue::Queue;

/// The atoms that a search from atom 0 sees within `n` steps.
fn reached(n: usize, adj: &[u64]) -> u64
    requires { 64 ≤ length adj.now }
    ensures { result ≡ (wave (neighbours adj.now) 0 0 n).seen }
{
    let mut seen: u64 = 1;
    let mut front: u64 = 1;
    for _ in 0..n {
        if front == 0 {
            return seen;
        }
        front = atoms::near(adj, front) & !seen;
        seen |= front;
    }
    seen
}

/// Whether the compound is in one piece: a search from atom 0 sees all its atoms.
pub fn in_one_piece(n: usize, adj: &[u64]) -> bool
    requires n_nonzero { 0 < n }
    requires n_bound { n ≤ 64 }
    requires in_bounds { 64 ≤ length adj.now }
    ensures { result ≡ eqb (wave (neighbours adj.now) 0 0 n).seen (2 ^ n - 1) }
{
    let all = u64::MAX >> (64 - n);
    reached(n, adj) == all
}

/// A search under way, at some distance from its start.
#[derive(Clone, Copy)]
pub struct Search {
    /// All atoms up to that distance.
    pub seen: u64,
    /// The atoms one step further that are under the start.
    pub under: u64,
    /// The atoms seen, those at that distance last.
    pub queue: Queue,
}

impl Search {
    /// One distance further; beyond a distance with no atom under the start there is none, and nothing is done.
    fn next(&mut self, adj: &[u64], pre: u64)
        requires in_bounds { 64 ≤ length adj.now }
        requires ready { 0 < self.old.under → Ready self.old }
        ensures { Goes (neighbours adj.now) pre self.old self.new }
    {
        if self.under == 0 {
            return;
        }
        let new = self.queue.beside(adj) & !self.seen;
        self.seen |= new;
        self.under = atoms::near(adj, self.under) & pre & !self.seen;
        self.queue.append(new);
    }
}

/// Writes the layers 0 to `depth` under `r`: the atoms at each distance from `r` that are under it, where only the atoms `pre` precede `r`.
/// An atom of a layer is bonded to one of the layer before and not seen nearer, so the atoms at the last distance are not looked for.
pub fn layers(adj: &[u64], pre: u64, r: usize, depth: usize, layers: &mut [u64])
    requires r_bound { r < 64 }
    requires in_bounds { 64 ≤ length adj.now }
    requires depth_in_bounds { depth < length layers.old }
    ensures { layers.new ≡ layers_into (neighbours adj.now) pre r depth layers.old }
{
    let start = 1u64 << r;
    layers[0] = start;
    if depth == 0 {
        return;
    }
    let under = adj[r] & pre & !start;
    layers[1] = under;
    let mut search = Search {
        seen: start,
        under,
        queue: Queue::of(r),
    };
    for d in 1..depth {
        search.next(adj, pre);
        layers[d + 1] = search.under;
    }
}
