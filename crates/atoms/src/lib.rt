//! Sets of atoms as words, the neighbours of a set, which atoms precede another, and a compound as the engine holds it.
//!
//! Atom k is in a set if bit k of the word is 1. `above`, `two`, `near`, `preceding`, `Net::tops` and `View::tops` promise what the model of the
//! same name computes, for any words; `each` goes through the atoms of a set from the lowest on. That an atom precedes another is said in one
//! place, `preceding`, by the number of the atom.

#![tactic(auto)]

ghost use Rattle.std.specs.Prelude.{◌≡◌, ◌<◌, ◌≤◌, length};
ghost use Rattle.model.specs.Net.{near, preceding};
ghost use Rattle.model.specs.Loops.{above, two};
ghost use Rattle.atoms.specs.Nets.{neighbours};

use bondset::{Each, WordSet};

mod nets;

pub use nets::{Net, View};

/// The atoms of the set one by one.
pub fn each(s: u64) -> Each<u64>
    ensures { result.rest ≡ s }
{
    Each::of(s)
}

/// The atoms of the set above `p`.
pub fn above(s: u64, p: usize) -> u64
    requires { p < 64 }
    ensures { result ≡ above s p }
{
    if p == 63 {
        return 0;
    }
    (s >> (p + 1)) << (p + 1)
}

/// Whether the set has two atoms or more.
pub fn two(s: u64) -> bool
    ensures { result ≡ two s }
{
    0 < s.others()
}

/// All neighbours of the atoms of the set.
pub fn near(adj: &[u64], s: u64) -> u64
    requires { 64 ≤ length adj.now }
    ensures { result ≡ near (neighbours adj.now) s }
{
    let mut all: u64 = 0;
    for a in each(s) {
        all |= adj[a];
    }
    all
}

/// The atoms that precede `r`: the one place that says which.
pub fn preceding(r: usize) -> u64
    requires { r < 64 }
    ensures { result ≡ preceding r }
{
    (1u64 << r) - 1
}
