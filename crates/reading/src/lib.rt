//! Reading a compound's bonds, one after the other, into the neighbours and the bonds of each atom.
//!
//! Promises: the first bond that refusals 3 to 5 speak of is named, or there is none, and the net holds the neighbours and the bonds of
//! each atom as the bonds before it give them.

#![tactic(auto)]

ghost use Rattle.std.specs.Prelude.{◌≡◌, ◌+◌, ◌*◌, ◌/◌, ◌<◌, ◌≤◌, length, replicate};
ghost use Rattle.model.specs.Net.{near1, touch1};
ghost use Rattle.reading.specs.Reading.{compound, fault_of, fault_by, Reading};

use atoms::Net;
use bondset::{BondSet, WordSet};

/// The first bond that is not fine, by its number, and why.
#[derive(Clone, Copy, Debug, PartialEq, Eq)]
pub enum Fault {
    /// This bond names an atom that is not there.
    NoAtom(usize),
    /// This bond joins an atom to itself.
    Loop(usize),
    /// This bond joins two atoms that an earlier one joins.
    Again(usize),
}

/// Whether bond `k`, from `a` to `b`, is fine beside the bonds read so far.
fn judge(net: &Net, a: usize, b: usize, k: usize) -> Result<(), Fault>
    ensures { fault_of result ≡ fault_by net.now.n net.now.adj a b k }
{
    if a >= net.n || b >= net.n {
        return Err(Fault::NoAtom(k));
    }
    if a == b {
        return Err(Fault::Loop(k));
    }
    if net.adj[a].member(b) {
        return Err(Fault::Again(k));
    }
    Ok(())
}

/// Makes `b` a neighbour of `a`.
fn join(adj: &mut [u64], a: usize, b: usize)
    requires a_in_bounds { a < length adj.old }
    requires b_bound { b < 64 }
    ensures { adj.new ≡ near1 a b adj.old }
{
    adj[a] |= 1u64 << b;
}

/// Adds bond `k` to the bonds at `a`.
fn touch_at(touch: &mut [u64], a: usize, k: usize)
    requires { 2 * (a + 1) ≤ length touch.old }
    ensures { touch.new ≡ touch1 a k touch.old }
{
    let row = bondset::row_at(touch, a).sum(BondSet::single(k));
    bondset::put_row(touch, a, row);
}

/// Takes in bond `k`, from `a` to `b`.
fn add(net: &mut Net, a: usize, b: usize, k: usize)
    requires a_bound { a < 64 }
    requires b_bound { b < 64 }
    ensures n_kept { net.new.n ≡ net.old.n }
    ensures adj_after { net.new.adj ≡ near1 b a (near1 a b net.old.adj) }
    ensures touch_after { net.new.touch ≡ touch1 b k (touch1 a k net.old.touch) }
{
    join(&mut net.adj, a, b);
    join(&mut net.adj, b, a);
    touch_at(&mut net.touch, a, k);
    touch_at(&mut net.touch, b, k);
}

/// Reads bond after bond into a net that has none yet, up to the first bond that is not fine.
pub fn read(net: &mut Net, bytes: &[u8]) -> Result<(), Fault>
    requires bytes_len_bound { length bytes.now / 2 ≤ 96 }
    requires adj_value { net.old.adj ≡ replicate 64 0 }
    requires touch_value { net.old.touch ≡ replicate 128 0 }
    ensures n_kept { net.new.n ≡ net.old.n }
    ensures reading { Reading (compound net.old.n bytes.now) result net.new.adj net.new.touch }
{
    for (k, bond) in bytes.chunks_exact(2).enumerate() {
        let a = usize::from(bond[0]);
        let b = usize::from(bond[1]);
        judge(net, a, b, k)?;
        add(net, a, b, k);
    }
    Ok(())
}
