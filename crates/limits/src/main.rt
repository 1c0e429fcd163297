//! Run cases of the engine: the limits of its input and of the lent buffers, and the order of the refusals.
//!
//! Each case prints one line, whose name gives the reason for the answer. What it must print follows from the scope document, and
//! stands in `stdout`: no line was taken from a run.
//!
//! Refusal 9 has no case, because no input reaches it. After refusal 7 there are at most 4,096 families. The members of a kept family are the
//! pairs of a path from p and a path from q, and no path from p meets one from q but in r. Each path takes one atom of each layer, so the members
//! are at most the product of the numbers of atoms in each layer, on p's side and on q's side. These numbers sum to at most 63, so their
//! product is at most 3^21, and 4,096 times that is less than 2^46.

#![tactic(auto)]

mod large;
mod line;
mod small;

use std::io;

// Refusal 1: "n is 0 or above 64".
fn atoms(rt: &impl Print) -> io::Result<()> {
    small::all(rt, "no atom|0 512 512~1 atom, no byte lent|1 000 000~")?;
    large::path_of(rt, "64 atoms in a path", 64, 126)?;
    large::path_of(rt, "65 atoms in a path", 65, 128)?;
    large::path_of(rt, "18446744073709551615 atoms", usize::MAX, 0)
}

// Refusal 2: "bond bytes are odd in number, or there are more than 96 bonds".
fn bond_bytes(rt: &impl Print) -> io::Result<()> {
    small::all(rt, "1 bond byte|2 512 512 0~3 bond bytes|2 512 512 01 0~")?;
    large::prism_of(rt, "96 bonds and 1 bond byte", 193, 512, 512)?;
    large::prism_of(rt, "97 bonds", 194, 512, 512)
}

// 96 bonds pass. The prism has the cyclomatic number 96 - 64 + 1 = 33. Its relevant rings are the 32 four-rings, which are independent, and the two
// rings of 32 atoms: each is the other plus all four-rings, so one of the two is in a minimum basis. The total length is 32 · 4 + 32 = 160, and
// the classes are 32 of one four-ring and one of two rings.
fn prism(rt: &impl Print) -> io::Result<()> {
    large::prism_of(rt, "96 bonds", 192, 272, 165)?;
    large::prism_of(rt, "96 bonds, 271 row bytes", 192, 271, 165)?;
    large::prism_of(rt, "96 bonds, 164 class bytes", 192, 272, 164)
}

// Refusals 3 to 6: the atoms that bonds name, loops, repeated bonds, pieces.
fn joined(rt: &impl Print) -> io::Result<()> {
    small::all(
        rt,
        "bond 2 names atom 2 of 3|3 512 512 01 12 02~\
         bond 2 names atom 3 of 3|3 512 512 01 12 03~\
         bond 2 names atom 3 of 3, turned round|3 512 512 01 12 30~\
         bond 0 names atom 1 of 1|1 512 512 01~\
         bond 0 joins the only atom to itself|1 512 512 00~\
         bond 1 joins atom 1 to itself|2 512 512 01 11~\
         bond 1 repeats bond 0|2 512 512 01 01~\
         bond 1 repeats bond 0, turned round|2 512 512 01 10~\
         bond 3 repeats bond 1, turned round|3 512 512 01 12 02 21~\
         2 atoms and no bond|2 512 512~\
         two triangles apart|6 512 512 01 12 02 34 45 35~\
         two triangles that share an atom|5 512 512 01 12 02 23 34 24~",
    )?;
    large::path_of(rt, "bond 62 names atom 63 of 63", 63, 126)?;
    large::path_of(rt, "63 atoms in a path and 1 apart", 64, 124)
}

// Refusals 7 and 8: case F has 3 families of 8 bytes in one class of 5.
fn lent(rt: &impl Print) -> io::Result<()> {
    small::all(
        rt,
        "case F, 24 row bytes|8 024 410 02 23 31 04 45 51 06 67 71~\
         case F, 23 row bytes|8 023 410 02 23 31 04 45 51 06 67 71~\
         case F, 31 row bytes|8 031 410 02 23 31 04 45 51 06 67 71~\
         case F, 5 class bytes|8 512 005 02 23 31 04 45 51 06 67 71~\
         case F, 4 class bytes|8 512 004 02 23 31 04 45 51 06 67 71~\
         case F, 9 class bytes|8 512 009 02 23 31 04 45 51 06 67 71~",
    )
}

// "Order: .. 1, 2, then bond by bond 3, 4, 5, then 6, 7, 8": in each case all refusals that are named hold.
fn order(rt: &impl Print) -> io::Result<()> {
    small::all(
        rt,
        "1 before 2, no atom and 1 bond byte|0 512 512 0~\
         2 before 3, 3 bond bytes and bond 0 names atom 9 of 2|2 512 512 09 0~\
         3 before 4, bond 0 joins atom 2 of 2 to itself|2 512 512 22~\
         3 in bond 1 before 4 in bond 2|3 512 512 01 03 11~\
         4 in bond 1 before 3 in bond 2|3 512 512 01 11 03~\
         3 in bond 1 before 5 in bond 2|3 512 512 01 03 10~\
         5 in bond 1 before 3 in bond 2|3 512 512 01 10 03~\
         4 in bond 1 before 5 in bond 2|3 512 512 01 11 10~\
         5 in bond 1 before 4 in bond 2|3 512 512 01 10 11~\
         4 in bond 0 before 5 in bond 1, the same loop|2 512 512 11 11~\
         3 before 6, atoms 2 and 3 apart and bond 1 names atom 4 of 4|4 512 512 01 04~\
         4 before 6, atoms 2 and 3 apart and bond 1 a loop|4 512 512 01 11~\
         5 before 6, atoms 2 and 3 apart and bond 1 a repeated bond|4 512 512 01 10~\
         6 before 7 and 8, two triangles apart and no byte lent|6 000 000 01 12 02 34 45 35~\
         7 before 8, case F with 23 row bytes and 4 class bytes|8 023 004 02 23 31 04 45 51 06 67 71~",
    )
}

fn main(rt: HostRuntime) -> io::Result<()> {
    atoms(&rt)?;
    bond_bytes(&rt)?;
    prism(&rt)?;
    joined(&rt)?;
    lent(&rt)?;
    order(&rt)
}
