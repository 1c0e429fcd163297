//! Compounds of the largest size.

use crate::line::{Call, ROOM, run};
use std::io;

// 65 atoms in a path: bond k joins k and k + 1.
fn path() -> [[u8; 2]; 64] {
    let mut bonds = [[0u8; 2]; 64];
    for (k, bond) in (0u8..).zip(&mut bonds) {
        *bond = [k, k + 1];
    }
    bonds
}

// A bond of the prism of 64 atoms and 96 bonds: the rings 0 to 31 and 32 to 63, and a bond from k to 32 + k. A 97th bond joins 0 and 2.
fn prism_bond(k: u8) -> [u8; 2] {
    match k {
        0..=31 => [k, (k + 1) % 32],
        32..=63 => [k, 32 + (k + 1) % 32],
        64..=95 => [k - 64, k - 32],
        _ => [0, 2],
    }
}

// The prism's bonds. What making them takes of the stack is free again when the case runs.
#[inline(never)]
fn prism() -> [[u8; 2]; 97] {
    let mut bonds = [[0u8; 2]; 97];
    for (k, bond) in (0u8..).zip(&mut bonds) {
        *bond = prism_bond(k);
    }
    bonds
}

/// Runs a case of n atoms on so many bytes of the path's bonds, with room for all rows.
pub fn path_of(rt: &impl Print, name: &str, n: usize, bytes: usize) -> io::Result<()> {
    let path = path();
    let Some(bonds) = path.as_flattened().get(..bytes) else {
        return Ok(());
    };
    run(
        rt,
        name,
        Call {
            n,
            bonds,
            row_bytes: ROOM,
            class_bytes: ROOM,
        },
    )
}

/// Runs a case of 64 atoms on so many bytes of the prism's bonds. Its bonds are on the stack in this case alone.
#[inline(never)]
pub fn prism_of(
    rt: &impl Print,
    name: &str,
    bytes: usize,
    row_bytes: usize,
    class_bytes: usize,
) -> io::Result<()> {
    let prism = prism();
    let Some(bonds) = prism.as_flattened().get(..bytes) else {
        return Ok(());
    };
    run(
        rt,
        name,
        Call {
            n: 64,
            bonds,
            row_bytes,
            class_bytes,
        },
    )
}
