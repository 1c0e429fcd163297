//! The engine's calls for callers that keep their bonds as records of two atom numbers: the same answer as the byte form's
//! on the bytes of the records, one record after the other.
//!
//! The records are copied into an array of bytes, and the byte form is lent of it what it is to read. No call asks anything of its caller.

#![tactic(auto)]

ghost use Rattle.std.specs.Prelude.{◌≡◌, ◌/◌, ◌≤◌, length};
ghost use Rattle.answers.specs.Answered.{Answered, AnsweredFirst};
ghost use Rattle.rings.specs.Calls.{told, told_sized};
ghost use Rattle.records.specs.Records.{flattened, laid, lent_bytes};

use rings::{Answer, Refusal, Sized};

/// A bond as a record of the numbers of its two atoms; either may come first.
#[repr(C)]
#[derive(Clone, Copy)]
pub struct Bond {
    /// The number of one atom.
    pub a: u8,
    /// The number of the other.
    pub b: u8,
}

/// How many bytes the byte form is lent for so many records: two for each, and 1, which it refuses, for more than 96.
pub fn lent(count: usize) -> usize
    ensures counted { result ≡ lent_bytes count }
    ensures few { result ≤ 192 }
{
    if 96 < count { 1 } else { 2 * count }
}

/// The bytes of the records, and zeros after them; zeros alone where there are more than 96 records.
pub fn copied(bonds: &[Bond]) -> [u8; 192]
    ensures { result ≡ laid bonds.now (lent_bytes (length bonds.now) / 2) }
{
    let mut all = [0u8; 192];
    for (k, bond) in bonds[..lent(bonds.len()) / 2].iter().enumerate() {
        all[2 * k] = bond.a;
        all[2 * k + 1] = bond.b;
    }
    all
}

/// The ring families of a compound of `n` atoms, whose bonds are lent as records.
pub fn families_of(
    n: usize,
    bonds: &[Bond],
    family_rows: &mut [u8],
    class_rows: &mut [u8],
) -> Answer
    ensures { AnsweredFirst n (flattened bonds.now) family_rows.old class_rows.old (told result)
        family_rows.new class_rows.new }
{
    let all = copied(bonds);
    rings::families(n, &all[..lent(bonds.len())], family_rows, class_rows)
}

/// The same, and the size of the family of a row.
pub fn family_size_of(
    n: usize,
    bonds: &[Bond],
    family_rows: &mut [u8],
    class_rows: &mut [u8],
    row: usize,
) -> Result<Sized, Refusal>
    ensures { Answered n (flattened bonds.now) family_rows.old class_rows.old row (told_sized result)
        family_rows.new class_rows.new }
{
    let all = copied(bonds);
    rings::family_size(n, &all[..lent(bonds.len())], family_rows, class_rows, row)
}
