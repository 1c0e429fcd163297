//! The engine: all lengths and top atoms of a compound in order, into lent rows.
//!
//! Nothing is allocated. The loops compute exactly what the definitions of `specs/Lengths.antt` say, which are those of the
//! plan in `model` over rows of bytes; what a run leaves is the report of the compound, as much of it as there is room for.

#![tactic(auto)]

ghost use Rattle.std.specs.Prelude.{◌≡◌, ◌+◌, ◌-◌, ◌/◌, ◌≤◌, length};
ghost use Rattle.reading.specs.Reading.{compound};
ghost use Rattle.engine.specs.Reports.{Stands, Reports};

use atoms::Net;

/// The loops over lengths and top atoms.
pub mod lengths;

/// What a run found.
#[derive(Clone, Copy, Debug, PartialEq, Eq)]
pub struct Found {
    /// The marked rings.
    pub marks: usize,
    /// Those of them whose classes are numbered.
    pub short: usize,
    /// The kept families.
    pub families: usize,
    /// Their classes.
    pub classes: usize,
    /// The total length of the marked rings.
    pub total: u64,
    /// The number of rings: none if there are more than a word can say.
    pub rings: Option<u64>,
}

/// The cyclomatic number, of a compound in one piece.
pub fn cyclomatic(n: usize, bonds: &[u8]) -> usize
    requires { n ≤ length bonds.now / 2 + 1 }
    ensures { result ≡ length bonds.now / 2 + 1 - n }
{
    bonds.len() / 2 + 1 - n
}

/// Runs the engine on a compound, read into `net`: as many rows as there is room for go into `out` and `table`, and the sizes of the
/// families from row `from` on into `sizes`.
pub fn report(
    net: &Net,
    bonds: &[u8],
    from: usize,
    out: &mut [u8],
    table: &mut [u8],
    sizes: &mut [u64],
) -> Found
    requires { Stands (compound net.now.n bonds.now) net.now }
    ensures { Reports (compound net.now.n bonds.now) from out.old table.old sizes.old
        result out.new table.new sizes.new }
{
    let full = cyclomatic(net.n, bonds);
    lengths::run(net.view(), full, from, out, table, sizes)
}
