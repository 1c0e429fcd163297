//! All top atoms of a length, all lengths, and their classes.
ghost use Rattle.std.specs.Prelude.{◌≡◌, ◌<◌, ◌≤◌, length};
ghost use Rattle.model.specs.Net.{preceding};
ghost use Rattle.model.specs.Layer.{layers_into};
ghost use Rattle.model.specs.Loops.{tops as tops_of};
ghost use Rattle.atoms.specs.Nets.{neighbours};
ghost use Rattle.candidates.specs.Nets.{lent_graph};
ghost use Rattle.candidates.specs.Going.{Place};
ghost use Rattle.engine.specs.Lengths.{Runs};

use crate::Found;
use atoms::View;
use candidates::Going;
use ledger::Ledger;

/// What a run is given: a compound, its top atoms, how many rings make a basis, and the first row whose size is asked for.
#[derive(Clone, Copy)]
struct Task<'a> {
    /// The compound.
    net: View<'a>,
    /// The atoms that can be top atoms.
    tops: u64,
    /// The cyclomatic number: once so many rings are marked, no more are.
    full: usize,
    /// The first row whose size is asked for.
    from: usize,
    ghost all_tops: { tops ≡ tops_of (lent_graph net) preceding },
}

/// Writes the layers 0 to `depth` under `r`.
fn lay(adj: &[u64], r: usize, depth: usize, layers: &mut [u64])
    requires in_bounds { 64 ≤ length adj.now }
    requires r_bound { r < 64 }
    requires depth_in_bounds { depth < length layers.old }
    ensures written { layers.new ≡ layers_into (neighbours adj.now) (preceding r) r depth layers.old }
    ensures place { Place layers.new depth }
{
    search::layers(adj, atoms::preceding(r), r, depth, layers);
}

/// A run under way.
#[derive(Drop)]
struct Running {
    /// The layers as they were last written.
    layers: [u64; 33],
    /// What has been counted.
    going: Going,
}

impl Running {
    ghost use Rattle.engine.specs.Lengths.{round_by, running_of};

    /// All candidates of length `k`, one top atom after the other, the layers under it first; then the classes of the length.
    /// Nothing once the basis is full.
    #[tactic(auto, using(bondset::proofs::Members::first_lt))]
    fn round(&mut self, task: &Task, out: &mut [u8], table: &mut [u8], sizes: &mut [u64], k: usize)
        requires le_k { 3 ≤ k }
        requires k_bound { k ≤ 64 }
        ensures { running_of self.new out.new table.new sizes.new
            ≡ round_by (lent_graph task.now.net) task.now.from task.now.full k (running_of self.old out.old table.old sizes.old) }
    {
        if self.going.ledger.classes.tally.marks >= task.full {
            return;
        }
        let first = self.going.ledger.classes.tally.families;
        for r in atoms::each(task.tops) {
            lay(task.net.adj, r, k / 2, &mut self.layers);
            self.going
                .seek(task.net, &self.layers, out, sizes, task.from, k, r);
        }
        self.going.ledger.settle(out, table, k, first);
    }
}

/// All lengths of a compound, from nothing, until `full` rings are marked: family rows into `out`, class rows into `table`, and the sizes of
/// the families from row `from` on into `sizes`.
pub fn run(
    net: View,
    full: usize,
    from: usize,
    out: &mut [u8],
    table: &mut [u8],
    sizes: &mut [u64],
) -> Found
    ensures { Runs (lent_graph net.entry) from full out.old table.old sizes.old
        result out.new table.new sizes.new }
{
    let task = Task {
        net,
        tops: net.tops(),
        full,
        from,
    };
    let mut running = Running {
        layers: [0; 33],
        going: Going {
            ledger: Ledger::new(),
            counts: [0; 64],
            rings: Some(0),
        },
    };
    for k in 3..=net.n {
        running.round(&task, out, table, sizes, k);
    }
    let tally = running.going.ledger.classes.tally;
    Found {
        marks: tally.marks,
        short: tally.short,
        families: tally.families,
        classes: tally.classes,
        total: tally.total,
        rings: running.going.rings,
    }
}
