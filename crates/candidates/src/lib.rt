//! The candidates of one length and one top atom, in the order of the rows: each is tried, and entered in the ledger if it is kept.
//!
//! What one candidate does to the ledger and the lent rows is exactly what the definitions of `specs/Engine.antt` say, which are those of the
//! plan in `model` over rows of bytes.

#![tactic(auto)]

ghost use Rattle.std.specs.Prelude.{◌≡◌, ◌/◌, ◌<◌, ◌≤◌, get_or};
ghost use Rattle.model.specs.Loops.{seek as seek_of};
ghost use Rattle.rows.specs.Values.{family_of};
ghost use Rattle.candidates.specs.Nets.{lent_graph};
ghost use Rattle.candidates.specs.Cursor.{Within};
ghost use Rattle.candidates.specs.Engine.{put_size, attempted};

use atoms::View;
use bondset::WordSet;
use cursor::Cursor;
use ledger::Ledger;
use rows::Family;

/// The cursor that passes the candidates.
pub mod cursor;

/// What has been counted so far.
#[derive(Clone, Copy)]
pub struct Going {
    /// The marked rings, and the counts of what is kept.
    pub ledger: Ledger,
    /// Room for counting paths.
    pub counts: [u64; 64],
    /// The number of rings: none if there are more than a word can say.
    pub rings: Option<u64>,
}

/// Stores the size of row `i` if it is one of those asked for, from row `from` on.
fn put_size(sizes: &mut [u64], from: usize, i: usize, size: u64)
    ensures { sizes.new ≡ put_size from i size sizes.old }
{
    let Some(j) = i.checked_sub(from) else {
        return;
    };
    if j < sizes.len() {
        sizes[j] = size;
    }
}

impl Going {
    ghost use Rattle.candidates.specs.Going.{Place, Tries};

    /// A candidate whose p and q are `d` steps below the top: kept, counted and entered if the shorter marked rings leave something of it.
    fn attempt(
        &mut self,
        net: View,
        layers: &[u64],
        out: &mut [u8],
        sizes: &mut [u64],
        from: usize,
        d: usize,
        f: Family,
    )
        requires place { Place layers.now d }
        requires within { Within (get_or layers.now d 0) (f.p, f.q, f.x) }
        ensures { Tries (attempted (lent_graph net.entry) from layers.now d (family_of f))
            self.old out.old sizes.old self.new out.new sizes.new }
    {
        let link = paths::link(net.touch, f.p, f.q, f.x);
        let ring = paths::walk(net.adj, net.touch, layers, d, f.p, f.q, link);
        let left = self.ledger.reduce(ring);
        if left.rest.is_empty() {
            return;
        }
        let ways = counting::ways(net.adj, layers, &mut self.counts, d, f.p, f.q);
        self.rings = counting::add(self.rings, ways.from_p, ways.from_q);
        let size = match self.rings {
            Some(_) => ways.from_p * ways.from_q,
            None => 0,
        };
        put_size(sizes, from, self.ledger.classes.tally.families, size);
        self.ledger.enter(out, f, left);
    }

    /// All candidates of length `k` with top atom `r`, whose layers are written down to half the length.
    pub fn seek(
        &mut self,
        net: View,
        layers: &[u64],
        out: &mut [u8],
        sizes: &mut [u64],
        from: usize,
        k: usize,
        r: usize,
    )
        requires le_k { 3 ≤ k }
        requires k_bound { k ≤ 64 }
        requires r_bound { r < 64 }
        requires place { Place layers.now (k / 2) }
        ensures { Tries (seek_of (lent_graph net.entry) (attempted (lent_graph net.entry) from) k r layers.now)
            self.old out.old sizes.old self.new out.new sizes.new }
    {
        let d = (k - 1) / 2;
        for (p, q, x) in Cursor::first(net.adj, layers, k) {
            let f = Family { k, r, p, q, x };
            self.attempt(net, layers, out, sizes, from, d, f);
        }
    }
}
