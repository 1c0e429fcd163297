//! The candidates of one length under one top atom, one after the other in the order of the rows.
ghost use Rattle.std.specs.Prelude.{◌≡◌, [], ◌/◌, ◌<◌, ◌≤◌, length};
ghost use Rattle.bondset.specs.Sets.{members};

/// The candidates still to come, each with its p, its q, and its x if the length is even: those with this x and this p and a q of `qs`, then
/// those with this x and a p of `ps`, whose partners are in `all`, and then those with an x of `xs`.
#[derive(Clone, Copy)]
pub struct Cursor<'a> {
    /// The neighbours of each atom.
    pub adj: &'a [u64],
    /// The layer of p and q, if the length is even.
    pub below: u64,
    /// The atoms x to come.
    pub xs: u64,
    /// All atoms p and q for the x in hand.
    pub all: u64,
    /// The atoms p to come.
    pub ps: u64,
    /// The atoms q to come.
    pub qs: u64,
    /// The x in hand: none if the length is odd, and before the first one.
    pub x: Option<usize>,
    /// The p in hand.
    pub p: usize,
    pub ghost long: { 64 ≤ length adj.now },
}

impl<'a> Cursor<'a> {
    ghost use Rattle.candidates.specs.Cursor.{Firsts};

    /// Before the first candidate of length `k`: for odd lengths the layer at half the length has p and q, for even ones x.
    pub fn first(adj: &'a [u64], layers: &[u64], k: usize) -> Cursor<'a>
        requires le_k { 3 ≤ k }
        requires in_bounds { 64 ≤ length adj.now }
        requires k_in_bounds { k / 2 < length layers.now }
        ensures { Firsts adj.now layers.now k result }
    {
        let layer = layers[k / 2];
        let below = layers[(k - 1) / 2];
        let (xs, ps) = if k % 2 == 1 { (0, layer) } else { (layer, 0) };
        Cursor {
            adj,
            below,
            xs,
            all: ps,
            ps,
            qs: 0,
            x: None,
            p: 0,
        }
    }
}

impl Cursor<'_> {
    ghost use Rattle.candidates.specs.Cursor.{partners_in, Moves};

    /// The partners q of `p`: those above it, and bonded to it if there is no atom x between them.
    fn partners(&self, p: usize) -> u64
        requires { p < 64 }
        ensures { result ≡ partners_in self.now.adj.now self.now.all self.now.x p }
    {
        let above = atoms::above(self.all, p);
        match self.x {
            Some(_) => above,
            None => above & self.adj[p],
        }
    }

    /// On to the next p, or with no p left to the next x; nothing if neither is left.
    fn step(&mut self) -> Option<()>
        requires { members 64 self.old.qs ≡ [] }
        ensures { Moves self.old result self.new }
    {
        if let Some((p, ps)) = bondset::split_lowest(self.ps) {
            self.p = p;
            self.ps = ps;
            self.qs = self.partners(p);
        } else {
            let (x, xs) = bondset::split_lowest(self.xs)?;
            self.x = Some(x);
            self.xs = xs;
            self.all = self.adj[x] & self.below;
            self.ps = self.all;
        }
        Some(())
    }
}

impl Iterator for Cursor<'_> {
    ghost use Rattle.std.specs.Iterator.{YieldsFirst, item_count};
    ghost use Rattle.candidates.specs.Cursor.{ahead};

    type Item = (usize, usize, Option<usize>);

    ghost next_gives = { YieldsFirst ahead };

    ghost remaining = { item_count ahead };

    fn next(&mut self) -> Option<(usize, usize, Option<usize>)> {
        loop {
            if let Some((q, qs)) = bondset::split_lowest(self.qs) {
                self.qs = qs;
                return Some((self.p, q, self.x));
            }
            self.step()?;
        }
    }
}
