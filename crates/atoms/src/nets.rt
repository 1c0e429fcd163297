//! A compound as the engine holds it.
ghost use Rattle.std.specs.Prelude.{◌≡◌, ◌<◌, ◌≤◌, length, replicate};
ghost use Rattle.model.specs.Net.{preceding};
ghost use Rattle.model.specs.Loops.{top_step, tops};
ghost use Rattle.atoms.specs.Nets.{neighbours, atoms};

/// A compound as its bonds are read: so many atoms, their neighbours, and the bonds at each.
#[derive(Clone, Copy)]
pub struct Net {
    /// The number of atoms.
    pub n: usize,
    /// The neighbours of each atom, as a set of atoms.
    pub adj: [u64; 64],
    /// The bonds at each atom, as a bond set: atom a has words 2a and 2a + 1.
    pub touch: [u64; 128],
    pub ghost few: { n ≤ 64 },
}

impl Net {
    /// So many atoms and no bond.
    pub fn bare(n: usize) -> Net
        requires { n ≤ 64 }
        ensures n_kept { result.n ≡ n }
        ensures no_neighbour { result.adj ≡ replicate 64 0 }
        ensures no_bond { result.touch ≡ replicate 128 0 }
    {
        Net {
            n,
            adj: [0; 64],
            touch: [0; 128],
        }
    }

    /// The net, lent.
    pub fn view(&self) -> View<'_>
        ensures n_kept { result.n ≡ self.now.n }
        ensures neighbours_kept { result.adj.now ≡ self.now.adj }
        ensures bonds_kept { result.touch.now ≡ self.now.touch }
    {
        View {
            n: self.n,
            adj: &self.adj,
            touch: &self.touch,
        }
    }

    /// The atoms that two or more neighbours precede: the only ones that can be top atoms.
    pub fn tops(&self) -> u64
        ensures { result ≡ tops (atoms self.now.n self.now.adj) preceding }
    {
        self.view().tops()
    }
}

/// A compound as its bonds are lent: a `Net`, or words of one that stand elsewhere, with others behind them or not.
#[derive(Clone, Copy)]
pub struct View<'a> {
    /// The number of atoms.
    pub n: usize,
    /// The neighbours of each atom, as a set of atoms.
    pub adj: &'a [u64],
    /// The bonds at each atom, as a bond set: atom a has words 2a and 2a + 1.
    pub touch: &'a [u64],
    pub ghost few: { n ≤ 64 },
    pub ghost adj_long: { 64 ≤ length adj.now },
    pub ghost touch_long: { 128 ≤ length touch.now },
}

impl View<'_> {
    // The set with `r` added if two or more neighbours of `r` precede it.
    fn top_step(&self, r: usize, acc: u64) -> u64
        requires { r < 64 }
        ensures { result ≡ top_step (neighbours self.now.adj.now) preceding r acc }
    {
        if crate::two(self.adj[r] & crate::preceding(r)) {
            return acc | (1u64 << r);
        }
        acc
    }

    /// The atoms that two or more neighbours precede: the only ones that can be top atoms.
    pub fn tops(&self) -> u64
        ensures { result ≡ tops (atoms self.now.n self.now.adj.now) preceding }
    {
        let mut all: u64 = 0;
        for r in 0..self.n {
            all = self.top_step(r, all);
        }
        all
    }
}
