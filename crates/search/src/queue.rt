//! A queue of atoms, distance after distance, as a search finds them.
ghost use Rattle.std.specs.Prelude.{◌≡◌, ◌+◌, ◌≤◌, ◌<◌, ℕ, [], ◌∷◌, length, slice_index};
ghost use Rattle.bondset.specs.Sets.{length_to};
ghost use Rattle.atoms.specs.Nets.{neighbours};

/// The atoms that a search has found, in the order in which it found them.
#[derive(Clone, Copy)]
pub struct Queue {
    /// The atoms, and room for all others.
    atoms: [u8; 64],
    /// Where the atoms at the last distance begin.
    from: usize,
    /// Where they end, and the queue with them.
    end: usize,
    ghost in_order: { from ≤ end },
    ghost long: { length atoms ≡ 64 },
    ghost room: { end ≤ 64 },
    ghost named: { (i : ℕ) → slice_index atoms i < 64 },
}

impl Queue {
    ghost use Rattle.search.specs.Queue.{queued, Appended, beside};

    /// The queue of a search that stands at its start: `r` alone.
    pub fn of(r: usize) -> Queue
        requires { r < 64 }
        ensures ends { result.end ≡ 1 }
        ensures alone { queued result ≡ r ∷ [] }
    {
        let mut atoms = [0; 64];
        atoms[0] = r as u8;
        Queue {
            atoms,
            from: 0,
            end: 1,
        }
    }

    /// Appends the atoms of the set, as those of the next distance.
    pub fn append(&mut self, s: u64)
        requires { self.old.end + length_to 64 s ≤ 64 }
        ensures { Appended self.old s self.new }
    {
        // A local, as the compiler would write and read a field again beside each store into the array.
        let mut end = self.end;
        for t in atoms::each(s) {
            self.atoms[end] = t as u8;
            end += 1;
        }
        self.from = self.end;
        self.end = end;
    }

    /// All neighbours of the atoms at the last distance.
    pub fn beside(&self, adj: &[u64]) -> u64
        requires { 64 ≤ length adj.now }
        ensures { result ≡ beside (neighbours adj.now) self.now }
    {
        let mut all: u64 = 0;
        for &a in &self.atoms[self.from..self.end] {
            all |= adj[usize::from(a)];
        }
        all
    }
}
