//! The engine's ledger: marked rings, labels, family rows and class rows as they are entered.
//!
//! A kept prototype is marked or joined to a class by `enter`, and `settle` numbers the classes of a length. Family rows and class rows are lent.
//! How labels are joined stands in `labels`, and how rows are written in `rows`.
//!
//! Promises: the ledger becomes exactly what the definitions in `specs/Ledger.antt` say, and stays within its room of 82 marked rings.
//! Rows that do not fit the lent buffers are counted and not written.

#![tactic(auto)]

ghost use Rattle.std.specs.Prelude.{◌≡◌, ℕ, List, ◌+◌, ◌*◌, ◌<◌, ◌≤◌, ◌≢◌};
ghost use Rattle.bondset.specs.Sets.{value};
ghost use Rattle.bondset.specs.Rows.{flat};
ghost use Rattle.bondset.specs.Index.{Indexed};
ghost use Rattle.bondset.specs.Found.{Indexed-prop};
ghost use Rattle.labels.specs.Labelled.{Labelled};
ghost use Rattle.ledger.specs.Ledger.{unmarked, held};
ghost use Rattle.std.proofs.Props.{props};

use bondset::indexed::Rows;
use bondset::reduction::Reduced;
use bondset::{BondSet, WordSet};
use rows::Family;

/// What has been counted so far.
#[derive(Clone, Copy)]
pub struct Tally {
    /// The marked rings.
    pub marks: usize,
    /// The marked rings shorter than the length in hand.
    pub short: usize,
    /// The kept families, modulo 2^64.
    pub families: usize,
    /// The numbered classes.
    pub classes: usize,
    /// The total length of the marked rings.
    pub total: u64,
    // There is room for 82 marked rings, of at most 64 bonds each, and a class is one of shorter marked rings.
    pub ghost marks_fit: { marks ≤ 82 },
    pub ghost short_fit: { short ≤ marks },
    pub ghost classes_fit: { classes ≤ short },
    pub ghost total_fit: { total ≤ 64 * marks },
}

/// The classes of the marked rings, as far as they are joined.
#[derive(Clone, Copy)]
pub struct Classes {
    /// For each marked ring of the length in hand the first marked ring of its class, for a shorter one its class.
    pub labels: [u8; 82],
    /// For each marked ring how many families name it, modulo 2^64.
    pub holds: [u64; 82],
    /// What has been counted.
    pub tally: Tally,
    // Each label names a marked ring or a class.
    pub ghost labelled: { Labelled labels } by { Prim.hlevel props },
}

/// One family more names marked ring `j`, if there is such a ring.
fn hold(holds: &mut [u64; 82], j: usize)
    ensures { holds.new ≡ held holds.old j }
{
    if j < 82 {
        holds[j] = holds[j].wrapping_add(1);
    }
}

impl Classes {
    ghost use Rattle.ledger.specs.Held.{MarksAlone, Sums, Settles};

    /// Enters one more marked ring, which is a class by itself.
    fn mark(&mut self, out: &mut [u8], f: Family)
        requires { self.old.tally.marks < 82 }
        ensures marked { MarksAlone f self.old out.old self.new out.new }
        ensures marks_grown { self.new.tally.marks ≡ self.old.tally.marks + 1 }
    {
        let j = self.tally.marks;
        self.labels[j] = j as u8;
        self.holds[j] = 1;
        f.put_family(out, self.tally.families, 1, j);
        self.tally.marks = j + 1;
        self.tally.families = self.tally.families.wrapping_add(1);
        self.tally.total += f.k as u64;
    }

    /// Enters a kept prototype that is the sum of marked ones: `s` names those of its own length.
    fn sum_up(&mut self, out: &mut [u8], f: Family, s: BondSet)
        ensures sums { Sums f (value s) self.old out.old self.new out.new }
        ensures marks_kept { self.new.tally.marks ≡ self.old.tally.marks }
    {
        let j = s.lowest();
        labels::join(&mut self.labels, self.tally.short, self.tally.marks, s);
        hold(&mut self.holds, j);
        f.put_family(out, self.tally.families, 0, j);
        self.tally.families = self.tally.families.wrapping_add(1);
    }

    /// Ends length `k`, of which `first` families were kept before: its classes are numbered, and its family rows name them.
    pub fn settle(&mut self, out: &mut [u8], table: &mut [u8], k: usize, first: usize)
        requires { k < 256 }
        ensures settles { Settles k first self.old out.old table.old self.new out.new table.new }
        ensures marks_kept { self.new.tally.marks ≡ self.old.tally.marks }
    {
        let t = self.tally;
        let classes = rows::number(
            &mut self.labels,
            &self.holds,
            table,
            k,
            t.short,
            t.marks,
            t.classes,
        );
        self.tally.short = t.marks;
        self.tally.classes = classes;
        rows::patch(&self.labels, out, first, t.families);
    }
}

/// The marked rings: their rows and their classes.
#[derive(Clone, Copy)]
pub struct Ledger {
    /// The rows of the marked rings, whose tags name the marked rings of which each row is the sum.
    pub basis: Rows<82>,
    /// Their classes.
    pub classes: Classes,
    // Each marked ring has its row, and the rows are found by their index.
    pub ghost counted: { basis.count ≡ classes.tally.marks },
    pub ghost indexed: { Indexed (flat basis.rows) basis.pivots basis.place
        (value basis.index.fresh) (value basis.index.late) (value basis.index.all) basis.count } by { Indexed-prop _ _ _ _ _ _ _ },
}

impl Ledger {
    ghost use Rattle.ledger.specs.Held.{ledger_of, Lacks, Leaves, Marks, Enters, Ends};

    /// No ring is marked.
    pub fn new() -> Ledger
        ensures { (out table : List ℕ) → ledger_of result out table ≡ unmarked out table }
    {
        Ledger {
            basis: Rows::new(),
            classes: Classes {
                labels: [0; 82],
                holds: [0; 82],
                tally: Tally {
                    marks: 0,
                    short: 0,
                    families: 0,
                    classes: 0,
                    total: 0,
                },
            },
        }
    }

    /// Reduces a ring by the shorter marked rings.
    pub fn reduce(&self, ring: BondSet) -> Reduced
        ensures { Leaves self.now (value ring) (value result.rest) (value result.used) }
    {
        let v = Reduced {
            rest: ring,
            used: BondSet::empty(),
        };
        self.basis.reduce(0, self.classes.tally.short, v)
    }

    /// Enters a kept prototype that is no sum of marked ones, as one more marked ring: `v` is what its reduction left.
    fn mark(&mut self, out: &mut [u8], f: Family, v: Reduced)
        requires marks_bound { self.old.classes.tally.marks < 82 }
        requires lacks { Lacks self.old.basis.pivots self.old.classes.tally.marks (value v.rest) }
        requires rest_nonzero { value v.rest ≢ 0 }
        ensures { Marks f (value v.rest) (value v.used) self.old out.old self.new out.new }
    {
        let Ledger { basis, classes } = self;
        basis.push(v);
        classes.mark(out, f);
    }

    /// Enters a kept prototype: `v` is what the shorter marked rings left of it.
    pub fn enter(&mut self, out: &mut [u8], f: Family, v: Reduced)
        requires { Lacks self.old.basis.pivots self.old.classes.tally.short (value v.rest) }
        ensures { Enters f (value v.rest) (value v.used) self.old out.old self.new out.new }
    {
        let w = self
            .basis
            .reduce(self.classes.tally.short, self.classes.tally.marks, v);
        if w.rest.is_empty() {
            let s = w.used.since(self.classes.tally.short);
            self.classes.sum_up(out, f, s);
        } else if self.classes.tally.marks < 82 {
            self.mark(out, f, w);
        }
    }

    /// Ends length `k`, of which `first` families were kept before.
    pub fn settle(&mut self, out: &mut [u8], table: &mut [u8], k: usize, first: usize)
        requires { k < 256 }
        ensures { Ends k first self.old out.old table.old self.new out.new table.new }
    {
        self.classes.settle(out, table, k, first);
    }
}
