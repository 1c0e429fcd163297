//! Family rows and class rows as bytes in lent buffers, each written if there is room for it.
//!
//! While a length is in hand a family row names a marked ring in the place of its class. At the end of the length the classes are numbered,
//! their rows written, and the family rows patched to name them.
//!
//! Promises: the bytes are exactly those of the definitions in `specs/Rows.antt`. A family's numbers fit bytes by its type, and numbering asks
//! for a label and a count of families of each ring that it numbers, of which there are 82 at the most.

#![tactic(auto)]

ghost use Rattle.std.specs.Prelude.{◌≡◌, ◌+◌, ◌-◌, ◌*◌, ◌/◌, ◌<◌, ◌≤◌, min, length};
ghost use Rattle.std.specs.Option.{ForSome};
ghost use Rattle.model.specs.Cross.{cross};
ghost use Rattle.model.specs.Fold.{through, count};
ghost use Rattle.labels.specs.Labelled.{Labelled};
ghost use Rattle.rows.specs.Rows.{put_family, put_class, more_class, numbers_of, numbered_in, Numbered, patched};

/// A family: its length, its top atom and its atoms p, q, x.
#[derive(Clone, Copy)]
pub struct Family {
    /// The length.
    pub k: usize,
    /// The top atom.
    pub r: usize,
    /// The lower of the two atoms that the chosen paths start from.
    pub p: usize,
    /// The higher of the two.
    pub q: usize,
    /// The atom between p and q, if the length is even.
    pub x: Option<usize>,
    // A ring has at most 64 bonds, and each number fits its byte of a row.
    pub ghost long: { k ≤ 64 },
    pub ghost bytes: { (r < 256) × (p < 256) × (q < 256) },
    pub ghost middle: { ForSome x (λ x. x < 256) },
}

impl Family {
    ghost use Rattle.rows.specs.Values.{family_of};

    /// The byte that names x: 255 if the length is odd.
    fn cross(self) -> u8
        ensures { result ≡ cross self.x }
    {
        match self.x {
            Some(x) => x as u8,
            None => 255,
        }
    }

    /// Writes family row `i`.
    pub fn put_family(self, out: &mut [u8], i: usize, mark: u8, class: usize)
        requires { class < 256 }
        ensures { out.new ≡ put_family out.old i (family_of self) mark class }
    {
        if i < out.len() / 8 {
            let row = [
                self.k as u8,
                self.r as u8,
                self.p as u8,
                self.q as u8,
                self.cross(),
                mark,
                class as u8,
                0,
            ];
            out[8 * i..8 * i + 8].copy_from_slice(&row);
        }
    }
}

/// Writes class row `c`, of so many families modulo 65536: a class of one family is essential.
fn put_class(table: &mut [u8], c: usize, k: u8, rank: u8, families: u16)
    ensures { table.new ≡ put_class table.old c k rank families }
{
    if c < table.len() / 5 {
        let [low, high] = families.to_le_bytes();
        let row = [k, rank, low, high, u8::from(families == 1)];
        table[5 * c..5 * c + 5].copy_from_slice(&row);
    }
}

/// Counts one marked ring more and its families into class row `c`.
fn more_class(table: &mut [u8], c: usize, held: u16)
    requires { c < 256 }
    ensures { table.new ≡ more_class table.old c held }
{
    let at = 5 * c;
    let k = bondset::byte_at(table, at);
    let rank = bondset::byte_at(table, at + 1);
    let low = bondset::byte_at(table, at + 2);
    let high = bondset::byte_at(table, at + 3);
    let families = u16::from_le_bytes([low, high]).wrapping_add(held);
    put_class(table, c, k, rank.wrapping_add(1), families);
}

/// Numbers the class of marked ring `i` of length `k`, and answers how many classes are numbered.
fn number_one(
    labels: &mut [u8],
    holds: &[u64],
    table: &mut [u8],
    k: u8,
    i: usize,
    classes: usize,
) -> usize
    requires classes_bound { classes < 256 }
    requires i_in_bounds { (i < length labels.old) × (i < length holds.now) }
    ensures { numbers_of labels.new result table.new
        ≡ numbered_in k holds.now i (numbers_of labels.old classes table.old) }
{
    let label = usize::from(labels[i]);
    let held = (holds[i] % 65536) as u16;
    if label == i {
        labels[i] = classes as u8;
        put_class(table, classes, k, 1, held);
        return classes + 1;
    }
    let class = bondset::byte_at(labels, label);
    labels[i] = class;
    let c = usize::from(class);
    if c < classes {
        more_class(table, c, held);
    }
    classes
}

/// Puts the class of family row `i` in the place of the marked ring.
fn patch_one(labels: &[u8], out: &mut [u8], i: usize)
    requires { 8 * (i + 1) ≤ length out.old }
    ensures { out.new ≡ patched labels.now i out.old }
{
    let at = 8 * i + 6;
    out[at] = bondset::byte_at(labels, usize::from(out[at]));
}

/// Numbers the classes of the marked rings from, .., to - 1 of length `k`, and answers how many classes are numbered.
pub fn number(
    labels: &mut [u8],
    holds: &[u64],
    table: &mut [u8],
    k: usize,
    from: usize,
    to: usize,
    classes: usize,
) -> usize
    requires k_bound { (k < 256) × (to ≤ 82) × (from ≤ to) × (classes ≤ from) }
    requires to_in_bounds { (to ≤ length labels.old) × (to ≤ length holds.now) }
    requires labelled { Labelled labels.old }
    ensures { Numbered k from to holds.now labels.old classes table.old
        labels.new result table.new }
{
    let mut c = classes;
    for i in from..to {
        c = number_one(labels, holds, table, k as u8, i, c);
    }
    c
}

/// Puts the classes of the family rows from, .., to - 1 that fit in the places of the marked rings.
pub fn patch(labels: &[u8], out: &mut [u8], from: usize, to: usize)
    ensures { out.new
        ≡ through (patched labels.now) (count from (min to (length out.old / 8) - from)) out.old }
{
    for i in from..to.min(out.len() / 8) {
        patch_one(labels, out, i);
    }
}
