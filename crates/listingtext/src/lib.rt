//! The listing as text: what the listing program prints for an answer or a refusal.
//!
//! The bytes are those of `specs/Listing.antt`. They are stored in a lent buffer, by a `Page` from its place on, and the buffer's other bytes
//! stay as lent. A caller lends as much room as the lines can take.

#![tactic(auto)]

ghost use Rattle.std.specs.Prelude.{◌≡◌, [], ◌∷◌, ◌++◌, ◌<◌, ◌≤◌, ◌+◌, ◌*◌, length};
ghost use Rattle.housetext.specs.Decimal.{decimal};
ghost use Rattle.housetext.specs.Text.{newline, field};
ghost use Rattle.listingtext.specs.Page.{Adds};
ghost use Rattle.listingtext.specs.Listing.{Wrote, commas, cross, comma, refusal, head_lines, family_line, family_lines, class_line, class_lines, listing};

use itoa::Buffer;

/// The numbers of a listing's first lines.
#[derive(Clone, Copy)]
pub struct Head {
    /// Atoms of the compound.
    pub atoms: u64,
    /// Bonds of the compound.
    pub bonds: u64,
    /// The cyclomatic number.
    pub cyclomatic: u64,
    /// Kept families.
    pub families: u64,
    /// Classes of interchangeable rings.
    pub classes: u64,
    /// The total length of the basis.
    pub total: u64,
    /// Relevant rings.
    pub rings: u64,
}

/// A lent buffer and the place in it where the next byte goes.
#[derive(Drop)]
pub struct Page<'a> {
    /// The buffer.
    pub out: &'a mut [u8],
    /// The place.
    pub at: usize,
}

#[tactic(auto, using(crate::proofs::Writing::decimals))]
impl Page<'_> {
    // A word.
    fn word(&mut self, word: &[u8])
        requires { self.old.at + length word.now ≤ length self.old.out.now }
        ensures adds { Adds self.old word.now self.new }
        ensures value { self.new.at ≡ self.old.at + length word.now }
    {
        let end = self.at + word.len();
        self.out[self.at..end].copy_from_slice(word);
        self.at = end;
    }

    // A byte.
    fn byte(&mut self, byte: u8)
        requires { self.old.at < length self.old.out.now }
        ensures adds { Adds self.old (byte ∷ []) self.new }
        ensures value { self.new.at ≡ self.old.at + 1 }
    {
        self.out[self.at] = byte;
        self.at += 1;
    }

    // A number in decimal.
    fn number(&mut self, x: u64)
        requires { self.old.at + length (decimal x) ≤ length self.old.out.now }
        ensures adds { Adds self.old (decimal x) self.new }
        ensures value { self.new.at ≡ self.old.at + length (decimal x) }
    {
        // Of a number of one digit the buffer and its copy would take most of the time.
        if x < 10 {
            self.byte(x as u8 + b'0');
        } else {
            self.word(Buffer::new().format(x).as_bytes());
        }
    }

    // A number in decimal and the byte that ends it.
    fn ended(&mut self, x: u64, end: u8)
        requires { self.old.at + length (decimal x) < length self.old.out.now }
        ensures adds { Adds self.old (decimal x ++ end ∷ []) self.new }
        ensures value { self.new.at ≡ self.old.at + length (decimal x) + 1 }
    {
        self.number(x);
        self.byte(end);
    }

    // Bytes in decimal, each with a comma after it.
    fn commas(&mut self, fields: &[u8])
        requires { self.old.at + 4 * length fields.now ≤ length self.old.out.now }
        ensures adds { Adds self.old (commas fields.now) self.new }
        ensures upper_bound { self.new.at ≤ self.old.at + 4 * length fields.now }
    {
        for &x in fields {
            self.ended(u64::from(x), b',');
        }
    }

    // The atom x of a family row, or a dash if it is odd, and a comma.
    fn cross(&mut self, x: u8)
        requires { self.old.at + 4 ≤ length self.old.out.now }
        ensures adds { Adds self.old (cross x ++ comma ∷ []) self.new }
        ensures upper_bound { self.new.at ≤ self.old.at + 4 }
    {
        match x {
            255 => self.word(b"-,"),
            _ => self.ended(u64::from(x), b','),
        }
    }

    // A word, a number and a newline.
    fn named(&mut self, word: &[u8], x: u64)
        requires { self.old.at + length word.now + 21 ≤ length self.old.out.now }
        ensures adds { Adds self.old (field word.now newline x) self.new }
        ensures upper_bound { self.new.at ≤ self.old.at + length word.now + 21 }
    {
        self.word(word);
        self.ended(x, b'\n');
    }

    /// The listing's first seven lines: at most 199 bytes.
    pub fn head(&mut self, head: Head)
        requires { self.old.at + 199 ≤ length self.old.out.now }
        ensures adds { Adds self.old (head_lines head) self.new }
        ensures upper_bound { self.new.at ≤ self.old.at + 199 }
    {
        self.named(b"atoms=", head.atoms);
        self.named(b"bonds=", head.bonds);
        self.named(b"cyclomatic=", head.cyclomatic);
        self.named(b"families=", head.families);
        self.named(b"classes=", head.classes);
        self.named(b"total=", head.total);
        self.named(b"rings=", head.rings);
    }

    /// The line of a family, from its row and its size: at most 56 bytes.
    pub fn family(&mut self, row: &[u8], size: u64)
        requires in_bounds { 7 ≤ length row.now }
        requires at_in_bounds { self.old.at + 56 ≤ length self.old.out.now }
        ensures adds { Adds self.old (family_line row.now size) self.new }
        ensures upper_bound { self.new.at ≤ self.old.at + 56 }
    {
        self.word(b"family=");
        self.commas(&row[0..4]);
        self.cross(row[4]);
        self.commas(&row[5..7]);
        self.ended(size, b'\n');
    }

    // The lines of the first families.
    fn families(&mut self, rows: &[u8], sizes: &[u64], count: usize)
        requires count_in_bounds { 8 * count ≤ length rows.now }
        requires count_in_bounds_2 { count ≤ length sizes.now }
        requires count_in_bounds_3 { self.old.at + 56 * count ≤ length self.old.out.now }
        ensures adds { Adds self.old (family_lines rows.now sizes.now count) self.new }
        ensures upper_bound { self.new.at ≤ self.old.at + 56 * count }
    {
        for (row, size) in rows.chunks_exact(8).zip(&sizes[..count]) {
            self.family(row, *size);
        }
    }

    /// The line of a class, from its number and its row: at most 45 bytes.
    pub fn class(&mut self, class: u64, row: &[u8])
        requires in_bounds { 5 ≤ length row.now }
        requires at_in_bounds { self.old.at + 45 ≤ length self.old.out.now }
        ensures adds { Adds self.old (class_line class row.now) self.new }
        ensures upper_bound { self.new.at ≤ self.old.at + 45 }
    {
        let families = u16::from_le_bytes([row[2], row[3]]);
        self.word(b"class=");
        self.ended(class, b',');
        self.commas(&row[0..2]);
        self.ended(u64::from(families), b',');
        self.ended(u64::from(row[4]), b'\n');
    }

    // The lines of the first classes.
    fn classes(&mut self, rows: &[u8], count: u64)
        requires count_in_bounds { 5 * count ≤ length rows.now }
        requires count_in_bounds_2 { self.old.at + 45 * count ≤ length self.old.out.now }
        ensures adds { Adds self.old (class_lines rows.now count) self.new }
        ensures upper_bound { self.new.at ≤ self.old.at + 45 * count }
    {
        for (class, row) in (0..count).zip(rows.chunks_exact(5)) {
            self.class(class, row);
        }
    }
}

/// Writes the two lines of a refusal at the start of a buffer, and answers how many bytes they are: at most 53.
pub fn write_refusal(number: u64, at: u64, out: &mut [u8]) -> usize
    requires { 53 ≤ length out.old }
    ensures wrote { Wrote out.old 0 (refusal number at) out.new result }
    ensures upper_bound { result ≤ 53 }
{
    let mut page = Page { out, at: 0 };
    page.named(b"refused=", number);
    page.named(b"at=", at);
    page.at
}

/// Writes the listing of an answer at the start of a buffer, and answers how many bytes it is: its numbers, its family rows with a size for
/// each, and its class rows. 233,265 bytes are room enough for 4,096 families and 82 classes.
pub fn write_listing(
    head: Head,
    rows: &[u8],
    sizes: &[u64],
    classes: &[u8],
    out: &mut [u8],
) -> usize
    requires families_in_bounds { 8 * head.families ≤ length rows.now }
    requires families_in_bounds_2 { head.families ≤ length sizes.now }
    requires classes_in_bounds { 5 * head.classes ≤ length classes.now }
    requires classes_in_bounds_2 { 199 + 56 * head.families + 45 * head.classes ≤ length out.old }
    ensures wrote { Wrote out.old 0 (listing head rows.now sizes.now classes.now) out.new result }
    ensures upper_bound { result ≤ 199 + 56 * head.families + 45 * head.classes }
{
    let mut page = Page { out, at: 0 };
    page.head(head);
    page.families(rows, sizes, head.families as usize);
    page.classes(classes, head.classes);
    page.at
}
