//! House text: reading a compound's text.
//!
//! A text is `atoms=N`, `bonds=M` and M lines `bond=A-B`, each ended by one newline, with nothing after. Numbers are 0 to 255 in
//! decimal with no leading zero. `read` says what a text says, or which of its lines departs first.

#![tactic(auto)]

ghost use Rattle.std.specs.Prelude.{◌≡◌, ◌<◌, ◌≤◌, length, [], IfSome};
ghost use Rattle.housetext.specs.Scan.{digit_at, scan};
ghost use Rattle.housetext.specs.Text.{field_at, bond_at, passes, bonds_from, reads, Answers};

/// What a text says: the numbers of atoms and bonds. The bond bytes stand in the lent buffer.
#[derive(Clone, Copy, Debug, PartialEq, Eq)]
pub struct Text {
    /// The number of atoms.
    pub atoms: usize,
    /// The number of bonds.
    pub bonds: usize,
}

/// A text departs from the form: refusal 10.
#[derive(Clone, Copy, Debug, PartialEq, Eq)]
pub struct Departure {
    /// The first line that departs, counted from 1.
    pub line: usize,
}

// A number at the start of a text, and how many bytes were read.
#[derive(Clone, Copy)]
struct Found {
    value: u8,
    next: usize,
}

// The two atoms of a bond line at the start of a text, and how many bytes were read.
#[derive(Clone, Copy)]
struct BondLine {
    a: u8,
    b: u8,
    next: usize,
}

// The digit at a place of a text, if there is one.
#[tactic(auto, unfolding(crate::specs::Scan::digit, crate::specs::Scan::digit_at))]
fn digit(text: &[u8], at: usize) -> Option<u8>
    ensures value { result ≡ digit_at text.now at }
    ensures small { IfSome result (λ d. d ≤ 9) }
{
    match *text.get(at)? {
        b @ b'0'..=b'9' => Some(b - b'0'),
        _ => None,
    }
}

// The longest number that the first digits of a text make, up to three.
#[tactic(auto, using(crate::proofs::Scan::scanned_cases), unfolding(crate::specs::Scan::scan))]
fn number(text: &[u8]) -> Option<Found>
    ensures { result ≡ scan text.now }
{
    let a = digit(text, 0)?;
    if a == 0 {
        return Some(Found { value: 0, next: 1 });
    }
    let Some(b) = digit(text, 1) else {
        return Some(Found { value: a, next: 1 });
    };
    let Some(c) = digit(text, 2) else {
        let value = 10 * a + b;
        return Some(Found { value, next: 2 });
    };
    let value = u8::try_from(100 * u16::from(a) + 10 * u16::from(b) + u16::from(c)).ok()?;
    Some(Found { value, next: 3 })
}

// A number at the start of a text, ended by `end`.
#[tactic(auto, using(crate::proofs::Fields::ended_scan))]
fn ended(text: &[u8], end: u8) -> Option<Found>
    requires { end < 48 }
    ensures value { result ≡ field_at [] end text.now }
    ensures within { IfSome result (λ number. number.next ≤ length text.now) }
{
    let Found { value, next } = number(text)?;
    if text.get(next) != Some(&end) {
        return None;
    }
    Some(Found {
        value,
        next: next + 1,
    })
}

// A word and a number at the start of a text, ended by `end`.
#[tactic(auto, using(crate::proofs::Fields::field_stripped))]
fn field(text: &[u8], word: &[u8], end: u8) -> Option<Found>
    requires { end < 48 }
    ensures value { result ≡ field_at word.now end text.now }
    ensures within { IfSome result (λ number. number.next ≤ length text.now) }
{
    let rest = text.strip_prefix(word)?;
    let Found { value, next } = ended(rest, end)?;
    Some(Found {
        value,
        next: word.len() + next,
    })
}

// The line `bond=A-B` at the start of a text.
#[tactic(auto, unfolding(crate::specs::Text::bond_at))]
fn bond_line(text: &[u8]) -> Option<BondLine>
    ensures value { result ≡ bond_at text.now }
    ensures within { IfSome result (λ line. line.next ≤ length text.now) }
{
    let a = field(text, b"bond=", b'-')?;
    let b = ended(&text[a.next..], b'\n')?;
    Some(BondLine {
        a: a.value,
        b: b.value,
        next: a.next + b.next,
    })
}

// As many bond lines as is said, from line 3 on, and then the end of the text.
fn read_bonds(text: &[u8], said: Text, bonds: &mut [u8]) -> Result<Text, Departure>
    requires count_bound { said.bonds ≤ 255 }
    requires in_bounds { 510 ≤ length bonds.old }
    ensures { Answers (bonds_from (passes said.atoms said.bonds) 3 said.bonds text.now []) result bonds.old bonds.new }
{
    let mut rest = text;
    for k in 0..said.bonds {
        let Some(BondLine { a, b, next }) = bond_line(rest) else {
            return Err(Departure { line: k + 3 });
        };
        bonds[2 * k] = a;
        bonds[2 * k + 1] = b;
        rest = &rest[next..];
    }
    if !rest.is_empty() {
        return Err(Departure {
            line: said.bonds + 3,
        });
    }
    Ok(said)
}

/// What a text says, with the bonds' bytes at the start of the lent buffer, or the first line that departs.
/// If a line departs, the bonds read before it stand there. The buffer has room for the bonds of any text; its other bytes stay as lent.
#[tactic(auto, unfolding(crate::specs::Text::reads))]
pub fn read(text: &[u8], bonds: &mut [u8]) -> Result<Text, Departure>
    requires { 510 ≤ length bonds.old }
    ensures { Answers (reads text.now) result bonds.old bonds.new }
{
    let Some(atoms) = field(text, b"atoms=", b'\n') else {
        return Err(Departure { line: 1 });
    };
    let rest = &text[atoms.next..];
    let Some(count) = field(rest, b"bonds=", b'\n') else {
        return Err(Departure { line: 2 });
    };
    let said = Text {
        atoms: usize::from(atoms.value),
        bonds: usize::from(count.value),
    };
    read_bonds(&rest[count.next..], said, bonds)
}
