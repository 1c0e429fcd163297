//! The calls: one compound in, its ring families, one minimum cycle basis and the classes of its rings out, or one
//! numbered refusal.
//!
//! A call asks nothing of its caller. It promises the relation `Answered`, which leaves one answer and one content of the
//! lent buffers for each input. What decides a refusal is handed the lengths of the lent buffers at the most, and not the buffers.
//!
//! Which refusal has which number stands in `Refusal::number`, and what it names in `Refusal::at`, for all who print an answer or pass it on.

#![tactic(auto)]

ghost use Rattle.std.specs.Prelude.{◌≡◌, ℕ, ◌<◌, length, get_or, OnErr};
ghost use Rattle.answers.specs.Answered.{Answered, AnsweredFirst};
ghost use Rattle.rings.specs.Calls.{number_of, place_of, told, told_sized};

mod call;

/// The numbers of a compound that is answered in full: its rows are written.
#[derive(Clone, Copy, Debug, PartialEq, Eq)]
pub struct Full {
    /// Bonds - atoms + 1: the number of rings in the basis.
    pub cyclomatic: u64,
    /// The kept families: so many rows are written.
    pub families: u64,
    /// The classes: so many class rows are written.
    pub classes: u64,
    /// The total length of the basis.
    pub total: u64,
    /// The relevant rings: the sum of the sizes.
    pub rings: u64,
}

/// The numbers of a full answer, and the size of one family.
#[derive(Clone, Copy, Debug, PartialEq, Eq)]
pub struct Sized {
    /// The numbers.
    pub full: Full,
    /// The size of the family asked for: 0 past the last row.
    pub size: u64,
}

/// Why a compound is refused, and what the refusal names.
#[derive(Clone, Copy, Debug, PartialEq, Eq)]
pub enum Refusal {
    /// 1: no atom, or more than 64.
    WrongAtoms,
    /// 2: an odd number of bond bytes, or more than 96 bonds.
    WrongBytes,
    /// 3: this bond names an atom that is not there.
    NoAtom(u64),
    /// 4: this bond joins an atom to itself.
    Loop(u64),
    /// 5: this bond joins two atoms that an earlier one joins.
    Again(u64),
    /// 6: the compound is in more than one piece.
    Pieces,
    /// 7: so many family rows are needed.
    FewRows(u64),
    /// 8: so many class rows are needed.
    FewClassRows(u64),
    /// 9: there are more rings than a word can say.
    ManyRings,
}

/// What a call answers: the numbers, or a refusal.
pub type Answer = Result<Full, Refusal>;

impl Refusal {
    /// Its number in the scope document, 1 to 9.
    pub fn number(self) -> u64
        ensures { result ≡ number_of self }
    {
        match self {
            Refusal::WrongAtoms => 1,
            Refusal::WrongBytes => 2,
            Refusal::NoAtom(_) => 3,
            Refusal::Loop(_) => 4,
            Refusal::Again(_) => 5,
            Refusal::Pieces => 6,
            Refusal::FewRows(_) => 7,
            Refusal::FewClassRows(_) => 8,
            Refusal::ManyRings => 9,
        }
    }

    /// What it names: a bond (3 to 5) or the number of rows needed (7, 8); 0 otherwise.
    pub fn at(self) -> u64
        ensures { result ≡ place_of self }
    {
        match self {
            Refusal::NoAtom(bond) | Refusal::Loop(bond) | Refusal::Again(bond) => bond,
            Refusal::FewRows(needed) | Refusal::FewClassRows(needed) => needed,
            Refusal::WrongAtoms | Refusal::WrongBytes | Refusal::Pieces | Refusal::ManyRings => 0,
        }
    }
}

/// The ring families of a compound of `n` atoms, whose bonds are lent as two atom numbers each.
pub fn families(n: usize, bonds: &[u8], family_rows: &mut [u8], class_rows: &mut [u8]) -> Answer
    ensures { AnsweredFirst n bonds.now family_rows.old class_rows.old (told result)
        family_rows.new class_rows.new }
{
    call::answer(n, bonds, 0, family_rows, class_rows, &mut [])
}

/// The same, and the size of the family of a row.
pub fn family_size(
    n: usize,
    bonds: &[u8],
    family_rows: &mut [u8],
    class_rows: &mut [u8],
    row: usize,
) -> Result<Sized, Refusal>
    ensures { Answered n bonds.now family_rows.old class_rows.old row (told_sized result)
        family_rows.new class_rows.new }
{
    let mut sizes = [0u64; 1];
    let full = call::answer(n, bonds, row, family_rows, class_rows, &mut sizes)?;
    Ok(Sized {
        full,
        size: sizes[0],
    })
}

/// The same, and the sizes of the families of the first rows, as many as `sizes` has room for, 0 past the last row; in a refusal `sizes`
/// stays as lent.
pub fn families_sized(
    n: usize,
    bonds: &[u8],
    family_rows: &mut [u8],
    class_rows: &mut [u8],
    sizes: &mut [u64],
) -> Answer
    ensures answered { AnsweredFirst n bonds.now family_rows.old class_rows.old (told result)
        family_rows.new class_rows.new }
    ensures sized { (j : ℕ) → j < length sizes.old → Answered n bonds.now family_rows.old class_rows.old j
        (told result (get_or sizes.new j 0)) family_rows.new class_rows.new }
    ensures kept { OnErr result (sizes.new ≡ sizes.old) }
{
    call::answer(n, bonds, 0, family_rows, class_rows, sizes)
}
