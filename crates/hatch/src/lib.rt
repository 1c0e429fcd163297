//! The engine's calls for C and Rust: the first call and the call with a family's size, each with bonds lent as bytes or as records. A slice
//! passes as a pointer and a length. No call asks anything of its caller.

#![tactic(auto)]

ghost use Rattle.std.specs.Prelude.{◌≡◌, Ok, Err};
ghost use Rattle.answers.specs.Answered.{Answered, AnsweredFirst};
ghost use Rattle.rings.specs.Calls.{told, told_sized};
ghost use Rattle.records.specs.Records.{flattened};
ghost use Rattle.hatch.specs.Replies.{told_by, reply_of, with_size};

use records::Bond;
use rings::{Answer, Full, Refusal, Sized};

/// What a call answers: a refusal's number and what it names, or 0 twice and the numbers. In a refusal the numbers are 0.
#[repr(C)]
#[derive(Clone, Copy, Default)]
pub struct Reply {
    /// 0 if the compound is answered in full, or the refusal's number, 1 to 9.
    pub refusal: u64,
    /// What the refusal names: a bond (3 to 5) or the number of rows needed (7, 8); 0 otherwise.
    pub at: u64,
    /// Bonds - atoms + 1.
    pub cyclomatic: u64,
    /// The number of family rows written.
    pub families: u64,
    /// The number of class rows written.
    pub classes: u64,
    /// The total length of the basis.
    pub total: u64,
    /// The number of relevant rings: the sum of the sizes.
    pub rings: u64,
    /// The size of the family asked for; 0 past the last row, and in a call that asks for none.
    pub size: u64,
}

impl Reply {
    /// The numbers of a full answer, and the size asked for.
    #[tactic(auto, unfolding(rings::specs::Calls::told, crate::specs::Replies::reply_of))]
    fn full(full: Full, size: u64) -> Reply
        ensures { result ≡ reply_of (told (Ok full) size) }
    {
        Reply {
            cyclomatic: full.cyclomatic,
            families: full.families,
            classes: full.classes,
            total: full.total,
            rings: full.rings,
            size,
            ..Reply::default()
        }
    }

    /// A refusal, with no number of a full answer.
    #[tactic(auto, unfolding(rings::specs::Calls::told, crate::specs::Replies::reply_of))]
    fn refused(refusal: Refusal) -> Reply
        ensures { result ≡ reply_of (told (Err refusal) 0) }
    {
        Reply {
            refusal: refusal.number(),
            at: refusal.at(),
            ..Reply::default()
        }
    }

    /// An answer, and the size asked for.
    #[tactic(auto, unfolding(rings::specs::Calls::told))]
    fn told(answer: Answer, size: u64) -> Reply
        ensures { result ≡ reply_of (told answer size) }
    {
        match answer {
            Ok(full) => Reply::full(full, size),
            Err(refusal) => Reply::refused(refusal),
        }
    }
}

impl From<Result<Sized, Refusal>> for Reply {
    ghost from_gives = { λ answer reply. reply ≡ reply_of (told_sized answer) };

    #[tactic(auto, unfolding(rings::specs::Calls::told_sized))]
    fn from(answer: Result<Sized, Refusal>) -> Reply {
        match answer {
            Ok(Sized { full, size }) => Reply::full(full, size),
            Err(refusal) => Reply::refused(refusal),
        }
    }
}

/// The ring families of a compound of `n` atoms, whose bonds are lent as two atom numbers each.
#[unsafe(no_mangle)]
pub extern "C" fn rings_families(
    n: usize,
    bonds: &[u8],
    family_rows: &mut [u8],
    class_rows: &mut [u8],
) -> Reply
    ensures answered { AnsweredFirst n bonds.now family_rows.old class_rows.old (with_size (told_by result))
        family_rows.new class_rows.new }
    ensures plain { result ≡ reply_of (with_size (told_by result) 0) }
{
    Reply::told(rings::families(n, bonds, family_rows, class_rows), 0)
}

/// The same, and the size of the family of a row.
#[unsafe(no_mangle)]
pub extern "C" fn rings_family_size(
    n: usize,
    bonds: &[u8],
    family_rows: &mut [u8],
    class_rows: &mut [u8],
    row: usize,
) -> Reply
    ensures answered { Answered n bonds.now family_rows.old class_rows.old row (told_by result)
        family_rows.new class_rows.new }
    ensures plain { result ≡ reply_of (told_by result) }
{
    rings::family_size(n, bonds, family_rows, class_rows, row).into()
}

/// The ring families of a compound of `n` atoms, whose bonds are lent as records.
#[unsafe(no_mangle)]
pub extern "C" fn rings_families_of(
    n: usize,
    bonds: &[Bond],
    family_rows: &mut [u8],
    class_rows: &mut [u8],
) -> Reply
    ensures answered { AnsweredFirst n (flattened bonds.now) family_rows.old class_rows.old (with_size (told_by result))
        family_rows.new class_rows.new }
    ensures plain { result ≡ reply_of (with_size (told_by result) 0) }
{
    let found = records::families_of(n, bonds, family_rows, class_rows);
    Reply::told(found, 0)
}

/// The same, and the size of the family of a row.
#[unsafe(no_mangle)]
pub extern "C" fn rings_family_size_of(
    n: usize,
    bonds: &[Bond],
    family_rows: &mut [u8],
    class_rows: &mut [u8],
    row: usize,
) -> Reply
    ensures answered { Answered n (flattened bonds.now) family_rows.old class_rows.old row (told_by result)
        family_rows.new class_rows.new }
    ensures plain { result ≡ reply_of (told_by result) }
{
    records::family_size_of(n, bonds, family_rows, class_rows, row).into()
}
