//! One case and its line: its name, the five numbers or the refusal, and how far the family rows and the class rows were written.

use rings::Answer;
use std::io;

/// All the bytes that can be lent for a kind of row.
pub const ROOM: usize = 512;

// Each byte of a buffer as it is lent. No row ends in it.
const LENT: u8 = 170;

/// A call of the engine: a compound of `n` atoms, and how many bytes are lent for each kind of row, up to `ROOM`.
#[derive(Clone, Copy)]
pub struct Call<'a> {
    /// The number of atoms.
    pub n: usize,
    /// The bonds, as two atom numbers each.
    pub bonds: &'a [u8],
    /// The bytes lent for family rows.
    pub row_bytes: usize,
    /// The bytes lent for class rows.
    pub class_bytes: usize,
}

// What was answered.
fn say_answer(rt: &impl Print, answer: Answer) -> io::Result<()> {
    match answer {
        Ok(full) => {
            cases::say(rt, b": cyclomatic=", full.cyclomatic)?;
            cases::say(rt, b" families=", full.families)?;
            cases::say(rt, b" classes=", full.classes)?;
            cases::say(rt, b" total=", full.total)?;
            cases::say(rt, b" rings=", full.rings)
        }
        Err(refusal) => {
            cases::say(rt, b": refused=", refusal.number())?;
            cases::say(rt, b" at=", refusal.at())
        }
    }
}

// How far a buffer was written: the place after its last byte that is not as lent.
fn written(buffer: &[u8; ROOM]) -> u64 {
    let last = buffer.iter().rposition(|byte| *byte != LENT);
    last.map_or(0, |place| place as u64 + 1)
}

// What a call answered, and how far it wrote.
#[derive(Clone, Copy)]
struct Outcome {
    answer: Answer,
    rows: u64,
    class_rows: u64,
}

// The call. Its buffers are gone from the stack when its line is printed.
fn ask(call: Call) -> Outcome {
    let mut rows = [LENT; ROOM];
    let mut class_rows = [LENT; ROOM];
    let answer = rings::families(
        call.n,
        call.bonds,
        &mut rows[..call.row_bytes.min(ROOM)],
        &mut class_rows[..call.class_bytes.min(ROOM)],
    );
    Outcome {
        answer,
        rows: written(&rows),
        class_rows: written(&class_rows),
    }
}

/// Runs a case and prints its line.
pub fn run(rt: &impl Print, name: &str, call: Call) -> io::Result<()> {
    let outcome = ask(call);
    rt.write_all(name.as_bytes())?;
    say_answer(rt, outcome.answer)?;
    cases::say(rt, b" written=", outcome.rows)?;
    cases::say(rt, b",", outcome.class_rows)?;
    rt.write_all(b"\n")
}
