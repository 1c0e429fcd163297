//! Small compounds in tables: the number of atoms, the bytes lent for family rows and those lent for class rows, and then two digits for each
//! bond, as in `3 008 005 01 12 02`.

ghost use Rattle.std.specs.Prelude.{◌≤◌, length};

use crate::line::Call;
use cases::{Case, Cases};
use std::io;
use std::str::Split;

// The digits of words as bond bytes, as many as there is room for.
fn digits<'a>(words: Split<'_, char>, room: &'a mut [u8; 32]) -> &'a [u8]
    ensures { length result.now ≤ 32 }
{
    let mut count = 0;
    let bytes = words.flat_map(|word| word.bytes());
    for (value, digit) in room.iter_mut().zip(bytes) {
        *value = digit.saturating_sub(b'0');
        count += 1;
    }
    &room[..count]
}

// The next of a text's words as a number.
fn number(words: &mut Split<'_, char>) -> Option<usize> {
    words.next()?.parse().ok()
}

// The call that a case describes. What it takes of the stack is free again when the call is made.
#[inline(never)]
fn call_of<'a>(body: &str, room: &'a mut [u8; 32]) -> Option<Call<'a>> {
    let mut words = body.split(' ');
    let n = number(&mut words)?;
    let row_bytes = number(&mut words)?;
    let class_bytes = number(&mut words)?;
    let bonds = digits(words, room);
    Some(Call {
        n,
        bonds,
        row_bytes,
        class_bytes,
    })
}

/// Runs all cases of a table.
pub fn all(rt: &impl Print, table: &str) -> io::Result<()> {
    for Case { name, body } in Cases(table) {
        let mut room = [0u8; 32];
        if let Some(call) = call_of(body, &mut room) {
            crate::line::run(rt, name, call)?;
        }
    }
    Ok(())
}
