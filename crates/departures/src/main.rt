//! Run cases of the house text: what is read at its edges, and refusal 10 at each kind of departure.
//!
//! Each case prints one line: its name, and what was read or the first line that departs. What it must print follows from the scope
//! document, and stands in `stdout`.

#![tactic(auto)]

use cases::{Case, Cases};
use std::io;

// The bonds that were read, up to four.
fn say_bonds(rt: &impl Print, bonds: &[u8; 510], count: usize) -> io::Result<()> {
    let (bonds, _) = bonds.as_chunks::<2>();
    for [a, b] in bonds.iter().take(count.min(4)) {
        cases::say(rt, b" ", u64::from(*a))?;
        cases::say(rt, b"-", u64::from(*b))?;
    }
    Ok(())
}

// One case.
fn run(rt: &impl Print, name: &str, text: &[u8]) -> io::Result<()> {
    let mut bonds = [0u8; 510];
    rt.write_all(name.as_bytes())?;
    match housetext::read(text, &mut bonds) {
        Ok(said) => {
            cases::say(rt, b": atoms=", said.atoms as u64)?;
            cases::say(rt, b" bonds=", said.bonds as u64)?;
            say_bonds(rt, &bonds, said.bonds)?;
        }
        Err(departure) => cases::say(rt, b": refused=10 at=", departure.line as u64)?,
    }
    rt.write_all(b"\n")
}

// Runs all cases of a table.
fn all(rt: &impl Print, table: &str) -> io::Result<()> {
    for Case { name, body } in Cases(table) {
        run(rt, name, body.as_bytes())?;
    }
    Ok(())
}

// Texts that are read, whatever the engine says of the compound.
fn sound(rt: &impl Print) -> io::Result<()> {
    all(
        rt,
        "no atom|atoms=0\nbonds=0\n~\
         the highest numbers|atoms=255\nbonds=1\nbond=255-255\n~\
         one digit and two|atoms=10\nbonds=2\nbond=9-8\nbond=0-10\n~\
         two digits and three|atoms=100\nbonds=2\nbond=99-11\nbond=100-199\n~\
         a loop and a repeated bond|atoms=2\nbonds=3\nbond=0-0\nbond=0-1\nbond=1-0\n~",
    )
}

// Line 1 is `atoms=N`.
fn line_1(rt: &impl Print) -> io::Result<()> {
    all(
        rt,
        "an empty text|~\
         line 1 is left out|bonds=0\n~\
         line 1 is empty|\nbonds=0\n~\
         line 1 ends early|ato~\
         line 1 has another word|atom=1\nbonds=0\n~\
         line 1 has upper case|Atoms=1\nbonds=0\n~\
         line 1 has no =|atoms1\nbonds=0\n~\
         line 1 has : for =|atoms:1\nbonds=0\n~\
         line 1 has no number|atoms=\nbonds=0\n~\
         line 1 has a letter|atoms=N\nbonds=0\n~\
         line 1 has a letter more|atoms=1a\nbonds=0\n~\
         line 1 has the byte before 0|atoms=1/\nbonds=0\n~\
         line 1 has the byte after 9|atoms=1:\nbonds=0\n~\
         line 1 has a sign|atoms=+1\nbonds=0\n~\
         line 1 has a leading zero|atoms=01\nbonds=0\n~\
         line 1 has two zeros|atoms=00\nbonds=0\n~\
         line 1 has 256|atoms=256\nbonds=0\n~\
         line 1 has 300|atoms=300\nbonds=0\n~\
         line 1 has four digits|atoms=1000\nbonds=0\n~\
         line 1 has a space first| atoms=1\nbonds=0\n~\
         line 1 has a space before the number|atoms= 1\nbonds=0\n~\
         line 1 has a space last|atoms=1 \nbonds=0\n~\
         line 1 ends in CR LF|atoms=1\r\nbonds=0\r\n~\
         line 1 ends in CR|atoms=1\rbonds=0\r~\
         line 1 ends in a zero byte|atoms=1\0bonds=0\n~\
         line 1 has no newline|atoms=1~",
    )
}

// Line 2 is `bonds=M`.
fn line_2(rt: &impl Print) -> io::Result<()> {
    all(
        rt,
        "line 2 is missing|atoms=1\n~\
         line 2 is left out|atoms=2\nbond=0-1\n~\
         line 2 is empty|atoms=1\n\nbonds=0\n~\
         line 2 has another word|atoms=1\nbond=0\n~\
         line 2 has upper case|atoms=1\nbondS=0\n~\
         line 2 has : for =|atoms=1\nbonds:0\n~\
         line 2 has no number|atoms=1\nbonds=\n~\
         line 2 has a leading zero|atoms=2\nbonds=01\nbond=0-1\n~\
         line 2 has 256|atoms=1\nbonds=256\n~\
         line 2 has four digits|atoms=1\nbonds=1000\n~\
         line 2 has a space last|atoms=1\nbonds=0 \n~\
         line 2 ends in CR LF|atoms=1\nbonds=0\r\n~\
         line 2 has no newline|atoms=1\nbonds=0~",
    )
}

// Line 3 is the first `bond=A-B`.
fn line_3(rt: &impl Print) -> io::Result<()> {
    all(
        rt,
        "line 3 is missing|atoms=2\nbonds=1\n~\
         line 3 is empty|atoms=2\nbonds=1\n\nbond=0-1\n~\
         line 3 has another word|atoms=2\nbonds=1\nbonds=0-1\n~\
         line 3 has upper case|atoms=2\nbonds=1\nBOND=0-1\n~\
         line 3 has : for =|atoms=2\nbonds=1\nbond:0-1\n~\
         line 3 has no number|atoms=2\nbonds=1\nbond=-\n~\
         line 3 has no first number|atoms=2\nbonds=1\nbond=-1\n~\
         line 3 has no second number|atoms=2\nbonds=1\nbond=0-\n~\
         line 3 has one number|atoms=2\nbonds=1\nbond=0\n~\
         line 3 has three numbers|atoms=3\nbonds=1\nbond=0-1-2\n~\
         line 3 has a leading zero first|atoms=2\nbonds=1\nbond=00-1\n~\
         line 3 has a leading zero second|atoms=2\nbonds=1\nbond=0-01\n~\
         line 3 has 256 first|atoms=2\nbonds=1\nbond=256-1\n~\
         line 3 has 256 second|atoms=2\nbonds=1\nbond=0-256\n~\
         line 3 has four digits first|atoms=2\nbonds=1\nbond=1000-1\n~\
         line 3 has four digits second|atoms=2\nbonds=1\nbond=0-1000\n~\
         line 3 has , for -|atoms=2\nbonds=1\nbond=0,1\n~\
         line 3 has a space for -|atoms=2\nbonds=1\nbond=0 1\n~\
         line 3 has a space after -|atoms=2\nbonds=1\nbond=0- 1\n~\
         line 3 ends in CR LF|atoms=2\nbonds=1\nbond=0-1\r\n~\
         line 3 has no newline|atoms=2\nbonds=1\nbond=0-1~",
    )
}

// As many bond lines as line 2 says, and nothing after.
fn lines_after(rt: &impl Print) -> io::Result<()> {
    all(
        rt,
        "2 bonds of 3|atoms=3\nbonds=3\nbond=0-1\nbond=1-2\n~\
         2 bonds of 1|atoms=3\nbonds=1\nbond=0-1\nbond=1-2\n~\
         1 bond of 0|atoms=2\nbonds=0\nbond=0-1\n~\
         an empty line between bonds|atoms=3\nbonds=2\nbond=0-1\n\nbond=1-2\n~\
         an empty line after 0 bonds|atoms=1\nbonds=0\n\n~\
         an empty line after 1 bond|atoms=2\nbonds=1\nbond=0-1\n\n~\
         a space after the last line|atoms=1\nbonds=0\n ~\
         a zero byte after the last line|atoms=1\nbonds=0\n\0~\
         line 4 has no newline|atoms=3\nbonds=2\nbond=0-1\nbond=1-2~",
    )
}

// The longest text that is read, of 3,335 bytes, and a byte after it: 255 bonds, all of three digits, and then it goes on in the same way.
fn longest_text() -> [u8; 3336] {
    let mut text = [0u8; 3336];
    let lines = b"bond=255-255\n".iter().cycle();
    let bytes = b"atoms=255\nbonds=255\n".iter().chain(lines);
    for (to, byte) in text.iter_mut().zip(bytes) {
        *to = *byte;
    }
    text
}

// The longest text, with a byte less and with a byte more.
fn longest(rt: &impl Print) -> io::Result<()> {
    let text = longest_text();
    run(rt, "the longest text", &text[0..3335])?;
    run(
        rt,
        "the longest text, its last byte missing",
        &text[0..3334],
    )?;
    run(rt, "the longest text and a byte after it", &text)
}

// Of several refusals the first is given: the first line that departs, and 10 before all others.
fn order(rt: &impl Print) -> io::Result<()> {
    all(
        rt,
        "lines 1 and 2 depart|atoms=01\nbonds=00\n~\
         lines 2 and 3 depart|atoms=2\nbonds=01\nbond=0,1\n~\
         lines 3 and 4 depart|atoms=3\nbonds=2\nbond=00-1\nbond=1-02\n~\
         10 before 1|atoms=0\nbonds=0\n\n~\
         10 before 3|atoms=2\nbonds=1\nbond=0-9~\
         10 in line 4 before 4 in line 3|atoms=2\nbonds=2\nbond=0-0\nbond=0-01\n~",
    )
}

fn main(rt: HostRuntime) -> io::Result<()> {
    sound(&rt)?;
    line_1(&rt)?;
    line_2(&rt)?;
    line_3(&rt)?;
    lines_after(&rt)?;
    longest(&rt)?;
    order(&rt)
}
