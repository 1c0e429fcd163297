//! The listing program: house text in, the listing of the compound's ring families out, or a refusal.
//!
//! `list` does all of the work on slices, and `list_input` on what a reader gives; `main` hands it standard input and prints.

#![tactic(auto)]

ghost use Rattle.std.specs.Prelude.{◌≡◌, ◌≤◌, ◌+◌, ◌*◌, length, take, IfOk, IfSome};
ghost use Rattle.listingtext.specs.Listing.{Wrote};
ghost use Rattle.rings.specs.Calls.{told};
ghost use Rattle.listing.specs.Listed.{lines_of, families_in, classes_in, Listed};

use housetext::Text;
use listingtext::Head;
use rings::{Answer, Full};
use std::io::{self, Read};

// The listing of the answer to what a text says, or the lines of its refusal.
fn write_answer(
    said: Text,
    answer: Answer,
    rows: &[u8],
    sizes: &[u64],
    class_rows: &[u8],
    out: &mut [u8],
) -> usize
    requires answer_in_bounds { 8 * families_in (told answer 0) ≤ length rows.now }
    requires answer_in_bounds_2 { families_in (told answer 0) ≤ length sizes.now }
    requires answer_in_bounds_3 { 5 * classes_in (told answer 0) ≤ length class_rows.now }
    requires answer_in_bounds_4 { 199 + 56 * families_in (told answer 0) + 45 * classes_in (told answer 0) ≤ length out.old }
    ensures wrote { Wrote out.old 0
        (lines_of said.atoms said.bonds rows.now sizes.now class_rows.now (told answer 0)) out.new result }
    ensures upper_bound { result ≤ 199 + 56 * families_in (told answer 0) + 45 * classes_in (told answer 0) }
{
    match answer {
        Ok(
            Full {
                cyclomatic,
                families,
                classes,
                total,
                rings,
            },
        ) => {
            let head = Head {
                atoms: said.atoms as u64,
                bonds: said.bonds as u64,
                cyclomatic,
                families,
                classes,
                total,
                rings,
            };
            listingtext::write_listing(head, rows, sizes, class_rows, out)
        }
        Err(refusal) => listingtext::write_refusal(refusal.number(), refusal.at(), out),
    }
}

// Writes what the program prints for a text at the start of a buffer, and answers how many bytes it is.
fn list(text: &[u8], out: &mut [u8]) -> usize
    requires { 233265 ≤ length out.old }
    ensures listed { Listed text.now out.old out.new result }
    ensures upper_bound { result ≤ 233265 }
{
    let mut bonds = [0u8; 510];
    match housetext::read(text, &mut bonds) {
        Ok(said) => {
            let mut rows = [0u8; 32768];
            let mut class_rows = [0u8; 410];
            let mut sizes = [0u64; 4096];
            let end = 2 * said.bonds;
            let answer = rings::families_sized(
                said.atoms,
                &bonds[..end],
                &mut rows,
                &mut class_rows,
                &mut sizes,
            );
            write_answer(said, answer, &rows, &sizes, &class_rows, out)
        }
        Err(departure) => listingtext::write_refusal(10, departure.line as u64, out),
    }
}

// Reads until the buffer is full or the input ends, and answers how many bytes stand at its start. Where the input's bytes are known,
// they are its first ones, and all that the buffer has room for.
fn read_full<R: Read>(input: &mut R, buffer: &mut [u8]) -> io::Result<usize>
    ensures in_bounds { IfOk result (λ n. n ≤ length buffer.new) }
    ensures beginning { IfOk result (λ n. IfSome (R.remaining input.old)
        (λ bytes. take n buffer.new ≡ take (length buffer.old) bytes)) }
{
    let mut done = 0;
    while done < buffer.len() {
        let n = input.read(&mut buffer[done..])?;
        if n == 0 {
            break;
        }
        done += n;
    }
    Ok(done)
}

// Reads a text, writes what the program prints for it at the start of a buffer, and answers how many bytes it is. The first 4,096 bytes
// are enough: a text of more than 3,335 departs, at the same line as they do (`reads_long_beginning` of `housetext`).
fn list_input<R: Read>(input: &mut R, out: &mut [u8]) -> io::Result<usize>
    requires { 233265 ≤ length out.old }
    ensures listed { IfOk result (λ end. IfSome (R.remaining input.old) (λ bytes. Listed bytes out.old out.new end)) }
    ensures upper_bound { IfOk result (λ end. end ≤ 233265) }
{
    let mut text = [0u8; 4096];
    let n = read_full(input, &mut text)?;
    Ok(list(&text[..n], out))
}

fn main(rt: HostRuntime) -> io::Result<()> {
    let mut out = [0u8; 233265];
    let end = list_input(&mut rt.stdin(), &mut out)?;
    rt.write_all(&out[..end])
}
