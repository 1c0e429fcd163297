//! Run cases as tables: named cases in one text, which the programs that run them go over.
//!
//! A case is its name, `|`, what it is run on, and `~`, which the last one may lack. Neither of the two stands in a name, and no `~` in what
//! follows it.

#![tactic(auto)]

ghost use Rattle.std.specs.Prelude.{◌≡◌, ◌==◌, ◌<◌, ◌≤◌, length};
ghost use Rattle.std.specs.List.{before_first, after_first};

use std::io;

/// A named case.
#[derive(Clone, Copy)]
pub struct Case<'a> {
    /// The name that its line begins with.
    pub name: &'a str,
    /// What it is run on.
    pub body: &'a str,
}

/// The places of a table's first case.
#[derive(Clone, Copy)]
pub struct Places {
    /// Where its name ends.
    pub name: usize,
    /// Where what it is run on starts.
    pub from: usize,
    /// Where that ends. The next case starts one byte on.
    pub to: usize,
}

// The first place of a byte in a text, or the text's length.
fn place(text: &[u8], byte: u8) -> usize
    ensures { result ≤ length text.now }
{
    text.iter().position(|b| *b == byte).unwrap_or(text.len())
}

/// The places of a table's first case, within the table and in their order. The table is any bytes, where `Cases` takes a text.
pub fn first(table: &[u8]) -> Places
    ensures name_le_from { result.name ≤ result.from }
    ensures from_le_to { result.from ≤ result.to }
    ensures to_in_bounds { result.to ≤ length table.now }
{
    let to = place(table, b'~');
    let name = place(&table[..to], b'|');
    Places {
        name,
        from: to.min(name + 1),
        to,
    }
}

/// The cases of a table, in their order.
#[derive(Drop)]
pub struct Cases<'a>(pub &'a str);

// A text before the first of a character, and what follows it: the whole text and nothing, if there is none.
fn cut(text: &str, at: char) -> (&str, &str)
    requires { at < 128 }
    ensures before { result.0.now ≡ before_first (λ b. b == at) text.now }
    ensures after { result.1.now ≡ after_first (λ b. b == at) text.now }
{
    text.split_once(at).unwrap_or((text, ""))
}

impl<'a> Iterator for Cases<'a> {
    ghost use Rattle.std.specs.Iterator.{YieldsFirstBy, item_count};
    ghost use Rattle.cases.specs.Table.{case_text, cases_left};

    type Item = Case<'a>;

    ghost next_gives = { YieldsFirstBy case_text cases_left };

    ghost remaining = { item_count cases_left };

    fn next(&mut self) -> Option<Case<'a>> {
        if self.0.is_empty() {
            return None;
        }
        let (row, rest) = cut(self.0, '~');
        self.0 = rest;
        let (name, body) = cut(row, '|');
        Some(Case { name, body })
    }
}

/// Prints a word and a number, each in one piece: a pipe that is nearly full takes a piece whole or not at all.
pub fn say(rt: &impl Print, word: &[u8], number: u64) -> io::Result<()> {
    rt.write_all(word)?;
    rt.print(number)
}
