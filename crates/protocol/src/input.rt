// The lines of an input.
ghost use Rattle.std.specs.Prelude.{◌≡◌, ◌<◌, length, IfSome};
ghost use Rattle.std.specs.Iterator.{YieldsFirstRef, item_count};
ghost use Rattle.protocol.specs.Lines.{in_line, Cuts, lines_of};

use reading::{Class, leading_of};

// The first line of an input, without its line feed, and what follows it.
#[derive(Clone, Copy)]
pub struct Cut<'a> {
    pub line: &'a [u8],
    pub rest: &'a [u8],
}

// Every byte but a line feed.
struct InLine;

impl Class for InLine {
    ghost test = { λ _. in_line };

    fn has(&self, b: u8) -> bool {
        b != b'\n'
    }
}

// Absent where the input is empty. The input's end ends a line too.
pub fn first_line<'a>(input: &'a [u8]) -> Option<Cut<'a>>
    ensures cuts { Cuts input.now result }
    ensures shorter { IfSome result (λ c. length c.rest.now < length input.now) }
{
    if input.is_empty() {
        return None;
    }
    let n = leading_of(&InLine, input);
    Some(Cut {
        line: &input[..n],
        rest: &input[input.len().min(n + 1)..],
    })
}

// The lines of an input that are still to come.
#[derive(Drop)]
pub struct Lines<'a> {
    rest: &'a [u8],
}

// The lines of an input, one after another.
pub fn lines_in<'a>(input: &'a [u8]) -> Lines<'a>
    ensures { result.rest ≡ input.entry }
{
    Lines { rest: input }
}

impl<'a> Iterator for Lines<'a> {
    type Item = &'a [u8];

    ghost next_gives = { YieldsFirstRef (λ l. lines_of l.rest.now) };

    ghost remaining = { item_count (λ l. lines_of l.rest.now) };

    fn next(&mut self) -> Option<&'a [u8]> {
        let cut = first_line(self.rest)?;
        self.rest = cut.rest;
        Some(cut.line)
    }
}
