// Which of the known forms a line has.
ghost use Rattle.std.specs.Prelude.{◌≡◌};
ghost use Rattle.std.specs.Option.{option_map};
ghost use Rattle.protocol.specs.Numbers.{numbered};
ghost use Rattle.protocol.specs.Forms.{not_space, spaceless, past, asked, asked_of, signal_asked, rule_asked, drop_asked};

use super::numbers::number_at;
use reading::{Class, leading_of};

pub enum Line<'a> {
    // `signal NAME`
    Signal(&'a [u8]),
    // `rule SLOT TEXT`
    Rule(usize, &'a [u8]),
    // `drop SLOT`
    Drop(usize),
}

// Every byte but a space.
struct NotSpace;

impl Class for NotSpace {
    ghost test = { λ _. not_space };

    fn has(&self, b: u8) -> bool {
        b != b' '
    }
}

fn is_spaceless(name: &[u8]) -> bool
    ensures { result ≡ spaceless name.now }
{
    leading_of(&NotSpace, name) == name.len()
}

// What follows these bytes, if the line begins with them.
fn after<'a>(line: &'a [u8], word: &[u8]) -> Option<&'a [u8]>
    ensures { option_map (λ x. x.now) result ≡ past word.now line.now }
{
    line.strip_prefix(word)
}

fn signal_line<'a>(name: &'a [u8]) -> Option<Line<'a>>
    ensures { asked_of result ≡ signal_asked name.now }
{
    if is_spaceless(name) {
        Some(Line::Signal(name))
    } else {
        None
    }
}

fn rule_line<'a>(rest: &'a [u8]) -> Option<Line<'a>>
    ensures { asked_of result ≡ rule_asked (numbered rest.now) }
{
    let slot = number_at(rest)?;
    let text = after(slot.rest, b" ")?;
    Some(Line::Rule(slot.value, text))
}

fn drop_line<'a>(rest: &'a [u8]) -> Option<Line<'a>>
    ensures { asked_of result ≡ drop_asked (numbered rest.now) }
{
    let slot = number_at(rest)?;
    if slot.rest.is_empty() {
        Some(Line::Drop(slot.value))
    } else {
        None
    }
}

// Absent where the line has no known form.
pub fn line_of<'a>(line: &'a [u8]) -> Option<Line<'a>>
    ensures { asked_of result ≡ asked line.now }
{
    if let Some(name) = after(line, b"signal ") {
        return signal_line(name);
    }
    if let Some(rest) = after(line, b"rule ") {
        return rule_line(rest);
    }
    drop_line(after(line, b"drop ")?)
}
