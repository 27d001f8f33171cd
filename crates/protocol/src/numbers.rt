// Numbers of one to four digits.
ghost use Rattle.std.specs.Prelude.{◌≡◌, ◌≤◌, length};
ghost use Rattle.protocol.specs.Numbers.{is_digit, value_of_digits, numbered, numbered_of};

use reading::{Class, leading_of};

const MOST_DIGITS: usize = 4;

struct Digit;

impl Class for Digit {
    ghost test = { λ _. is_digit };

    fn has(&self, b: u8) -> bool {
        b.is_ascii_digit()
    }
}

// A number at the front of a text, and what follows it.
#[derive(Clone, Copy)]
pub(crate) struct Numbered<'a> {
    pub(crate) value: usize,
    pub(crate) rest: &'a [u8],
}

fn value_of(digits: &[u8]) -> usize
    requires { length digits.now ≤ 4 }
    ensures { result ≡ value_of_digits digits.now }
{
    // A loop, since a fold's closure cannot show that the number stays small (`fold-requires-clause-callable`).
    let mut n = 0;
    for b in digits {
        n = n * 10 + b.saturating_sub(b'0') as usize;
    }
    n
}

pub(crate) fn number_at<'a>(text: &'a [u8]) -> Option<Numbered<'a>>
    ensures { numbered_of result ≡ numbered text.now }
{
    let n = leading_of(&Digit, text);
    if n == 0 || n > MOST_DIGITS {
        return None;
    }
    Some(Numbered {
        value: value_of(&text[..n]),
        rest: &text[n..],
    })
}
