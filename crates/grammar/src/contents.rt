// What a text tells before it is read: its first refusal, or what its formula holds.
ghost use Rattle.std.specs.Prelude.{◌≡◌, ℕ, ◌+◌, ◌<◌, ◌≤◌, false, ◌||◌, IfSome, if◌then◌else◌, slice_index_or};
ghost use Rattle.reading.specs.Names.{names_of};
ghost use Rattle.reading.specs.Tokens.{tok_of};
ghost use Rattle.grammar.specs.Counts.{is_temporal, is_name_of, is_signal};
ghost use Rattle.grammar.specs.Answers.{SurveyedAs};

use super::signal::signal_of;
use super::stand::Stand;
use super::state::State;
use faults::{Cause, Fault, ReadingCause};
use reading::Token;

// What the formula of a text holds.
#[derive(Clone, Copy)]
pub struct Contents {
    // How often `next`, `until`, `always` and `eventually` occur.
    pub operators: u32,
    // Of each signal, by its number, whether it occurs.
    pub signals: [bool; 16],
}

fn looks_ahead(token: Token) -> bool
    ensures { result ≡ is_temporal (tok_of token.entry) }
{
    matches!(
        token,
        Token::Until | Token::Next | Token::Always | Token::Eventually
    )
}

// The signal that a token names.
fn signal_in(names: &[Vec<u8>], token: Token) -> Option<u8>
    ensures value { (g : ℕ) → is_signal result g ≡ is_name_of (names_of names.now) (tok_of token.entry) g }
    ensures within { IfSome result (λ g. g < 16) }
{
    match token {
        Token::Name(name) => signal_of(names, name),
        _ => None,
    }
}

impl Contents {
    // With one token more.
    fn with(self, names: &[Vec<u8>], token: Token) -> Contents
        requires { self.operators ≤ 32 }
        ensures operators { result.operators ≡ self.operators + (if is_temporal (tok_of token.entry) then 1 else 0) }
        ensures signals { (g : ℕ) → g < 16 → slice_index_or result.signals g false ≡ (slice_index_or self.signals g false || is_name_of (names_of names.now) (tok_of token.entry) g) }
    {
        let operators = if looks_ahead(token) {
            self.operators + 1
        } else {
            self.operators
        };
        let mut signals = self.signals;
        if let Some(g) = signal_in(names, token) {
            signals[g as usize] = true;
        }
        Contents { operators, signals }
    }
}

pub fn survey(names: &[Vec<u8>], text: &[u8]) -> Result<Contents, Fault<ReadingCause>>
    ensures { SurveyedAs (names_of names.now) text.now result }
{
    let mut s = State::new(text);
    let mut at = Stand::Due(0);
    let mut seen = Contents {
        operators: 0,
        signals: [false; 16],
    };
    s.fetch()?;
    while let Some(p) = s.ahead {
        at = at.past(names, p)?;
        seen = seen.with(names, p.token);
        s.fetch()?;
    }
    if at.is_whole() {
        Ok(seen)
    } else {
        Err(ReadingCause::Unfinished.at(text.len()))
    }
}
