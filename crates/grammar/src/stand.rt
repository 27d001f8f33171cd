// Where a scan of a text stands, and which tokens fit there.
ghost use Rattle.std.specs.Prelude.{◌≡◌, ℕ, ◌+◌, ◌^◌, ◌<◌, ◌≤◌, true, false, List, IfOk, if◌then◌else◌};
ghost use Rattle.faults.specs.declared.causes.ReadingCause.TheVariants.{Unfinished};
ghost use Rattle.reading.specs.Names.{names_of};
ghost use Rattle.reading.specs.Tokens.{tok_of};
ghost use Rattle.grammar.specs.Limits.{Stream, end, more};
ghost use Rattle.grammar.specs.Scan.{scan, granted, refusal};
ghost use Rattle.grammar.specs.Stands.{depth_of, goes_on, scan_at};

use super::signal::signal_of;
use faults::{Cause, Fault, ReadingCause};
use reading::{Placed, Token};

// How many `(` are open, where
#[derive(Clone, Copy)]
pub(crate) enum Stand {
    // an operand is due
    Due(usize),
    // an operand has ended
    Ended(usize),
}

// Past a token where an operand is due.
fn past_due(names: &[Vec<u8>], p: Placed, depth: usize) -> Result<Stand, Fault<ReadingCause>>
    requires { depth + 1 < 2 ^ 64 }
    ensures fits { (s : Stream) → scan (names_of names.now) (more (tok_of p.entry.token) p.entry.place s) true depth ≡ goes_on (names_of names.now) s result }
    ensures opens { IfOk result (λ at. depth_of at ≤ depth + 1) }
{
    match p.token {
        Token::True | Token::False => Ok(Stand::Ended(depth)),
        Token::Name(name) => {
            signal_of(names, name).ok_or(ReadingCause::Undeclared.at(p.place))?;
            Ok(Stand::Ended(depth))
        }
        Token::Not | Token::Next | Token::Always | Token::Eventually => Ok(Stand::Due(depth)),
        Token::Open => Ok(Stand::Due(depth + 1)),
        _ => Err(ReadingCause::Misfit.at(p.place)),
    }
}

// Past a token where an operand has ended.
fn past_operand(p: Placed, depth: usize) -> Result<Stand, Fault<ReadingCause>>
    ensures fits { (names : List (List ℕ)) (s : Stream) → scan names (more (tok_of p.entry.token) p.entry.place s) false depth ≡ goes_on names s result }
    ensures opens { IfOk result (λ at. depth_of at ≤ depth) }
{
    match p.token {
        Token::And | Token::Or | Token::Implies | Token::Until => Ok(Stand::Due(depth)),
        Token::Close if depth > 0 => Ok(Stand::Ended(depth - 1)),
        _ => Err(ReadingCause::Misfit.at(p.place)),
    }
}

impl Stand {
    pub(crate) fn past(self, names: &[Vec<u8>], p: Placed) -> Result<Stand, Fault<ReadingCause>>
        requires { depth_of self + 1 < 2 ^ 64 }
        ensures fits { (s : Stream) → scan_at (names_of names.now) (more (tok_of p.entry.token) p.entry.place s) self ≡ goes_on (names_of names.now) s result }
        ensures opens { IfOk result (λ at. depth_of at ≤ depth_of self + 1) }
    {
        match self {
            Stand::Due(depth) => past_due(names, p, depth),
            Stand::Ended(depth) => past_operand(p, depth),
        }
    }

    // A text may end here.
    pub(crate) fn is_whole(self) -> bool
        ensures { (names : List (List ℕ)) (m : ℕ) → scan_at names (end m) self ≡ (if result then granted else refusal Unfinished m) }
    {
        matches!(self, Stand::Ended(0))
    }
}
