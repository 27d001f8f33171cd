// What stands at the front of a text.
ghost use Rattle.std.specs.Prelude.{◌≡◌, ◌≤◌, length, IfOk};
ghost use Rattle.std.specs.List.{prefix_len};
ghost use Rattle.std.specs.Str.{bytes_eq};
ghost use Rattle.reading.specs.Tokens.{symbol_of, word, word_byte, word_of, tok_of, classify, TokenAt};
ghost use Rattle.reading.specs.Front.{front_of, worded, Long, Lies};

use super::classes::{WordByte, leading_of};
use super::token::Token;
use faults::WordCause;

const LONGEST_WORD: usize = 16;

// The token of one byte, if it is one.
fn symbol(c: char) -> Option<Token<'static>>
    ensures { result ≡ symbol_of c }
{
    match c {
        '(' => Some(Token::Open),
        ')' => Some(Token::Close),
        '&' => Some(Token::And),
        '|' => Some(Token::Or),
        _ => None,
    }
}

pub(crate) fn is(w: &[u8], known: &[u8]) -> bool
    ensures { result ≡ bytes_eq w.now known.now }
{
    w == known
}

// The token that a word is: reserved, or a name. A match on the words would say the same, but its last arm is forty
// cases for the proof.
fn word_token<'a>(w: &'a [u8]) -> Token<'a>
    ensures what { tok_of result ≡ word_of w.now }
    ensures lies { TokenAt result w.entry.ref_ptr }
{
    if is(w, b"not") {
        Token::Not
    } else if is(w, b"next") {
        Token::Next
    } else if is(w, b"always") {
        Token::Always
    } else if is(w, b"eventually") {
        Token::Eventually
    } else if is(w, b"until") {
        Token::Until
    } else if is(w, b"true") {
        Token::True
    } else if is(w, b"false") {
        Token::False
    } else {
        Token::Name(w)
    }
}

// The word at the front of a text, with its length.
fn word_at_front<'a>(tail: &'a [u8]) -> Result<(Token<'a>, usize), WordCause>
    ensures what { worded result ≡ word tail.now (prefix_len word_byte tail.now) }
    ensures lies { IfOk result (λ p. TokenAt p.0 tail.entry.ref_ptr) }
    ensures long { IfOk result (λ p. (p.1 ≡ prefix_len word_byte tail.now) × (p.1 ≤ length tail.now)) }
{
    let n = leading_of(&WordByte, tail);
    if n > LONGEST_WORD {
        return Err(WordCause::LongWord);
    }
    Ok((word_token(&tail[..n]), n))
}

// Of a text that begins with no blank: a token with its length, or absent at the end.
pub(crate) fn at_front<'a>(tail: &'a [u8]) -> Result<Option<(Token<'a>, usize)>, WordCause>
    ensures what { front_of result ≡ classify tail.now }
    ensures long { Long result (length tail.now) }
    ensures lies { Lies result tail.entry.ref_ptr }
{
    match tail {
        [] => Ok(None),
        [b'-', b'>', rest @ ..] => Ok(Some((Token::Implies, tail.len() - rest.len()))),
        [b, ..] if b.is_ascii_lowercase() => Ok(Some(word_at_front(tail)?)),
        [b, ..] => Ok(Some((symbol(*b as char).ok_or(WordCause::NoToken)?, 1))),
    }
}
