// How a rule text is cut into tokens, for its writer to read.
ghost use Rattle.std.specs.Prelude.{◌≡◌, ◌++◌, IfOk, codes, decimal, OnOk};
ghost use Rattle.reading.specs.Tokens.{tok_of};
ghost use Rattle.reading.specs.Rows.{row};
ghost use Rattle.faults.specs.Numbers.{word_number};
ghost use Rattle.protocol.specs.Answers.{refused_text};
ghost use Rattle.protocol.specs.Listings.{kind_text, token_line, listed};

use faults::{Fault, WordCause};
use reading::{Placed, Reader, Token};
use std::alloc::{AllocError, Global};

// The word for a token's kind, and after it a name's own text.
fn kind<'a>(token: Token<'a>) -> (&'static [u8], &'a [u8])
    ensures { result.0.now ++ result.1.now ≡ kind_text (tok_of token.entry) }
{
    match token {
        Token::Open => (b"open", b""),
        Token::Close => (b"close", b""),
        Token::And => (b"and", b""),
        Token::Or => (b"or", b""),
        Token::Implies => (b"implies", b""),
        Token::Until => (b"until", b""),
        Token::Not => (b"not", b""),
        Token::Next => (b"next", b""),
        Token::Always => (b"always", b""),
        Token::Eventually => (b"eventually", b""),
        Token::True => (b"true", b""),
        Token::False => (b"false", b""),
        Token::Name(w) => (b"name ", w),
    }
}

// Writes `PLACE KIND`, a line of its own.
fn put_token(out: &mut Vec<u8>, placed: Placed) -> Result<(), AllocError>
    ensures { OnOk result (out.new.items ≡ out.old.items ++ token_line (tok_of placed.entry.token) placed.entry.place) }
{
    let place = placed.place;
    let (word, name) = kind(placed.token);
    let front = format!(in *out.allocator(); "{place} ")?;
    out.extend_from_slice(front.as_bytes())?;
    out.extend_from_slice(word)?;
    out.extend_from_slice(name)?;
    out.extend_from_slice(b"\n")?;
    Ok(())
}

// Writes `LENGTH end`, a line of its own. It and the next differ in a format, which is no value that a parameter could carry.
fn put_end(out: &mut Vec<u8>, len: usize) -> Result<(), AllocError>
    ensures { OnOk result (out.new.items ≡ out.old.items ++ (decimal len ++ codes " end\n")) }
{
    let line = format!(in *out.allocator(); "{len} end\n")?;
    out.extend_from_slice(line.as_bytes())
}

// Writes the refusal, a line of its own.
fn put_fault(out: &mut Vec<u8>, fault: Fault<WordCause>) -> Result<(), AllocError>
    ensures { OnOk result (out.new.items ≡ out.old.items ++ (refused_text (word_number fault.cause) fault.place ++ codes "\n")) }
{
    let line = format!(in *out.allocator(); "{fault}\n")?;
    out.extend_from_slice(line.as_bytes())
}

// Each token of the text with its place and kind, a line each, then its end or the refusal.
pub fn listing(heap: Global, text: &[u8]) -> Result<Vec<u8>, AllocError>
    ensures { IfOk result (λ v. v.items ≡ listed (row text.now)) }
{
    let mut out = Vec::new(heap);
    let mut reader = Reader::new(text);
    loop {
        match reader.next() {
            Ok(Some(placed)) => put_token(&mut out, placed)?,
            Ok(None) => {
                put_end(&mut out, text.len())?;
                return Ok(out);
            }
            Err(fault) => {
                put_fault(&mut out, fault)?;
                return Ok(out);
            }
        }
    }
}
