// The state of a reading: the reader, one token of look-ahead and a count.
ghost use Rattle.std.specs.Prelude.{◌≡◌, ◌≢◌, ◌≤◌, true, false, is_some, if◌then◌else◌, None};
ghost use Rattle.faults.specs.declared.causes.ReadingCause.TheVariants.{ManyTokens};
ghost use Rattle.reading.specs.Tokens.{tok_of};
ghost use Rattle.grammar.specs.Limits.{is_too_many, tally};
ghost use Rattle.grammar.specs.Left.{left, Falls};
ghost use Rattle.grammar.specs.Ahead.{after, stream_of, Fetched, place_of, On, op_rank, infix_tok, infix_rank, InfixIs, DueIs};

use faults::{Cause, Fault, ReadingCause};
use reading::{Placed, Reader, Token};

const MOST_TOKENS: u32 = 32;

#[derive(Drop)]
pub(crate) struct State<'a> {
    pub(crate) reader: Reader<'a>,
    pub(crate) ahead: Option<Placed<'a>>,
    pub(crate) count: u32,
}

// How many tokens that are no parenthesis there are with this one, unless it is one too many.
fn tallied(p: Placed, count: u32) -> Result<u32, Fault<ReadingCause>>
    ensures { result ≡ (if is_too_many (tok_of p.entry.token) count then Err (record { cause = ManyTokens; place = p.entry.place }) else Ok (tally (tok_of p.entry.token) count)) }
{
    match p.token {
        Token::Open | Token::Close => Ok(count),
        _ if count < MOST_TOKENS => Ok(count + 1),
        _ => Err(ReadingCause::ManyTokens.at(p.place)),
    }
}

impl<'a> State<'a> {
    pub(crate) fn new(text: &'a [u8]) -> State<'a>
        ensures { (result.reader.text ≡ text.entry) × (result.reader.at ≡ 0) × (result.ahead ≡ None) × (result.count ≡ 0) }
    {
        State {
            reader: Reader::new(text),
            ahead: None,
            count: 0,
        }
    }

    // Reads the next token into the look-ahead.
    pub(crate) fn fetch(&mut self) -> Result<(), Fault<ReadingCause>>
        ensures same { self.new.reader.text ≡ self.old.reader.text }
        ensures told { Fetched result (after self.old) (stream_of self.new) }
        ensures shrinks { left self.new ≤ left self.old }
        ensures falls { is_some self.old.ahead ≡ true → Falls result (left self.new) (left self.old) }
    {
        self.ahead = self.reader.next()?;
        if let Some(p) = self.ahead {
            self.count = tallied(p, self.count)?;
        }
        Ok(())
    }

    // Goes past the token that is ahead.
    pub(crate) fn advance(&mut self) -> Result<(), Fault<ReadingCause>>
        requires { is_some self.old.ahead ≡ true }
        ensures same { self.new.reader.text ≡ self.old.reader.text }
        ensures told { Fetched result (after self.old) (stream_of self.new) }
        ensures falls { Falls result (left self.new) (left self.old) }
    {
        self.fetch()
    }

    // A refusal where the token ahead stands, or at the text's end.
    pub(crate) fn refusal(&self, cause: ReadingCause) -> Fault<ReadingCause>
        ensures { result ≡ record { cause = cause; place = place_of self.now } }
    {
        match self.ahead {
            Some(p) => cause.at(p.place),
            None => cause.at(self.reader.text_len()),
        }
    }

    // Which operator between two operands is ahead.
    fn infix(&self) -> Option<Infix>
        ensures { InfixIs self.now result }
    {
        match self.ahead?.token {
            Token::Implies => Some(Infix::Implies),
            Token::Or => Some(Infix::Or),
            Token::And => Some(Infix::And),
            Token::Until => Some(Infix::Until),
            _ => None,
        }
    }

    // Whether this operator is ahead.
    pub(crate) fn is_at(&self, op: Infix) -> bool
        ensures yes { result ≡ true → On self.now (infix_tok op) }
        ensures no { result ≡ false → op_rank (stream_of self.now) ≢ infix_rank op }
    {
        self.infix() == Some(op)
    }

    // What is ahead where an operand is due.
    pub(crate) fn due(&self) -> Result<Due<'a>, Fault<ReadingCause>>
        ensures { DueIs self.now result }
    {
        let Some(p) = self.ahead else {
            return Err(self.refusal(ReadingCause::Unfinished));
        };
        match p.token {
            Token::True => Ok(Due::True),
            Token::False => Ok(Due::False),
            Token::Name(w) => Ok(Due::Name(w)),
            Token::Not => Ok(Due::Prefix(Prefix::Not)),
            Token::Next => Ok(Due::Prefix(Prefix::Next)),
            Token::Always => Ok(Due::Prefix(Prefix::Always)),
            Token::Eventually => Ok(Due::Prefix(Prefix::Eventually)),
            Token::Open => Ok(Due::Open),
            _ => Err(self.refusal(ReadingCause::Misfit)),
        }
    }
}

// The operators between two operands.
#[derive(Clone, Copy, PartialEq, Eq)]
pub(crate) enum Infix {
    Implies,
    Or,
    And,
    Until,
}

#[derive(Clone, Copy)]
pub(crate) enum Prefix {
    Not,
    Next,
    Always,
    Eventually,
}

// How an operand begins.
#[derive(Clone, Copy)]
pub(crate) enum Due<'a> {
    True,
    False,
    Name(&'a [u8]),
    Prefix(Prefix),
    Open,
}
