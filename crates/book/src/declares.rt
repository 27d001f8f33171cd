// A new book, and the signals that are declared in it.
ghost use Rattle.std.specs.Prelude.{◌≡◌, ◌+◌, ◌<◌, true, [], ◌∷◌, ◌++◌, length, replicate, is_ok, None, vec_len, vec_capacity, MatchResult};
ghost use Rattle.std.specs.Option.{option_map};
ghost use Rattle.std.specs.Result.{result_err};
ghost use Rattle.faults.specs.Refusals.{book_refusal};
ghost use Rattle.reading.specs.Names.{found};
ghost use Rattle.reading.specs.Tokens.{tok_of};
ghost use Rattle.book.specs.Names.{is_one_name, name_in};
ghost use Rattle.book.specs.Standing.{state_of, fresh};
ghost use Rattle.book.specs.Calls.{at_zero, want_of_memory, cause_of_declare, Declared};

use super::book::{Book, SLOTS};
use faults::{BookCause, Cause, Fault};
use logic::Formula;
use memory::{Memory, copy_of};
use reading::{Reader, Token, find_name};
use std::array;

const SIGNALS: usize = 16;

// Whether the token is a name of so many bytes.
fn is_name_of(token: Token, len: usize) -> bool
    ensures { result ≡ name_in len (tok_of token.entry) }
{
    matches!(token, Token::Name(w) if w.len() == len)
}

// Whether the text is one word that is not reserved.
fn is_name(name: &[u8]) -> bool
    ensures { result ≡ is_one_name name.now }
{
    match Reader::new(name).next() {
        Ok(Some(first)) => is_name_of(first.token, name.len()),
        Ok(None) => false,
        Err(_) => false,
    }
}

fn empty_slots() -> [Option<Formula>; SLOTS]
    ensures { result ≡ replicate 8 None }
{
    array::from_fn(|_| None)
}

// Puts a name behind the others.
fn store(names: &mut Vec<Vec<u8>>, name: Vec<u8>)
    requires { vec_len names.old < vec_capacity names.old }
    ensures items { names.new.items ≡ names.old.items ++ name ∷ [] }
    ensures len { vec_len names.new ≡ vec_len names.old + 1 }
    ensures capacity { vec_capacity names.new ≡ vec_capacity names.old }
{
    names.push_reserved(name);
}

impl Book {
    // No signal and eight empty slots.
    pub fn new<M: Memory>(memory: &M) -> Result<Book, Fault<BookCause>>
        ensures made { MatchResult result (λ b. state_of b ≡ fresh) (λ e. book_refusal e ≡ want_of_memory) }
        ensures honest { M.Memory.plenty memory.now → is_ok result ≡ true }
    {
        let names = memory.row(SIGNALS)?;
        Ok(Book {
            names,
            slots: empty_slots(),
        })
    }

    // How many signals are declared.
    pub fn signals(&self) -> usize
        ensures { result ≡ length (state_of self.now).names }
    {
        self.names.len()
    }

    // The number of a declared name.
    pub fn signal(&self, name: &[u8]) -> Option<usize>
        ensures { result ≡ found (state_of self.now).names name.now 0 }
    {
        find_name(self.names.as_slice(), name)
    }

    // That the name can be declared, or the first cause why it cannot.
    fn admits(&self, name: &[u8]) -> Result<(), BookCause>
        ensures { option_map at_zero (result_err result) ≡ cause_of_declare (state_of self.now) name.now }
    {
        if !is_name(name) {
            return Err(BookCause::NoName);
        }
        if self.signal(name).is_some() {
            return Err(BookCause::Declared);
        }
        if self.signals() >= SIGNALS {
            return Err(BookCause::ManySignals);
        }
        Ok(())
    }

    // Gives a name the next signal number.
    pub fn declare<M: Memory>(&mut self, memory: &M, name: &[u8]) -> Result<usize, Fault<BookCause>>
        ensures declared { Declared (state_of self.old) name.now result (state_of self.new) }
        ensures honest { M.Memory.plenty memory.now → cause_of_declare (state_of self.old) name.now ≡ None → is_ok result ≡ true }
    {
        self.admits(name).map_err(|cause| cause.at(0))?;
        let copy = copy_of(memory, name)?;
        let number = self.names.len();
        store(&mut self.names, copy);
        Ok(number)
    }
}
