// One token after another.
ghost use Rattle.std.specs.Prelude.{◌≡◌, length};
ghost use Rattle.reading.specs.Tokens.{lex, answer_of, Moves, LiesAt};

use super::classes::{Blank, leading_of};
use super::front::at_front;
use super::reader::Reader;
use super::token::Placed;
use faults::{Cause, Fault, WordCause};

impl<'a> Reader<'a> {
    pub fn new(text: &'a [u8]) -> Reader<'a>
        ensures { (result.text ≡ text.entry) × (result.at ≡ 0) }
    {
        Reader { text, at: 0 }
    }

    // How many bytes the whole text has.
    pub fn text_len(&self) -> usize
        ensures { result ≡ length self.now.text.now }
    {
        self.text.len()
    }

    // The next token, or absent at the end.
    pub fn next(&mut self) -> Result<Option<Placed<'a>>, Fault<WordCause>>
        ensures same { self.new.text ≡ self.old.text }
        ensures answer { answer_of result self.new.at ≡ lex self.old.text.now self.old.at }
        ensures lies { LiesAt result self.old.text.ref_ptr }
        ensures moves { Moves result self.old.at self.new.at }
    {
        let text = self.text;
        let place = self.at + leading_of(&Blank, &text[self.at..]);
        match at_front(&text[place..]) {
            Ok(None) => {
                self.at = place;
                Ok(None)
            }
            Ok(Some((token, len))) => {
                self.at = place + len;
                Ok(Some(Placed { token, place }))
            }
            Err(cause) => Err(cause.at(place)),
        }
    }
}
