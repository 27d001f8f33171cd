// One line in, one answer out.
ghost use Rattle.std.specs.Prelude.{◌≡◌};
ghost use Rattle.book.specs.Standing.{state_of};
ghost use Rattle.protocol.specs.Forms.{asked};
ghost use Rattle.protocol.specs.Responses.{answered, Responds};

use super::answers::Answer;
use super::forms::{Line, line_of};
use book::Book;
use faults::{BookCause, Cause, ConsoleCause, Fault};
use memory::Memory;

// The book's answer, its refusal carried whole.
fn answer<T: Drop>(called: Result<T, Fault<BookCause>>) -> Answer
    ensures { result ≡ answered called }
{
    Answer(called.map(|_| ()).map_err(Fault::from))
}

// Makes the call that the line asks for.
pub fn respond<M: Memory>(book: &mut Book, memory: &M, line: &[u8]) -> Answer
    ensures { Responds (M.Memory.plenty memory.now) (state_of book.old) (asked line.now) result (state_of book.new) }
{
    match line_of(line) {
        Some(Line::Signal(name)) => answer(book.declare(memory, name)),
        Some(Line::Rule(slot, text)) => answer(book.take(memory, slot, text)),
        Some(Line::Drop(slot)) => answer(book.drop_rule(slot)),
        None => Answer(Err(ConsoleCause::NoForm.at(0))),
    }
}
