// Why a text gave no formula.
ghost use Rattle.std.specs.Prelude.{◌≡◌};
ghost use Rattle.grammar.specs.Untaken.{book_of_unread};
ghost use Rattle.grammar.specs.declared.unread.Unread.TheVariants.{Refused, NoMemory};

use faults::{BookCause, Cause, Fault, ReadingCause};
use std::alloc::AllocError;

#[derive(Clone, Copy)]
pub enum Unread {
    // The text is no formula.
    Refused(Fault<ReadingCause>),
    // The text is a formula, and there is no memory to hold it.
    NoMemory,
}

impl From<Fault<ReadingCause>> for Unread {
    ghost from_gives = { λ e u. u ≡ Refused e };

    fn from(e: Fault<ReadingCause>) -> Unread {
        Unread::Refused(e)
    }
}

impl From<AllocError> for Unread {
    ghost from_gives = { λ _ u. u ≡ NoMemory };

    fn from(_e: AllocError) -> Unread {
        Unread::NoMemory
    }
}

// What a book tells of a text that gave no formula.
impl From<Unread> for Fault<BookCause> {
    ghost from_gives = { λ u e. e ≡ book_of_unread u };

    fn from(u: Unread) -> Fault<BookCause> {
        match u {
            Unread::Refused(e) => Fault::from(e),
            Unread::NoMemory => BookCause::NoMemory.at(0),
        }
    }
}
