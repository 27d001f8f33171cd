// A lower layer's refusal, carried whole by the layer above it.
ghost use Rattle.std.specs.Prelude.{◌≡◌};
ghost use Rattle.faults.specs.Carried.{carried, reading_of_words, book_of_reading, book_of_search, console_of_book, no_memory};

use super::causes::{BookCause, ConsoleCause, ReadingCause, SearchCause, WordCause};
use super::fault::Fault;
use super::numbers::Cause;
use std::alloc::AllocError;

impl From<WordCause> for ReadingCause {
    ghost from_gives = { λ c d. d ≡ reading_of_words c };

    fn from(cause: WordCause) -> ReadingCause {
        ReadingCause::Words(cause)
    }
}

impl From<ReadingCause> for BookCause {
    ghost from_gives = { λ c d. d ≡ book_of_reading c };

    fn from(cause: ReadingCause) -> BookCause {
        BookCause::Reading(cause)
    }
}

impl From<SearchCause> for BookCause {
    ghost from_gives = { λ c d. d ≡ book_of_search c };

    fn from(cause: SearchCause) -> BookCause {
        BookCause::Search(cause)
    }
}

impl From<BookCause> for ConsoleCause {
    ghost from_gives = { λ c d. d ≡ console_of_book c };

    fn from(cause: BookCause) -> ConsoleCause {
        ConsoleCause::Book(cause)
    }
}

impl From<Fault<WordCause>> for Fault<ReadingCause> {
    ghost from_gives = { λ e f. f ≡ carried reading_of_words e };

    fn from(e: Fault<WordCause>) -> Fault<ReadingCause> {
        e.carried()
    }
}

impl From<Fault<ReadingCause>> for Fault<BookCause> {
    ghost from_gives = { λ e f. f ≡ carried book_of_reading e };

    fn from(e: Fault<ReadingCause>) -> Fault<BookCause> {
        e.carried()
    }
}

impl From<Fault<SearchCause>> for Fault<BookCause> {
    ghost from_gives = { λ e f. f ≡ carried book_of_search e };

    fn from(e: Fault<SearchCause>) -> Fault<BookCause> {
        e.carried()
    }
}

impl From<Fault<BookCause>> for Fault<ConsoleCause> {
    ghost from_gives = { λ e f. f ≡ carried console_of_book e };

    fn from(e: Fault<BookCause>) -> Fault<ConsoleCause> {
        e.carried()
    }
}

// Want of memory has no place in a text.
impl From<AllocError> for Fault<BookCause> {
    ghost from_gives = { λ _ f. f ≡ no_memory };

    fn from(_e: AllocError) -> Fault<BookCause> {
        BookCause::NoMemory.at(0)
    }
}
