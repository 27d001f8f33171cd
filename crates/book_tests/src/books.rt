// Books to start from, and what is expected of a call.
use book::Book;
use faults::{BookCause, Cause, Fault};
use std::alloc::Global;
use std::process::Abort;
use std::test::Fail;

pub(crate) fn new_book(heap: Global) -> Result<Book, Fail> {
    Book::new(&heap).map_err(|_| Fail::new("no memory for a book"))
}

// The signals a, b, c and so on.
pub(crate) fn book_of(rt: &impl Abort, heap: Global, signals: u8) -> Result<Book, Fail> {
    let mut book = new_book(heap)?;
    for i in 0..signals.min(16) {
        assert!(rt; book.declare(&heap, &[b'a' + i]).is_ok());
    }
    Ok(book)
}

pub(crate) fn is_refused<T: Drop>(
    rt: &impl Abort,
    answer: Result<T, Fault<BookCause>>,
    number: u32,
    place: usize,
) -> Result<(), Fail> {
    let Err(e) = answer else {
        return Err(Fail::new("granted"));
    };
    assert_eq!(rt; (e.cause.number(), e.place), (number, place));
    Ok(())
}
