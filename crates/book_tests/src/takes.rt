// Taking rules into slots, and dropping them.
use super::books::{book_of, is_refused};
use faults::{BookCause, Cause, Layer, ReadingCause, WordCause};
use memory::NoMemory;
use std::test::Fail;

#[test]
fn all_eight_slots(rt: HostRuntime) -> Result<(), Fail> {
    let heap = rt.alloc();
    let mut book = book_of(&rt, heap, 8)?;
    for i in 0..8u8 {
        assert_eq!(rt; book.take(&heap, i as usize, &[b'a' + i]), Ok(()));
    }
    is_refused(&rt, book.take(&heap, 7, b"a"), 8, 0)?;
    is_refused(&rt, book.take(&heap, 8, b"a"), 7, 0)?;
    assert_eq!(rt; book.drop_rule(7), Ok(()));
    is_refused(&rt, book.drop_rule(7), 9, 0)?;
    is_refused(&rt, book.drop_rule(8), 7, 0)?;
    assert_eq!(rt; book.take(&heap, 7, b"a & h"), Ok(()));
    Ok(())
}

#[test]
fn twelve_basics_and_no_more(rt: HostRuntime) -> Result<(), Fail> {
    let heap = rt.alloc();
    let mut book = book_of(&rt, heap, 4)?;
    assert_eq!(rt; book.take(&heap, 0, b"always (a -> eventually b)"), Ok(()));
    assert_eq!(rt; book.take(&heap, 1, b"next next next c & a"), Ok(()));
    is_refused(&rt, book.take(&heap, 2, b"next next next next d"), 11, 0)?;
    assert_eq!(rt; book.take(&heap, 2, b"next next next d"), Ok(()));
    is_refused(&rt, book.take(&heap, 3, b"eventually a"), 11, 0)?;
    assert_eq!(rt; book.take(&heap, 3, b"a & b & (c | d) & a"), Ok(()));
    assert_eq!(rt; book.drop_rule(2), Ok(()));
    assert_eq!(rt; book.take(&heap, 2, b"eventually a & always a"), Ok(()));
    Ok(())
}

#[test]
fn twelve_times_next(rt: HostRuntime) -> Result<(), Fail> {
    let heap = rt.alloc();
    let mut book = book_of(&rt, heap, 0)?;
    is_refused(
        &rt,
        book.take(
            &heap,
            0,
            b"next next next next next next next next next next next next next true",
        ),
        11,
        0,
    )?;
    assert_eq!(rt;
        book.take(
            &heap,
            0,
            b"next next next next next next next next next next next next true",
        ),
        Ok(())
    );
    Ok(())
}

#[test]
fn long_texts(rt: HostRuntime) -> Result<(), Fail> {
    let heap = rt.alloc();
    let mut book = book_of(&rt, heap, 1)?;
    let mut text = vec![in heap; b' '; 513]?;
    assert!(rt; text.len() == 513);
    text[0] = b'a';
    is_refused(&rt, book.take(&heap, 0, text.as_slice()), 10, 512)?;
    assert_eq!(rt; book.take(&heap, 0, &text[0..512]), Ok(()));
    is_refused(&rt, book.take(&heap, 0, text.as_slice()), 8, 0)
}

#[test]
fn faults_of_the_words_come_whole(rt: HostRuntime) -> Result<(), Fail> {
    let heap = rt.alloc();
    let mut book = book_of(&rt, heap, 2)?;
    is_refused(&rt, book.take(&heap, 0, b""), 4, 0)?;
    is_refused(&rt, book.take(&heap, 0, b"( a"), 4, 3)?;
    is_refused(&rt, book.take(&heap, 0, b"a b"), 3, 2)?;
    is_refused(&rt, book.take(&heap, 0, b"a & z"), 5, 4)?;
    let Err(e) = book.take(&heap, 0, b"a -b") else {
        return Err(Fail::new("granted"));
    };
    let cause = BookCause::Reading(ReadingCause::Words(WordCause::NoToken));
    assert_eq!(rt; e, cause.at(2));
    assert_eq!(rt; e.cause.layer(), Layer::Words);
    Ok(())
}

#[test]
fn want_of_memory_comes_last(rt: HostRuntime) -> Result<(), Fail> {
    let heap = rt.alloc();
    let mut book = book_of(&rt, heap, 2)?;
    is_refused(&rt, book.take(&NoMemory, 0, b"not a"), 30, 0)?;
    is_refused(&rt, book.take(&NoMemory, 0, b"not a b"), 3, 6)?;
    is_refused(
        &rt,
        book.take(
            &NoMemory,
            0,
            b"next next next next next next next next next next next next a",
        ),
        11,
        0,
    )?;
    assert_eq!(rt; book.take(&NoMemory, 0, b"a"), Ok(()));
    is_refused(&rt, book.take(&NoMemory, 0, b"not a"), 8, 0)
}
