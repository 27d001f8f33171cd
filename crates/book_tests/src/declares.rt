// Declaring signals.
use super::books::{is_refused, new_book};
use book::Book;
use memory::NoMemory;
use std::test::Fail;

#[test]
fn numbers_from_zero(rt: HostRuntime) -> Result<(), Fail> {
    let heap = rt.alloc();
    let mut book = new_book(heap)?;
    assert_eq!(rt; book.declare(&heap, b"p"), Ok(0));
    assert_eq!(rt; book.declare(&heap, b"q2_"), Ok(1));
    is_refused(&rt, book.declare(&heap, b"p"), 13, 0)?;
    assert_eq!(rt; book.signals(), 2);
    assert_eq!(rt; book.signal(b"q2_"), Some(1));
    assert_eq!(rt; book.signal(b"q2"), None);
    Ok(())
}

#[test]
fn texts_that_are_no_name(rt: HostRuntime) -> Result<(), Fail> {
    let heap = rt.alloc();
    let mut book = new_book(heap)?;
    is_refused(&rt, book.declare(&heap, b""), 12, 0)?;
    is_refused(&rt, book.declare(&heap, b"until"), 12, 0)?;
    is_refused(&rt, book.declare(&heap, b" p"), 12, 0)?;
    is_refused(&rt, book.declare(&heap, b"p "), 12, 0)?;
    is_refused(&rt, book.declare(&heap, b"2p"), 12, 0)?;
    is_refused(&rt, book.declare(&heap, b"P"), 12, 0)?;
    is_refused(&rt, book.declare(&heap, b"abcdefghijklmnopq"), 12, 0)?;
    assert_eq!(rt; book.declare(&heap, b"abcdefghijklmnop"), Ok(0));
    Ok(())
}

#[test]
fn sixteen_and_no_more(rt: HostRuntime) -> Result<(), Fail> {
    let heap = rt.alloc();
    let mut book = new_book(heap)?;
    for i in 0..16u8 {
        assert_eq!(rt; book.declare(&heap, &[b'a' + i]), Ok(i as usize));
    }
    is_refused(&rt, book.declare(&heap, b"z"), 14, 0)?;
    is_refused(&rt, book.declare(&heap, b"a"), 13, 0)?;
    is_refused(&rt, book.declare(&heap, b"not"), 12, 0)?;
    assert_eq!(rt; book.signals(), 16);
    Ok(())
}

#[test]
fn want_of_memory_comes_last(rt: HostRuntime) -> Result<(), Fail> {
    let heap = rt.alloc();
    assert!(rt; Book::new(&NoMemory).is_err());
    let mut book = new_book(heap)?;
    is_refused(&rt, book.declare(&NoMemory, b"p"), 30, 0)?;
    is_refused(&rt, book.declare(&NoMemory, b"until"), 12, 0)?;
    assert_eq!(rt; book.signals(), 0);
    assert_eq!(rt; book.declare(&heap, b"p"), Ok(0));
    is_refused(&rt, book.declare(&NoMemory, b"p"), 13, 0)
}
