// A lower layer's refusal keeps its number, its layer and its place.
use super::{
    BookCause, Cause, ConsoleCause, Fault, Layer, PlantCause, ReadingCause, SearchCause, WordCause,
};
use std::alloc::AllocError;
use std::test::Fail;

// The number, the layer and the place.
fn told<C: Cause + Drop>(e: Fault<C>) -> (u32, Layer, usize) {
    (e.cause.number(), e.cause.layer(), e.place)
}

#[test]
fn a_word_refused_in_a_rule(rt: HostRuntime) {
    let reading: Fault<ReadingCause> = WordCause::LongWord.at(7).into();
    let book: Fault<BookCause> = reading.into();
    let console: Fault<ConsoleCause> = book.into();
    assert_eq!(rt; reading.cause, ReadingCause::Words(WordCause::LongWord));
    assert_eq!(rt; told(reading), (2, Layer::Words, 7));
    assert_eq!(rt; told(book), (2, Layer::Words, 7));
    assert_eq!(rt; told(console), (2, Layer::Words, 7));
}

#[test]
fn a_search_refused_in_a_book(rt: HostRuntime) {
    let book: Fault<BookCause> = SearchCause::ShortSheet.at(40).into();
    assert_eq!(rt; told(book), (20, Layer::Search, 40));
    assert_eq!(rt; told(PlantCause::BadEdge.at(3)), (17, Layer::Plant, 3));
}

#[test]
fn no_memory_has_no_place(rt: HostRuntime) {
    let book: Fault<BookCause> = AllocError.into();
    assert_eq!(rt; told(book), (30, Layer::Book, 0));
}

#[test]
fn a_refusal_is_printed(rt: HostRuntime) -> Result<(), Fail> {
    let text = format!(in rt.alloc(); "{}", ConsoleCause::NoForm.at(12))?;
    assert_eq!(rt; text.as_str(), "refused 23 12");
    Ok(())
}
