// Reading a rule text, from outside. The answers are compared with another reader's; `grammar::read` promises them.
use super::polish::put_formula;
use faults::Cause;
use grammar::{Unread, read};
use memory::copy_of;
use std::alloc::{AllocError, Global};

// What came of a text: number 0 where it is a formula, whose bytes then stand in front of the lent row, so many; 30 for want of memory.
// Numbers and not a Result, since C reads it.
#[repr(C)]
pub struct ReadAnswer {
    pub number: u32,
    pub place: usize,
    pub len: usize,
}

// The names a, b and c.
fn letters(heap: Global) -> Result<Vec<Vec<u8>>, AllocError> {
    let mut names = Vec::new(heap);
    for letter in b"abc" {
        names.push(copy_of(&heap, &[*letter])?)?;
    }
    Ok(names)
}

// Reads a text over the signals a, b and c.
#[unsafe(no_mangle)]
pub extern "C" fn mehaldub_read(
    heap: Global,
    text: &[u8],
    out: &mut [u8],
    answer: &mut ReadAnswer,
) {
    answer.len = 0;
    answer.place = 0;
    answer.number = 30;
    let Ok(names) = letters(heap) else {
        return;
    };
    match read(&heap, names.as_slice(), text) {
        Ok(f) => {
            answer.number = 0;
            answer.len = put_formula(out, 0, &f);
        }
        Err(Unread::Refused(e)) => {
            answer.number = e.cause.number();
            answer.place = e.place;
        }
        Err(Unread::NoMemory) => {}
    }
}
