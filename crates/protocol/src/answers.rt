// What is answered to a line.
ghost use Rattle.std.specs.Prelude.{◌≡◌, IfOk, Some, string_bytes};
ghost use Rattle.protocol.specs.Answers.{text_of_answer};

use faults::{ConsoleCause, Fault};
use std::alloc::{AllocError, Global};
use std::fmt;

// That the call was granted, or its refusal.
#[derive(Clone, Copy)]
pub struct Answer(pub Result<(), Fault<ConsoleCause>>);

impl fmt::Display for Answer {
    ghost output = { λ a. Some (text_of_answer a) };

    fn fmt<W: fmt::Write>(&self, f: &mut fmt::Formatter<W>) -> fmt::Result {
        match self.0 {
            Ok(_) => write!(f, "ok"),
            Err(fault) => write!(f, "{fault}"),
        }
    }
}

// The bytes that are written for an answer.
pub fn answer_text(heap: Global, answer: &Answer) -> Result<String, AllocError>
    ensures { IfOk result (λ t. string_bytes t ≡ text_of_answer answer.now) }
{
    format!(in heap; "{answer}")
}
