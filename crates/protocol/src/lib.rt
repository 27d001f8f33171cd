// What the programs read and write: lines, what each asks for, and the bytes of each answer.
#![tactic(auto)]

mod answers;
mod forms;
mod input;
mod numbers;
mod responses;
mod source;
mod tokens;

pub use answers::{Answer, answer_text};
pub use forms::{Line, line_of};
pub use input::{Cut, Lines, first_line, lines_in};
pub use responses::respond;
pub use source::read_input;
pub use tokens::listing;
