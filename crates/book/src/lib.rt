// The rule book: declared signals and eight slots for rules.
#![tactic(auto)]

mod book;
mod declares;
mod fit;
mod rules;

pub use book::Book;
