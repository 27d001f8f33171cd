// Rule text cut into tokens. A name's token borrows the text.
#![tactic(auto)]

mod classes;
mod front;
mod names;
mod next;
mod reader;
mod token;

pub use classes::{Class, leading_of};
pub use names::find_name;
pub use reader::Reader;
pub use token::{Placed, Token};
