// Rule texts read into formulas: each text has at most one, and every refusal is exact.
#![tactic(auto)]

mod contents;
mod laws;
mod parse;
mod signal;
mod stand;
mod state;
mod unread;

pub use contents::{Contents, survey};
pub use laws::{one_formula, samples_hold, scan_derives};
pub use parse::read;
pub use unread::Unread;
