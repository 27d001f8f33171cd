// Runs, mark words, formulas and truth: what every promise above is written in.
#![tactic(auto)]

mod basics;
mod formula;
mod laws;
mod marks;

pub use basics::{has_signal, room_after};
pub use formula::Formula;
pub use laws::truth_unfolds;
pub use marks::is_whole;
