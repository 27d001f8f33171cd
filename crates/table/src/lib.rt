// The table: a plant over rows that the caller holds for reading.
#![tactic(auto)]

mod checks;
mod load;
mod questions;
mod rows;
mod steps;
mod table;

pub use checks::{MAX_EDGE_ROWS, MAX_STATE_ROWS, MAX_TABLE_PROMISES};
pub use rows::{EdgeRow, StateRow};
pub use table::Table;
