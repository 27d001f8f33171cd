// What programs in other languages can call: comparisons and benchmarks go through these functions.
#![tactic(auto)]

mod counts;
mod graphs;
mod polish;
mod reads;
mod searches;
mod walks;

pub use reads::{ReadAnswer, mehaldub_read};
pub use searches::{SearchAnswer, mehaldub_search_table};
pub use walks::{WalkAnswer, mehaldub_walk_joint};
