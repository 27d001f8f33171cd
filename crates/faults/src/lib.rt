// Why a call is refused, and where: the whole table of refusals.
#![tactic(auto)]

mod carried;
mod causes;
mod fault;
mod layer;
mod numbers;

pub use causes::{BookCause, ConsoleCause, PlantCause, ReadingCause, SearchCause, WordCause};
pub use fault::Fault;
pub use layer::Layer;
pub use numbers::Cause;

#[cfg(test)]
mod tests;
