// Plants: the seven questions that every plant answers, the steps of a state, the free plant and the probe.
#![tactic(auto)]

mod free;
mod plant;
mod probe;
mod stepping;

pub use free::Free;
pub use plant::{MAX_PROMISES, MAX_STATES, Plant};
pub use probe::{Probe, Value};
pub use stepping::{StepsOf, steps, steps_from};
