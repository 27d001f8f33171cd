// Verdicts on a book over a plant.
#![tactic(auto)]

mod sheets;
