// What plants answer on examples.
#![tactic(auto)]

#[cfg(test)]
mod joints;
#[cfg(test)]
mod loads;
#[cfg(test)]
mod probes;
#[cfg(test)]
mod samples;
#[cfg(test)]
mod tables;
