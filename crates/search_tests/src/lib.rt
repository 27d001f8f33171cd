// What the search answers on examples.
#![tactic(auto)]

#[cfg(test)]
mod areas;
#[cfg(test)]
mod found;
#[cfg(test)]
mod samples;
