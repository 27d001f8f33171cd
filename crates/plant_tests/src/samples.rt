// Rows and probes, and the answers that the examples look at.
use faults::{Cause, Fault, PlantCause};
use plant::{Plant, Probe, Value};
use table::{EdgeRow, StateRow, Table};

pub(crate) fn state(start: bool, fulfils: u32, marks: u32) -> StateRow {
    StateRow {
        start,
        fulfils,
        marks,
    }
}

// Written in each test crate: a shared one would be a public function for tests alone.
pub(crate) fn edge(from: u32, to: u32) -> EdgeRow {
    EdgeRow { from, to }
}

pub(crate) fn probe(step: u32, signal: u8, value: Value) -> Probe {
    Probe {
        step,
        signal,
        value,
    }
}

// Fit or not, the states and the promises.
pub(crate) fn sizes<P: Plant>(p: &P) -> (bool, u32, u32) {
    (p.is_fit(), p.states(), p.promises())
}

// Of a state s and a state t, whether s should be a start, its smallest step at or above t, and its mark word.
pub(crate) fn sees<P: Plant>(p: &P, states: &[(u32, u32, bool, Option<u32>, u32)]) -> bool {
    states.iter().all(|(s, t, start, step, marks)| {
        p.is_start(*s) == *start && p.next_step(*s, *t) == *step && p.marks(*s) == *marks
    })
}

// Of a state and a promise, whether it should fulfil it.
pub(crate) fn keeps<P: Plant>(p: &P, promises: &[(u32, u32, bool)]) -> bool {
    promises
        .iter()
        .all(|(s, k, fulfils)| p.fulfils(*s, *k) == *fulfils)
}

// The number and the place of a refusal.
pub(crate) fn refusal(r: Result<(), Fault<PlantCause>>) -> Option<(u32, usize)> {
    match r {
        Ok(()) => None,
        Err(fault) => Some((fault.cause.number(), fault.place)),
    }
}

// What a new table answers to a load.
pub(crate) fn tried<'a>(
    states: &'a [StateRow],
    edges: &'a [EdgeRow],
    promises: u32,
) -> Option<(u32, usize)> {
    let mut t = Table::new();
    refusal(t.load(states, edges, promises))
}
