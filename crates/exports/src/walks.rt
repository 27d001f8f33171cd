// Asking a joint for all its steps, from outside: for measurements.
use super::counts::Counted;
use super::graphs::Graph;
use joint::join;
use plant::{Plant, steps};
use std::alloc::{AllocError, Global};
use std::cell::Cell;
use table::{EdgeRow, StateRow};

// What a walk over all steps of a joint came to.
#[repr(C)]
pub struct WalkAnswer {
    pub states: u32,
    pub steps: u64,
    pub next_steps: u64,
    pub asked: u64,
}

// A state whose signal 0 is on where its number is even, and else off; the first is the start.
fn state_row(s: u32) -> StateRow {
    let marks = if s % 2 == 0 {
        u32::MAX - 2
    } else {
        u32::MAX - 1
    };
    StateRow {
        start: s == 0,
        fulfils: 0,
        marks,
    }
}

// The k-th edge of a state, among n states.
fn edge_row(from: u32, k: u32, n: u32) -> EdgeRow {
    let to = from
        .wrapping_mul(7)
        .wrapping_add(k.wrapping_mul(31))
        .checked_rem(n)
        .unwrap_or(0);
    EdgeRow { from, to }
}

fn state_rows(heap: Global, n: u32) -> Result<Vec<StateRow>, AllocError> {
    let mut rows = Vec::new(heap);
    for s in 0..n {
        rows.push(state_row(s))?;
    }
    Ok(rows)
}

fn edge_rows(heap: Global, n: u32, degree: u32) -> Result<Vec<EdgeRow>, AllocError> {
    let mut rows = Vec::new(heap);
    for from in 0..n {
        for k in 0..degree {
            rows.push(edge_row(from, k, n))?;
        }
    }
    Ok(rows)
}

// One row after the other: to fill both in turns took up to two and a half times as long.
fn graph_of(heap: Global, n: u32, degree: u32) -> Result<Graph, AllocError> {
    Ok(Graph {
        states: state_rows(heap, n)?,
        edges: edge_rows(heap, n, degree)?,
    })
}

// Every step of one state: how many there are.
fn walk<P: Plant>(plant: &P, s: u32, answer: &mut WalkAnswer) {
    for _ in steps(plant, s) {
        answer.steps = answer.steps.saturating_add(1);
    }
}

// Walks all steps of the joint of a plant with itself. What the walk asks the joint is counted: it asks for next steps alone.
fn walk_joint<P: Plant>(part: &P, rounds: u32, answer: &mut WalkAnswer) {
    let both = join(part, part);
    let states = both.states();
    answer.states = states;
    let asked = Cell::new(0u64);
    let walked = Counted {
        plant: &both,
        asked: &asked,
    };
    for _ in 0..rounds {
        for s in 0..states {
            walk(&walked, s, answer);
        }
    }
    answer.next_steps = asked.get();
}

// The same, with the questions to the parts counted.
fn count_walk<P: Plant>(plant: &P, rounds: u32, answer: &mut WalkAnswer) {
    let asked = Cell::new(0u64);
    let part = Counted {
        plant,
        asked: &asked,
    };
    walk_joint(&part, rounds, answer);
    answer.asked = asked.get();
}

// Walks all steps of the joint of a table of n states, so many edges each, with itself, so many times over.
#[unsafe(no_mangle)]
pub extern "C" fn mehaldub_walk_joint(
    heap: Global,
    n: u32,
    degree: u32,
    rounds: u32,
    answer: &mut WalkAnswer,
) {
    answer.states = 0;
    answer.steps = 0;
    answer.next_steps = 0;
    answer.asked = 0;
    if let Ok(graph) = graph_of(heap, n, degree) {
        if let Ok(table) = graph.table(0) {
            count_walk(&table, rounds, answer);
        }
    }
}
