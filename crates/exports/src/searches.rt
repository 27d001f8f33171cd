// Searching a table, from outside: for comparisons.
use super::graphs::Graph;
use faults::{Cause, Fault};
use search::{Shape, search};
use std::alloc::{AllocError, Global};
use table::{EdgeRow, StateRow};

// What came of a search: number 0 where it was granted; found is 1 where there is a fair walk of this stem and loop; 30 for want of memory.
// Numbers and not a Result, since C reads it.
#[repr(C)]
pub struct SearchAnswer {
    pub number: u32,
    pub place: usize,
    pub found: u32,
    pub stem: usize,
    pub turn: usize,
}

impl SearchAnswer {
    // What there is before the table is made: want of memory.
    fn begin(&mut self) {
        self.number = 30;
        self.place = 0;
        self.found = 0;
        self.stem = 0;
        self.turn = 0;
    }

    fn refused<C: Cause + Drop>(&mut self, fault: Fault<C>) {
        self.number = fault.cause.number();
        self.place = fault.place;
    }

    fn searched(&mut self, found: Option<Shape>) {
        self.number = 0;
        if let Some(shape) = found {
            self.found = 1;
            self.stem = shape.stem;
            self.turn = shape.turn;
        }
    }
}

fn graph_of(
    heap: Global,
    starts: &[u32],
    fulfils: &[u32],
    from: &[u32],
    to: &[u32],
) -> Result<Graph, AllocError> {
    let mut graph = Graph::new(heap);
    for (start, bits) in starts.iter().zip(fulfils) {
        graph.states.push(StateRow {
            start: *start != 0,
            fulfils: *bits,
            marks: u32::MAX,
        })?;
    }
    for (a, b) in from.iter().zip(to) {
        graph.edges.push(EdgeRow { from: *a, to: *b })?;
    }
    Ok(graph)
}

fn search_graph(
    graph: &Graph,
    promises: u32,
    work: &mut [u32],
    walk: &mut [u32],
    answer: &mut SearchAnswer,
) {
    match graph.table(promises) {
        Ok(table) => match search(&table, work, walk) {
            Ok(found) => answer.searched(found),
            Err(fault) => answer.refused(fault),
        },
        Err(fault) => answer.refused(fault),
    }
}

// Searches the table of these rows: for each state a start flag and its promises, and for each edge its ends.
// Rows of numbers side by side, since C lends them.
#[unsafe(no_mangle)]
pub extern "C" fn mehaldub_search_table(
    heap: Global,
    starts: &[u32],
    fulfils: &[u32],
    from: &[u32],
    to: &[u32],
    promises: u32,
    work: &mut [u32],
    walk: &mut [u32],
    answer: &mut SearchAnswer,
) {
    answer.begin();
    if let Ok(graph) = graph_of(heap, starts, fulfils, from, to) {
        search_graph(&graph, promises, work, walk, answer);
    }
}
