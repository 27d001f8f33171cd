// The rows of a table that is made from outside.
use faults::{Fault, PlantCause};
use std::alloc::{AllocError, Global};
use table::{EdgeRow, StateRow, Table};

#[derive(Drop)]
pub(crate) struct Graph {
    pub(crate) states: Vec<StateRow>,
    pub(crate) edges: Vec<EdgeRow>,
}

impl Graph {
    pub(crate) fn new(heap: Global) -> Graph {
        Graph {
            states: Vec::new(heap),
            edges: Vec::new(heap),
        }
    }

    // A table over these rows.
    pub(crate) fn table(&self, promises: u32) -> Result<Table<'_>, Fault<PlantCause>> {
        let mut table = Table::new();
        table.load(self.states.as_slice(), self.edges.as_slice(), promises)?;
        Ok(table)
    }
}
