// A table: the rows of the last load that was granted, if any.
ghost use Rattle.table.specs.Loads.{Granted};

use super::rows::{EdgeRow, StateRow};

// Rows that a load grants.
#[derive(Clone, Copy)]
pub(crate) struct Rows<'a> {
    pub(crate) states: &'a [StateRow],
    pub(crate) edges: &'a [EdgeRow],
    pub(crate) promises: u32,
    ghost granted: { Granted states.now edges.now promises },
}

#[derive(Drop)]
pub struct Table<'a> {
    pub(crate) rows: Option<Rows<'a>>,
}
