// Whether a load of these rows is granted, or why and where not.
ghost use Rattle.std.specs.Prelude.{◌≡◌, ℕ, ◌<◌, ◌≤◌, Decides};
ghost use Rattle.table.specs.Rows.{no_row, no_edge};
ghost use Rattle.table.specs.Loads.{GoodState, GoodEdge, First};
ghost use Rattle.table.specs.Granting.{GrantedAs};

use super::rows::{EdgeRow, StateRow};
use super::table::Rows;
use faults::{Cause, Fault, PlantCause};
use logic::is_whole;

// The most rows and promises that a load takes.
pub const MAX_STATE_ROWS: usize = 256;

pub const MAX_EDGE_ROWS: usize = 4096;

pub const MAX_TABLE_PROMISES: u32 = 16;

fn is_good_state(row: &StateRow, p: u32) -> bool
    requires { p ≤ 16 }
    ensures { Decides result (GoodState p row.now) }
{
    is_whole(row.marks) && row.fulfils >> p == 0
}

fn is_good_edge(edge: &EdgeRow, n: usize) -> bool
    ensures { Decides result (GoodEdge n edge.now) }
{
    (edge.from as usize) < n && (edge.to as usize) < n
}

// A load goes over its rows with their index: this form is a rule of the project, for states and for edges.
fn first_bad_state(rows: &[StateRow], p: u32) -> Option<usize>
    requires { p ≤ 16 }
    ensures { First (GoodState p) rows.now no_row result }
{
    for (s, row) in rows.iter().enumerate() {
        if !is_good_state(row, p) {
            return Some(s);
        }
    }
    None
}

fn first_bad_edge(edges: &[EdgeRow], n: usize) -> Option<usize>
    ensures { First (GoodEdge n) edges.now no_edge result }
{
    for (e, edge) in edges.iter().enumerate() {
        if !is_good_edge(edge, n) {
            return Some(e);
        }
    }
    None
}

impl<'a> Rows<'a> {
    // The rows where they are granted, or the first cause that applies, with its place.
    pub(crate) fn granted(
        states: &'a [StateRow],
        edges: &'a [EdgeRow],
        promises: u32,
    ) -> Result<Rows<'a>, Fault<PlantCause>>
        ensures { GrantedAs states.now edges.now promises result }
    {
        if states.len() > MAX_STATE_ROWS
            || edges.len() > MAX_EDGE_ROWS
            || promises > MAX_TABLE_PROMISES
        {
            return Err(PlantCause::Large.at(0));
        }
        if let Some(place) = first_bad_state(states, promises) {
            return Err(PlantCause::BadState.at(place));
        }
        if let Some(place) = first_bad_edge(edges, states.len()) {
            return Err(PlantCause::BadEdge.at(place));
        }
        Ok(Rows {
            states,
            edges,
            promises,
        })
    }
}
