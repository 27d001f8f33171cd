// A new table, and loading it.
ghost use Rattle.std.specs.Prelude.{◌≡◌, true, false, is_ok};
ghost use Rattle.plant.specs.Unfit.{unfit};
ghost use Rattle.table.specs.Rows.{table};
ghost use Rattle.table.specs.Loads.{Verdict};
ghost use Rattle.table.specs.Standing.{means};

use super::rows::{EdgeRow, StateRow};
use super::table::{Rows, Table};
use faults::{Fault, PlantCause};

impl<'a> Table<'a> {
    // A table that is unfit until a load is granted.
    pub fn new() -> Table<'a>
        ensures { means result ≡ unfit }
    {
        Table { rows: None }
    }

    // A refused load leaves the table as it was.
    pub fn load(
        &mut self,
        states: &'a [StateRow],
        edges: &'a [EdgeRow],
        promises: u32,
    ) -> Result<(), Fault<PlantCause>>
        ensures answer { Verdict states.now edges.now promises result }
        ensures granted { is_ok result ≡ true → means self.new ≡ table states.now edges.now promises }
        ensures refused { is_ok result ≡ false → self.new ≡ self.old }
    {
        self.rows = Some(Rows::granted(states, edges, promises)?);
        Ok(())
    }
}
