// A table as a plant.
ghost use Rattle.std.specs.Prelude.{◌≡◌};
ghost use Rattle.table.specs.Standing.{means, RowIs};
ghost use Rattle.table.specs.StandingLawful.{means_lawful};

use super::rows::StateRow;
use super::steps::least_to;
use super::table::Table;
use plant::Plant;

impl Table<'_> {
    // The row of the state s.
    fn row(&self, s: u32) -> Option<StateRow>
        ensures { RowIs self.now s result }
    {
        self.rows?.states.get(s as usize).copied()
    }
}

impl Plant for Table<'_> {
    ghost meaning = { means };

    ghost lawful = { means_lawful };

    fn is_fit(&self) -> bool {
        self.rows.is_some()
    }

    fn states(&self) -> u32 {
        self.rows.map_or(0, |rows| rows.states.len() as u32)
    }

    fn promises(&self) -> u32 {
        self.rows.map_or(0, |rows| rows.promises)
    }

    fn is_start(&self, s: u32) -> bool {
        self.row(s).is_some_and(|row| row.start)
    }

    fn next_step(&self, s: u32, t: u32) -> Option<u32> {
        least_to(self.rows?.edges, s, t)
    }

    fn fulfils(&self, s: u32, k: u32) -> bool {
        k < self.promises() && self.row(s).is_some_and(|row| (row.fulfils >> k) % 2 == 1)
    }

    fn marks(&self, s: u32) -> u32 {
        self.row(s).map_or(u32::MAX, |row| row.marks)
    }
}
