// What is printed of a plant.
use plant::{Plant, steps};
use std::fmt;

// A plant, as it is printed under a name: fitness and sizes, and then each state.
#[derive(Drop)]
pub(crate) struct Shown<'a, P> {
    pub(crate) name: &'a str,
    pub(crate) plant: &'a P,
}

impl<P: Plant> fmt::Display for Shown<'_, P> {
    fn fmt<W: fmt::Write>(&self, f: &mut fmt::Formatter<W>) -> fmt::Result {
        let name = self.name;
        if !self.plant.is_fit() {
            return writeln!(f, "{name}: unfit");
        }
        let states = self.plant.states();
        let promises = self.plant.promises();
        writeln!(f, "{name}: fit, {states} states, {promises} promises")?;
        for state in 0..states {
            let plant = self.plant;
            write!(f, "{}", StateOf { plant, state })?;
        }
        Ok(())
    }
}

// One state: whether it is a start, its steps, the promises that it fulfils, and its mark word.
#[derive(Drop)]
struct StateOf<'a, P> {
    plant: &'a P,
    state: u32,
}

impl<P: Plant> fmt::Display for StateOf<'_, P> {
    fn fmt<W: fmt::Write>(&self, f: &mut fmt::Formatter<W>) -> fmt::Result {
        let s = self.state;
        let start = if self.plant.is_start(s) { " start" } else { "" };
        write!(f, "  {s}{start} steps")?;
        for u in steps(self.plant, s) {
            write!(f, " {u}")?;
        }
        write!(f, " fulfils")?;
        for k in 0..self.plant.promises() {
            if self.plant.fulfils(s, k) {
                write!(f, " {k}")?;
            }
        }
        let marks = self.plant.marks(s);
        writeln!(f, " marks {marks:08x}")
    }
}
