// The fair walk that a search finds, as it is printed.
use plant::Plant;
use search::{Shape, search};
use std::fmt;

// The states of one part of a walk.
#[derive(Clone, Copy)]
struct Part<'a>(&'a [u32]);

impl fmt::Display for Part<'_> {
    fn fmt<W: fmt::Write>(&self, f: &mut fmt::Formatter<W>) -> fmt::Result {
        for s in self.0 {
            write!(f, " {s}")?;
        }
        Ok(())
    }
}

// The stem and the loop of the walk at the front of these states.
fn parts(walk: &[u32], shape: Shape) -> (Part<'_>, Part<'_>) {
    let (stem, rest) = walk.split_at(shape.stem.min(walk.len()));
    (Part(stem), Part(&rest[0..shape.turn.min(rest.len())]))
}

// Searches the plant and prints the stem and the loop of a fair walk, or that there is none.
pub(crate) fn show_walk<P: Plant>(rt: &HostRuntime, name: &str, plant: &P) -> anyhow::Result<()> {
    let n = plant.states() as usize;
    let most = (plant.promises() as usize)
        .saturating_add(2)
        .saturating_mul(n);
    let mut work = vec![in rt.alloc(); 0u32; n]?;
    let mut walk = vec![in rt.alloc(); 0u32; most]?;
    match search(plant, work.as_mut_slice(), walk.as_mut_slice()) {
        Ok(Some(shape)) => {
            let (stem, turn) = parts(walk.as_slice(), shape);
            println!(rt; "{name}: walk stem{stem} loop{turn}")?;
        }
        Ok(None) => println!(rt; "{name}: no fair walk")?,
        Err(fault) => println!(rt; "{name}: {fault}")?,
    }
    Ok(())
}
