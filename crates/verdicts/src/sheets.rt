// A walk found in a plant, and its marks written over its states.
ghost use Rattle.std.specs.Prelude.{◌≡◌, length};
ghost use Rattle.search.specs.Search.{search_cause, Checked, Cleared};
ghost use Rattle.search.specs.Inner.Entries.{Rewritten};
ghost use Rattle.verdicts.specs.Marked.{Marked};

use faults::{Fault, SearchCause};
use plant::Plant;
use search::{Shape, search};

// Writes the mark word of each state over it.
fn write_marks<P: Plant>(plant: &P, walk: &mut [u32])
    ensures { Rewritten (λ s w. w ≡ (P.Plant.meaning plant.now).marks s) (length walk.old) walk.old walk.new }
{
    for word in walk.iter_mut() {
        *word = plant.marks(*word);
    }
}

// Searches the plant, and writes the marks of the walk found.
pub(crate) fn find_marks<P: Plant>(
    plant: &P,
    work: &mut [u32],
    sheet: &mut [u32],
) -> Result<Option<Shape>, Fault<SearchCause>>
    ensures checked { Checked (search_cause (P.Plant.meaning plant.now) (length work.old) (length sheet.old)) result }
    ensures answer { Marked (P.Plant.meaning plant.now) result sheet.old sheet.new }
    ensures cleared { Cleared result work.old work.new }
{
    let found = search(plant, work, sheet)?;
    if let Some(shape) = found {
        write_marks(plant, &mut sheet[..shape.stem + shape.turn]);
    }
    Ok(found)
}
