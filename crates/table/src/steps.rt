// The steps that edge rows make.
ghost use Rattle.plant.specs.Meaning.{Least};
ghost use Rattle.table.specs.Rows.{has_edge};

use super::rows::EdgeRow;

// The smallest state at or above t to which an edge leads from s. A loop, since `filter`, `map` and `min` took a third more instructions for a step of a joint.
pub(crate) fn least_to(edges: &[EdgeRow], s: u32, t: u32) -> Option<u32>
    ensures { Least (has_edge edges.now s) t result }
{
    let mut best: Option<u32> = None;
    for e in edges {
        if e.from == s && e.to >= t {
            best = match best {
                Some(b) => Some(b.min(e.to)),
                None => Some(e.to),
            };
        }
    }
    best
}
