// Rows of tables, and what a search of a plant comes to.
use faults::{Cause, Fault, SearchCause};
use plant::Plant;
use search::{Shape, exists, search};
use table::{EdgeRow, StateRow};

// What the areas hold before a call.
const OTHER: u32 = 77;

pub(crate) fn state(start: bool, fulfils: u32) -> StateRow {
    StateRow {
        start,
        fulfils,
        marks: u32::MAX,
    }
}

// Written in each test crate: a shared one would be a public function for tests alone.
pub(crate) fn edge(from: u32, to: u32) -> EdgeRow {
    EdgeRow { from, to }
}

#[derive(Clone, Copy, PartialEq, Eq, Debug)]
pub enum Answer {
    // the number and the place
    Refused(u32, usize),
    Nothing,
    // so many states before the loop and in it
    Walk(usize, usize),
    // an area that is not left as it should be, a walk that is not fair, or two calls that differ
    Wrong,
}

fn told(fault: Fault<SearchCause>) -> Answer {
    Answer::Refused(fault.cause.number(), fault.place)
}

fn all(area: &[u32], value: u32) -> bool {
    area.iter().all(|entry| *entry == value)
}

// Asked of the plant itself, since the search goes by `steps`.
fn steps_to<P: Plant>(plant: &P, s: u32, t: u32) -> bool {
    plant.next_step(s, t) == Some(t)
}

fn goes_by_steps<P: Plant>(plant: &P, walk: &[u32]) -> bool {
    walk.windows(2)
        .all(|pair| steps_to(plant, pair[0], pair[1]))
}

fn is_kept<P: Plant>(plant: &P, lap: &[u32], k: u32) -> bool {
    lap.iter().any(|s| plant.fulfils(*s, k))
}

fn keeps_all<P: Plant>(plant: &P, lap: &[u32]) -> bool {
    (0..plant.promises()).all(|k| is_kept(plant, lap, k))
}

fn closes<P: Plant>(plant: &P, lap: &[u32]) -> bool {
    match lap {
        [] => false,
        [only] => steps_to(plant, *only, *only),
        [first, .., last] => steps_to(plant, *last, *first),
    }
}

// Whether a fair walk of this shape stands at the front, and what is not part of it is as it was.
fn is_fair<P: Plant>(plant: &P, walk: &[u32], shape: Shape) -> bool {
    let Some((stem, rest)) = walk.split_at_checked(shape.stem) else {
        return false;
    };
    let Some((lap, untouched)) = rest.split_at_checked(shape.turn) else {
        return false;
    };
    let joined = match (stem, lap) {
        ([], [first, ..]) => plant.is_start(*first),
        ([first, ..], [base, ..]) => {
            plant.is_start(*first)
                && match stem {
                    [.., last] => steps_to(plant, *last, *base),
                    [] => false,
                }
        }
        _ => false,
    };
    joined
        && goes_by_steps(plant, stem)
        && goes_by_steps(plant, lap)
        && closes(plant, lap)
        && keeps_all(plant, lap)
        && all(untouched, OTHER)
}

// Whether the areas are left as they should be after what was found.
fn is_left<P: Plant>(plant: &P, work: &[u32], walk: &[u32], found: Option<Shape>) -> bool {
    match found {
        None => all(work, 0) && all(walk, OTHER),
        Some(shape) => all(work, 0) && is_fair(plant, walk, shape),
    }
}

fn shown(found: Option<Shape>) -> Answer {
    match found {
        None => Answer::Nothing,
        Some(shape) => Answer::Walk(shape.stem, shape.turn),
    }
}

fn searched<P: Plant>(plant: &P, work: &mut [u32], walk: &mut [u32]) -> Answer {
    work.fill(OTHER);
    walk.fill(OTHER);
    match search(plant, work, walk) {
        Err(fault) => {
            if all(work, OTHER) && all(walk, OTHER) {
                told(fault)
            } else {
                Answer::Wrong
            }
        }
        Ok(found) => {
            if is_left(plant, work, walk, found) {
                shown(found)
            } else {
                Answer::Wrong
            }
        }
    }
}

// Whether the call without a walk area says the same.
fn agrees<P: Plant>(plant: &P, work: &mut [u32], answer: Answer) -> bool {
    work.fill(OTHER);
    match (exists(plant, work), answer) {
        (Ok(true), Answer::Walk(_, _)) => all(work, 0),
        (Ok(false), Answer::Nothing) => all(work, 0),
        (Ok(_), Answer::Refused(20, _)) => all(work, 0),
        (Err(fault), Answer::Refused(_, _)) => told(fault) == answer && all(work, OTHER),
        _ => false,
    }
}

// What both calls come to, in areas that hold other numbers.
pub(crate) fn asked<P: Plant>(plant: &P, work: &mut [u32], walk: &mut [u32]) -> Answer {
    let answer = searched(plant, work, walk);
    if agrees(plant, work, answer) {
        answer
    } else {
        Answer::Wrong
    }
}

// The same with areas of just as many entries as are asked for, of these.
pub(crate) fn tight<P: Plant>(plant: &P, work: &mut [u32], walk: &mut [u32]) -> Answer {
    let n = plant.states() as usize;
    let Some((work, _)) = work.split_at_mut_checked(n) else {
        return Answer::Wrong;
    };
    let Some((walk, _)) = walk.split_at_mut_checked(
        (plant.promises() as usize)
            .saturating_add(2)
            .saturating_mul(n),
    ) else {
        return Answer::Wrong;
    };
    asked(plant, work, walk)
}
