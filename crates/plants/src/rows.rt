// The rows of a plant, as text. The format is described in docs/PLANTS.md.
use plant::{Probe, Value};
use std::alloc::{AllocError, AllocFailed, Global};
use table::{EdgeRow, StateRow};

// What the lines of a file say: rows in their order, how many promises there are, and a probe.
#[derive(Drop)]
pub struct Rows {
    pub states: Vec<StateRow>,
    pub edges: Vec<EdgeRow>,
    pub promises: u32,
    pub probe: Option<Probe>,
    // whether a fair walk is asked for
    pub walk: bool,
}

// Why a text gives no rows.
#[derive(Drop)]
pub(crate) enum Unread {
    // the number of the first line of no known form, counted from 1
    NoForm(usize),
    NoMemory(AllocError),
}

impl From<AllocError> for Unread {
    fn from(e: AllocError) -> Unread {
        Unread::NoMemory(e)
    }
}

impl<T: Drop> From<AllocFailed<T>> for Unread {
    fn from(_e: AllocFailed<T>) -> Unread {
        Unread::NoMemory(AllocError)
    }
}

// One line of a file.
enum Row {
    Promises(u32),
    State(StateRow),
    Edge(EdgeRow),
    Probe(Probe),
    Walk,
    Blank,
}

// What a mark word says of one signal; a load refuses the mark zero.
#[derive(Clone, Copy)]
enum Mark {
    Zero,
    On,
    Off,
    Either,
}

impl Mark {
    fn bits(self) -> u32 {
        match self {
            Mark::Zero => 0,
            Mark::On => 1,
            Mark::Off => 2,
            Mark::Either => 3,
        }
    }
}

fn number(word: &str) -> Option<u32> {
    word.parse::<u32>().ok()
}

// Promise numbers parted by commas, or `-`.
fn fulfilled(word: &str) -> Option<u32> {
    let mut bits = 0u32;
    if word == "-" {
        return Some(0);
    }
    for part in word.split(',') {
        bits |= 1u32.checked_shl(number(part)?)?;
    }
    Some(bits)
}

// The mark word with the mark of one signal put in.
fn with_mark(word: u32, signal: u32, mark: Mark) -> Option<u32> {
    if signal > 15 {
        return None;
    }
    let at = 2 * signal;
    Some(word & !(3u32 << at) | mark.bits() << at)
}

fn mark_of(word: &str) -> Option<Mark> {
    match word {
        "on" => Some(Mark::On),
        "off" => Some(Mark::Off),
        "either" => Some(Mark::Either),
        "zero" => Some(Mark::Zero),
        _ => None,
    }
}

// Marks as `SIGNAL=MARK`, parted by commas, or `-`; a signal that is not named is marked either.
fn marked(word: &str) -> Option<u32> {
    let mut marks = u32::MAX;
    if word == "-" {
        return Some(marks);
    }
    for part in word.split(',') {
        let (signal, mark) = part.split_once('=')?;
        marks = with_mark(marks, number(signal)?, mark_of(mark)?)?;
    }
    Some(marks)
}

fn start_of(word: &str) -> Option<bool> {
    match word {
        "start" => Some(true),
        "-" => Some(false),
        _ => None,
    }
}

fn value_of(word: &str) -> Option<Value> {
    match word {
        "on" => Some(Value::On),
        "off" => Some(Value::Off),
        _ => None,
    }
}

fn state(start: &str, fulfils: &str, marks: &str) -> Option<StateRow> {
    Some(StateRow {
        start: start_of(start)?,
        fulfils: fulfilled(fulfils)?,
        marks: marked(marks)?,
    })
}

fn edge(from: &str, to: &str) -> Option<EdgeRow> {
    Some(EdgeRow {
        from: number(from)?,
        to: number(to)?,
    })
}

fn probe(step: &str, signal: &str, value: &str) -> Option<Probe> {
    Some(Probe {
        step: number(step)?,
        signal: number(signal)?.min(255) as u8,
        value: value_of(value)?,
    })
}

// Absent where the line has no known form.
fn parse_row(line: &str) -> Option<Row> {
    let mut words = line.split_whitespace();
    let Some(first) = words.next() else {
        return Some(Row::Blank);
    };
    let a = words.next();
    let b = words.next();
    let c = words.next();
    match first {
        "promises" => Some(Row::Promises(number(a?)?)),
        "state" => Some(Row::State(state(a?, b?, c?)?)),
        "edge" => Some(Row::Edge(edge(a?, b?)?)),
        "probe" => Some(Row::Probe(probe(a?, b?, c?)?)),
        "walk" => Some(Row::Walk),
        _ => None,
    }
}

impl Rows {
    fn new(heap: Global) -> Rows {
        Rows {
            states: Vec::new(heap),
            edges: Vec::new(heap),
            promises: 0,
            probe: None,
            walk: false,
        }
    }

    fn add(&mut self, row: Row) -> Result<(), AllocError> {
        match row {
            Row::Promises(n) => {
                self.promises = n;
            }
            Row::State(s) => self.states.push(s)?,
            Row::Edge(e) => self.edges.push(e)?,
            Row::Probe(p) => {
                self.probe = Some(p);
            }
            Row::Walk => {
                self.walk = true;
            }
            Row::Blank => {}
        }
        Ok(())
    }
}

// The rows of a text.
pub(crate) fn rows_of(heap: Global, text: &str) -> Result<Rows, Unread> {
    let mut rows = Rows::new(heap);
    for (at, line) in text.lines().enumerate() {
        let row = parse_row(line).ok_or(Unread::NoForm(at.saturating_add(1)))?;
        rows.add(row)?;
    }
    Ok(rows)
}
