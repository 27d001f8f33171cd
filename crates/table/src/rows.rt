// The rows that a table stands over.

// A state: whether it is a start, a word whose bit k says that promise k is fulfilled, and a mark word.
#[derive(Clone, Copy)]
pub struct StateRow {
    pub start: bool,
    pub fulfils: u32,
    pub marks: u32,
}

// A step.
#[derive(Clone, Copy)]
pub struct EdgeRow {
    pub from: u32,
    pub to: u32,
}
