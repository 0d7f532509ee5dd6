use crate::way::Way;

/// What a table has for a state: its least label so far, cut at 2^128 - 1, and the way that gave it.
#[derive(Clone, Copy)]
pub struct Cell {
    pub label: u128,
    pub way: Way,
}

/// A state that waits, told by its place in the table, and the label that it had when it began to wait. It is ordered by label, and
/// then by place.
#[derive(Clone, Copy, Debug, PartialEq, Eq, PartialOrd, Ord)]
pub struct Waiting {
    pub label: u128,
    pub place: usize,
}
