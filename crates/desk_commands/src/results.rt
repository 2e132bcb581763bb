//! What the calls of a desk answer.

use record_archive::Line;
use sieve_meaning::RunFault;

/// A capture's steps so far, and whether it has come to its end.
#[derive(Clone, Copy)]
pub struct Turn {
    pub steps: u64,
    pub ended: bool,
}

/// A whole capture: the fault, if its run ended with one, and a line for each of its records, in the order of their
/// numbers.
#[derive(Drop)]
pub struct Capture {
    pub fault: Option<RunFault>,
    pub lines: Vec<Line>,
}
