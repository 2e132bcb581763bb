//! The state of a machine, and how far its run has come.

use crate::calls::Calls;
use crate::places::FieldPlaces;
use crate::stack::Stack;
use class_paths::Paths;
use sieve_meaning::RunFault;

/// An item of the stack. A list of values is kept as the places of its fields.
#[derive(Drop)]
pub enum Item {
    Truth(bool),
    Fields(FieldPlaces),
    Count(u64),
}

/// The state of a run: the `State` of `filing_table`.
#[derive(Drop)]
pub struct RunState {
    /// The program counter: the place of the next instruction.
    pub place: usize,
    pub stack: Stack,
    /// The paths of the classes that the message was filed into.
    pub filed: Paths,
    pub kept: bool,
    /// Whether the implicit keep is cancelled.
    pub cancelled: bool,
    /// Which slots are set.
    pub marks: [bool; 64],
    /// The places to return to.
    pub calls: Calls,
}

/// How far a run has come.
#[derive(Clone, Copy)]
pub enum Progress {
    /// It has not ended.
    Going,
    /// It has ended, with a fault or with none.
    Ended(Option<RunFault>),
}
