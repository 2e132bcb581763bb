//! Where a run stands.

use crate::case::BorrowedCase;
use class_paths::Paths;
use sieve_library::Shelves;
use sieve_meaning::ScriptName;

/// What stays the same for all commands of a running script.
#[derive(Clone, Copy, Drop)]
pub struct Scope<'s, 'm, 'a> {
    pub case: &'s BorrowedCase<'m, Paths>,
    /// The scripts that can be included.
    pub shelves: Shelves<'a>,
    /// The active scripts that have names, the innermost first.
    pub chain: &'s [ScriptName<'a>],
}
