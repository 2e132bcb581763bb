//! The compiler: from checked scripts, and a library of scripts that they include, to images that may run.
//!
//! In `specs/`, `BlockCode` defines the code in blocks (`filing_flow`) of a script, `IncludeCode` and `Procedures` that of an
//! include, and `Correct` what is said of an image besides its meaning. What the image of a script must satisfy stands in
//! `Compiled` of `filing_flow`. `Alike` says how a script and its code run side by side. The other files have the
//! invariants of the passes over the tree.
//!
//! A script is weighed first (`weight`). Then its code is written once, from left to right, by `emit_tests` and
//! `emit_commands`. A text or number that is named again keeps the place that it got first (`text_pool`,
//! `number_pool`), and a test names each field once (`Names`, `field_names`). Jumps are written without their place,
//! which is filled in where the test, the branch, all branches or, for `return`, the script ends (`ends`). What a command
//! is to the branches before it, and what an include asks for, is computed by `sieve_meaning`.
//!
//! The code of an include is left to a `linker`, which looks the script up in the library (`sieve_library`), with its
//! slot (`filing_procedures`), and judges the include by the `chain` of active scripts (`finding`). That of `levels` puts
//! the script's own code in the place of the include, one level further down; the deepest level has a fault instead.
//!
//! Where that code would weigh more than 60,000, `shared` finds the procedures of the script (`filing_procedures`) and
//! weighs them (`paths`). Then `emit_procedures` writes each of them once, by the linker of `calls`: an include calls the
//! procedure that it enters (`callees`). `program` makes the image, which is proved to be one that may run.
#![tactic(auto)]

mod callees;
mod calls;
mod chain;
mod emit_commands;
mod emit_procedures;
mod emit_tests;
mod ends;
mod fault;
mod field_names;
mod finding;
mod levels;
mod linker;
mod number_pool;
mod output;
mod paths;
mod program;
mod shared;
mod text_pool;
mod weight;

pub use fault::GenFault;
pub use program::{compile, compile_with};
pub use sieve_library::Library;
