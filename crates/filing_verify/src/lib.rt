//! The verifier: which images may run, by the kinds of the stack's entries and by the budget.
//!
//! In `specs/`, `Flow` defines the successors of a place and the places that are reached, `Shapes` the kinds of the
//! stack's entries there, and `Well` which programs may run and by which rule each other one is refused. These are
//! relations over paths and assignments. The functions make small passes over the code, each with a table; `Passes` has
//! the invariants of the tables.
#![tactic(auto)]

mod cost;
mod cost_with_calls;
mod effect;
mod fault;
mod flow;
mod inside;
mod kind;
mod laws;
mod range;
mod reach;
mod shape;
mod shaping;
mod verifier;

pub use fault::VerifyFault;
pub use kind::Kind;
pub use laws::version_one_is_kept;
pub use verifier::{Verified, verify};
