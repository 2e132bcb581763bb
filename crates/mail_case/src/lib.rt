//! What a run can learn about a message, and about the plan by which it is filed.
//!
//! `case` has the five questions that a run asks. `paths` decides which paths are open classes, and `fields` keeps the
//! fields of a header with their values. From these two, `whole` makes the case of a message, and `pieces` that of a
//! message that comes piece by piece.
#![tactic(auto)]

mod case;
mod fields;
mod paths;
mod pieces;
mod whole;

pub use case::Case;
pub use paths::OpenPaths;
pub use pieces::PieceCase;
pub use whole::WholeCase;
