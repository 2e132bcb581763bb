//! The procedures of a main script: included scripts as their includes run them, each once for all includes that run it
//! alike.
#![tactic(auto)]

mod included;
mod key;
mod levels;
mod procedure;
mod reach;
mod slot_set;
mod slots;

pub use included::included_scripts;
pub use key::Key;
pub use levels::procedures;
pub use procedure::{Procedure, number_of};
pub use reach::Reach;
pub use slot_set::SlotSet;
pub use slots::{find_script, slot_count};
