//! Which scripts are well made. `check` accepts a script that keeps the rules of RFC 5228 on commands, tests, tags,
//! arguments and `require`, with `:copy` (RFC 3894) and `include` and `return` (RFC 6609). It refuses any other by the
//! number of a rule that it breaks.
//!
//! One table, in `table.rt`, lists the commands, tests and tags. The definitions have the same table in
//! `specs/Tables.antt`. `specs/Rules.antt` has a definition for each rule, and the refusal of a script. The modules,
//! from the bottom:
//!
//! - `table` and `lookup`: the row of a name;
//! - `pieces`: arguments, each tag with its string;
//! - `findings`: what one pass over the pieces shows;
//! - `rules`: one function for each rule on what follows a name;
//! - `capability_set` and `context`: what is known from the commands before a command;
//! - `command_faults`: the least rule that a command breaks;
//! - `walk`: the first faulty command;
//! - `checked`: the check, and the scripts that passed it.
//!
//! # Adding a command, a test or a tag
//!
//! Add its row to `COMMANDS` or `TESTS` in `table.rt`, and the same row to `command_table` or `test_table` in
//! `specs/Tables.antt`; a tag is a row among the `tags` of its command or test. A tag of a new kind needs a variant of
//! `TagKind` with its place in `kind_place` (`specs/Rules.antt`). A new capability needs a variant of `Capability`, its
//! rows in `CAPABILITIES` and `capability_table`, its place in `capability_place`, its field in `CapabilitySet` with the
//! cases of that in `specs/Context.antt`, and the cases of `has_with` in `proofs/Known.antt`. No other function,
//! definition or proof of the rules names a command, so nothing else changes, unless the command brings a rule of its
//! own.
#![tactic(auto)]

mod capability_set;
mod checked;
mod command_faults;
mod context;
mod fault;
mod findings;
mod laws;
mod lookup;
mod pieces;
mod rules;
mod table;
mod walk;

pub use checked::{Checked, check};
pub use fault::CheckFault;
pub use laws::{fileinto_law, header_law, if_law, name_law, shape_law, size_law};
