//! Where the commands and tests of a script stand in its text.
//!
//! Every command and every test begins with its name, and no other token is an identifier (RFC 5228, section 8.2). So
//! the identifiers of a script, in the order of the text, are the names of its commands and tests in the order of the
//! tree: a command, then its tests, then its block. `heads` gives the offsets at which they begin, `places_of` the lines
//! and columns of offsets that rise, and a `PlaceMap` those of offsets in any order. In `specs/`, `Heads` has the names of
//! both orders, which the law `heads_are_named` ties.
#![tactic(auto)]

mod laws;
mod map;
mod offsets;
mod places;

pub use laws::heads_are_named;
pub use map::PlaceMap;
pub use offsets::heads;
pub use places::places_of;
pub use tool_texts::Place;
