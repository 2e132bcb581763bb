//! Captures in flight.
//!
//! A `Flight` is a capture in flight: what is pinned at its beginning, and a machine that runs the pinned program.
//! `Flights` are those of a desk, found by their tickets. In `specs/`, `Holds` ties a capture to a flight of the
//! definitions, and `AreHeld` all captures to the flights of a desk's state. The contracts of the calls hold for any
//! flights that are tied so. `laws` states what captures and their flights have in common.
#![tactic(auto)]

mod flight;
mod flights;
mod laws;
mod paths;

pub use flight::Flight;
pub use flights::Flights;
pub use laws::captures_hold_flights;
pub use paths::PinnedPaths;
