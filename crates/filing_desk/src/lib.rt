//! The desk: the office that a session talks to. It files messages by scripts, and keeps records in an
//! archive.
//!
//! - `desk`: what a desk keeps, and how it is made and taken apart;
//! - `registry`: the desk as a `Registry`, and so what each command does;
//! - `archive`: what a desk asks of its archive;
//! - `captures`: how captures begin, and what is shown of them in flight;
//! - `deliveries`: one message through a desk, by the calls that capture it; `turns`: those of its run; `patience`: how
//!   long that may take;
//! - `messages`: messages that are to be captured, as payloads or in pieces;
//! - `dry_runs`: runs that store nothing;
//! - `payloads`: payloads as scripts, images and cases of messages.
//!
//! The crate `desk_commands` defines what each command may be answered and what it leaves. `Standing` in `specs/`
//! says which of its states a desk represents, and `Deliveries` which calls a delivery makes.
#![tactic(auto)]

mod archive;
mod captures;
mod classes;
mod deliveries;
mod desk;
mod dry_runs;
mod messages;
mod patience;
mod payloads;
mod registry;
mod turns;

pub use deliveries::{Delivery, OnFault, deliver};
pub use desk::Desk;
pub use patience::Patience;
