//! A store of records, and beside it the history of its archive: each change and the line that tells of it are one
//! transaction.
#![tactic(auto)]

mod additions;
mod captures;
mod destruction;
mod events;
mod founding;
mod holds;
mod opening;
mod plans;
mod readings;
mod refilings;
mod rows;
mod store;

pub use opening::{OpenFault, Opened};
pub use store::NotedStore;
