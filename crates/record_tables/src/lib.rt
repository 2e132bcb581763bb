//! The tables of an archive of messages and records, over SQL: their rows, one function for each statement that changes
//! them, and one that makes a change in a transaction.
#![tactic(auto)]

pub mod alone;
pub mod companions;
pub mod event_layout;
pub mod events;
pub mod fault;
pub mod lay;
pub mod layout;
pub mod renew;
pub mod rows;
pub mod transact;
pub mod writes;
