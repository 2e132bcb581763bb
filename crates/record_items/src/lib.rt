//! What an archive is made of: messages, and records of them.
//!
//! This crate has no code. `specs/Items` defines a message and a record, which the tables of the store (`record_tables`)
//! and what an archive is (`record_archive`) both cite. So neither of these waits for the other to be proved.
#![tactic(auto)]
