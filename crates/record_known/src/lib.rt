//! The messages that an archive has for an officer already, by their seals, as its history tells them.
//!
//! In `specs/`, `Known` says which record has a message with a seal.
#![tactic(auto)]

mod known;

pub use known::{Known, SealKey, key_of};
