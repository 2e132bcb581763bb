//! The charsets in which people's texts are read: names, tables, and decoding into UTF-8.
//!
//! `charset` finds a charset by its name, among those of `names`. `tables` has the upper half of each charset of one
//! octet a character, and `decoding` decodes. Rules read encoded words by another crate, in fewer charsets.
#![tactic(auto)]

mod charset;
mod decoding;
mod names;
mod tables;

pub use charset::Charset;
pub use decoding::{Decoded, decode};
