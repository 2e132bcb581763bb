//! Sieve scripts as data (RFC 5228, sections 2 and 8): tokens with their places in the script, and the tree of commands
//! and tests that the grammar builds from them.
//!
//! The scanner and parser (`sieve_text`), the checker (`sieve_check`) and every reader of a checked script share these
//! types. In `specs/`, `Tree` defines the same trees without their layout in memory, their only spelling as tokens and
//! their two depths. `View` maps the trees of this crate to those. `TextOctets` and `ArgumentItems` define what
//! texts and arguments hold, whatever their layout.
#![tactic(auto)]

mod string_text;
mod text;
mod token;
mod tree;

pub use string_text::{StringText, StringTexts};
pub use text::Text;
pub use token::{Mark, Token, TokenKind};
pub use tree::{Argument, Arguments, Command, Ending, Script, StringList, Test, TestList, Tests};
