//! Dates of messages: the moment that a text of a header gives, and the one that a message gets by its header.
//!
//! - `comments`: a text without its comments (RFC 5322, section 3.2.2);
//! - `moments`: the moment of a text (RFC 5322, sections 3.3 and 4.3), as `jiff` reads it;
//! - `dating`: the moment of a message.
//!
//! In `specs/`, `Comments` says what a text is without comments, `Moments` which moment it gives, by the grammar of `jiff_fmt`,
//! and `Dating` which one a message gets.
#![tactic(auto)]

mod comments;
mod dating;
mod moments;

pub use dating::{Dated, Dating, date_message};
pub use moments::moment_of;
