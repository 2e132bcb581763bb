//! The value of a header field: the text that a reader is shown for its body.
//!
//! `unfolding` reads a folded body as one line (RFC 5322, section 2.2.3), passing over its line ends, and trims the
//! blanks at both ends. `words` finds the encoded words that stand in that line (RFC 2047, sections 2 and 5).
//! `decoding` appends the text that a word means, by its encoding (`quoted` for Q, `base64_text` for B) and its
//! `charset`. `value` puts the line together again. Nothing is allocated but the value.
//!
//! In `specs/`, `Spans` and `Meaning` define the value without computing it: which words stand in the line, what a good
//! one means, and what is shown of words and gaps. `Words`, `Decoding` and `Value` compute it, and `laws` has the laws
//! that tie the two.
#![tactic(auto)]

mod base64_text;
mod charset;
mod decoding;
mod laws;
mod quoted;
mod unfolding;
mod value;
mod words;

pub use laws::{meaning_is_decided, value_is_decided, words_stand_apart};
pub use value::{append_value, value_of};
