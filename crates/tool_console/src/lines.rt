//! The parts of a line for a person. A line is made in one text, to which each part is added.

use std::alloc::AllocError;
use tool_texts::{Place, Shown, place_of, put, refusal_text};

/// The text of a refusal's number, as it is written after the number; `refused` where the number has no text.
pub fn text_of(number: u8) -> &'static str {
    refusal_text(number).unwrap_or("refused")
}

/// Adds the path of a file and the place of an offset in its text, as `main.sieve:1:16: `.
pub fn push_place(
    line: &mut Shown,
    path: &str,
    text: &[u8],
    offset: usize,
) -> Result<(), AllocError> {
    push_known_place(line, path, place_of(text, offset))
}

/// Adds the path of a file and a place in its text, as `push_place` does.
pub fn push_known_place(line: &mut Shown, path: &str, place: Place) -> Result<(), AllocError> {
    put!(line; named(path.as_bytes()) ":" value(&place.line) ":" value(&place.column) ": ")
}
