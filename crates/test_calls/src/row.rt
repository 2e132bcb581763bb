//! The table. Each row is a call and its expected answer:
//!
//!     CALL FIRST|SECOND|THIRD => ANSWER
//!
//! A call that takes fewer texts leaves the others out, and an empty answer is `nothing`. A line `more N TEXT` before a row
//! puts N times TEXT before its first text.
//!
//! In texts and answers `\n`, `\r`, `\s` (a space) and `\xHH` are octets, and a backslash before another octet is left
//! out (`test_rows`). Empty lines and those that begin with `#` are ignored.

use crate::call::Call;
use anyhow::{Context, Result};
use std::alloc::{AllocError, Global};
use test_rows::octets_of;

/// A call, its texts, and the expected answer.
#[derive(Drop)]
pub struct Row {
    call: Call,
    first: Vec<u8>,
    second: Vec<u8>,
    third: Vec<u8>,
    wanted: Vec<u8>,
}

impl Row {
    /// The call.
    pub fn call(&self) -> Call {
        self.call
    }

    /// The first text.
    pub fn first(&self) -> &[u8] {
        self.first.as_slice()
    }

    /// The second text; empty where there is none.
    pub fn second(&self) -> &[u8] {
        self.second.as_slice()
    }

    /// The third text; empty where there is none.
    pub fn third(&self) -> &[u8] {
        self.third.as_slice()
    }

    /// The expected answer.
    pub fn wanted(&self) -> &[u8] {
        self.wanted.as_slice()
    }
}

/// Adds the text of a line `more`.
pub fn add_more(alloc: Global, front: &mut Vec<u8>, more: &str) -> Result<()> {
    let (times, text) = more.split_once(' ').context("a text is missing")?;
    let times: usize = times.parse().context("a number is wrong")?;
    let texts = octets_of(alloc, text)?.as_slice().repeat(alloc, times)?;
    Ok(front.extend_from_slice(texts.as_slice())?)
}

/// The octets of a text after others.
fn following(alloc: Global, front: &[u8], text: &str) -> Result<Vec<u8>, AllocError> {
    let mut whole = Vec::from_slice(alloc, front)?;
    whole.extend_from_slice(octets_of(alloc, text)?.as_slice())?;
    Ok(whole)
}

/// Reads a row, whose first text follows the octets in `front`.
pub fn read_row(alloc: Global, front: &[u8], line: &str) -> Result<Row> {
    let (word, rest) = line.split_once(' ').context("a row has no text")?;
    let call = Call::of(word).context("there is no such call")?;
    let (texts, wanted) = rest.split_once(" => ").context("an answer is missing")?;
    let (first, others) = texts.split_once('|').unwrap_or((texts, ""));
    let (second, third) = others.split_once('|').unwrap_or((others, ""));
    Ok(Row {
        call,
        first: following(alloc, front, first)?,
        second: octets_of(alloc, second)?,
        third: octets_of(alloc, third)?,
        wanted: octets_of(alloc, wanted)?,
    })
}
