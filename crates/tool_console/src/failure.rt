//! Why something is not done.

use std::alloc::{AllocError, AllocFailed, Global};
use std::fmt::Display;
use tool_texts::{Shown, put};

/// Why something is not done.
#[derive(Drop)]
pub enum Failure {
    /// The reader of the output has gone, which is not reported.
    Closed,
    /// Reported as out of memory.
    NoMemory,
    /// Reported in these words.
    Message(Shown),
}

/// The name of a file, and what is said of it.
fn text_at<T: Display>(alloc: Global, path: &str, reason: &T) -> Result<Shown, AllocError> {
    let mut text = Shown::new(alloc);
    put!(text; named(path.as_bytes()) ": " value(reason))?;
    Ok(text)
}

/// The name of a stream, and what is said of it.
fn text_of_stream<T: Display>(
    alloc: Global,
    stream: &'static str,
    reason: &T,
) -> Result<Shown, AllocError> {
    let mut text = Shown::new(alloc);
    put!(text; words(stream) ": " value(reason))?;
    Ok(text)
}

/// Words of the program.
fn text_of_words(alloc: Global, words: &'static str) -> Result<Shown, AllocError> {
    let mut text = Shown::new(alloc);
    text.words(words)?;
    Ok(text)
}

impl Failure {
    /// A failure that is reported by a text, where there is memory for it.
    pub fn of(text: Result<Shown, AllocError>) -> Failure {
        match text {
            Ok(text) => Failure::Message(text),
            Err(_) => Failure::NoMemory,
        }
    }

    /// A failure that is reported in these words.
    pub fn told(alloc: Global, words: &'static str) -> Failure {
        Failure::of(text_of_words(alloc, words))
    }

    /// A failure at a file, reported with its path and the reason.
    pub fn at<T: Display>(alloc: Global, path: &str, reason: &T) -> Failure {
        Failure::of(text_at(alloc, path, reason))
    }

    /// A failure at a stream, reported with its name and the reason.
    pub fn at_stream<T: Display>(alloc: Global, stream: &'static str, reason: &T) -> Failure {
        Failure::of(text_of_stream(alloc, stream, reason))
    }
}

impl From<AllocError> for Failure {
    fn from(_error: AllocError) -> Failure {
        Failure::NoMemory
    }
}

impl<T: Drop> From<AllocFailed<T>> for Failure {
    fn from(_error: AllocFailed<T>) -> Failure {
        Failure::NoMemory
    }
}
