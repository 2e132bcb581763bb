//! The texts of numbers.

use crate::failure::Failure;
use crate::output::write_line;
use std::alloc::{AllocError, Global};
use tool_texts::{Shown, fault_text, put, refusal_text};

/// Writes the text of a number, if it has one, after what has that number and the number.
fn tell_text(
    rt: &HostRuntime,
    line: &mut Shown,
    noun: &'static str,
    number: u8,
    text: Option<&'static str>,
) -> Result<(), Failure> {
    let Some(text) = text else {
        return Ok(());
    };
    put!(line; words(noun) " " value(&number) ": " words(text))?;
    write_line(rt, line)
}

/// Writes the texts of all faults of runs, a line each.
fn tell_faults(rt: &HostRuntime, line: &mut Shown) -> Result<(), Failure> {
    for number in 0..=255u8 {
        tell_text(rt, line, "fault", number, fault_text(number))?;
    }
    Ok(())
}

/// Writes the texts of all numbers, a line each: those of refusals, and then those of faults of runs.
pub fn tell_numbers(rt: &HostRuntime) -> Result<(), Failure> {
    let mut line = Shown::new(rt.alloc());
    for number in 0..=255u8 {
        tell_text(rt, &mut line, "refused", number, refusal_text(number))?;
    }
    tell_faults(rt, &mut line)
}

/// Whether a refusal or a fault has a number.
fn has_text(number: u8) -> bool {
    refusal_text(number).is_some() || fault_text(number).is_some()
}

/// What is said of a word that is no number with a text.
fn no_number(alloc: Global, word: &str) -> Result<Shown, AllocError> {
    let mut text = Shown::new(alloc);
    put!(text; "no refusal and no fault has the number " named(word.as_bytes()))?;
    Ok(text)
}

/// Writes the texts of a number that is typed as a word: that of a refusal, that of a fault of a run, or both. A failure
/// where neither has that number, or the word is no number of theirs.
pub fn tell_number(rt: &HostRuntime, word: &str, number: Option<u8>) -> Result<(), Failure> {
    let Some(number) = number.filter(|number| has_text(*number)) else {
        return Err(Failure::of(no_number(rt.alloc(), word)));
    };
    let mut line = Shown::new(rt.alloc());
    tell_text(rt, &mut line, "refused", number, refusal_text(number))?;
    tell_text(rt, &mut line, "fault", number, fault_text(number))
}
