//! What stands against an event, in words.

use crate::pages::at_event;
use cli_console::{Failure, Status};
use record_judge::Flaw;
use std::alloc::{AllocError, Global};
use tool_texts::{Shown, put};

/// What stands against an event, in words; none where that is no memory.
pub fn words_of(flaw: Flaw) -> Option<&'static str> {
    match flaw {
        Flaw::OutOfTurn => Some("an event before it is missing"),
        Flaw::OtherMark => { Some("its mark is not that of its line after the events before it") }
        Flaw::NotALine => Some("its line is none of an event"),
        Flaw::OtherNumber => Some("its line has another number"),
        Flaw::OtherSchedule => Some(
            "it destroys a record under another schedule than that of its class",
        ),
        Flaw::Refused => Some("the archive refuses at that point what it tells"),
        Flaw::NoPlan => Some("the plan that it tells is none"),
        Flaw::LateDay => Some("it destroys a record that was captured after 2199"),
        Flaw::NoMemory => None,
    }
}

/// That the events from a first one on are missing before an event.
fn missing_before(alloc: Global, number: u32, first: u64) -> Result<Shown, AllocError> {
    let last = u64::from(number).saturating_sub(1);
    let mut text = Shown::new(alloc);
    put!(text; "event " value(&number) ": ")?;
    if first == last {
        put!(text; "event " value(&first) " before it is missing")?;
    } else {
        put!(text; "events " value(&first) " to " value(&last) " before it are missing")?;
    }
    Ok(text)
}

/// What stands against an event, in words with its number, where so many events before it are whole. It says which events are
/// missing.
pub fn words_at(alloc: Global, number: u32, flaw: Flaw, whole: u64) -> Result<Shown, AllocError> {
    match flaw {
        Flaw::OutOfTurn => missing_before(alloc, number, whole.saturating_add(1)),
        _ => at_event(alloc, number, words_of(flaw).ok_or(AllocError)?),
    }
}

/// The failure of a change of an archive whose history is damaged at an event: `BadData`.
pub fn failure_of(alloc: Global, number: u32, flaw: Flaw) -> Failure {
    match words_of(flaw) {
        Some(words) => Failure::shown(Status::BadData, at_event(alloc, number, words)),
        None => Failure::NoMemory,
    }
}
