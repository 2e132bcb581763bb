//! The calls of a store, and their answers as text.

use class_paths::Paths;
use class_plan::{Date, Plan, date_of, day_number, day_of};
use record_store::{Line, RecordEntry, Store, StoreFault, are_classes};
use sqlite::Alter;
use std::alloc::Global;
use std::fmt::Write;
use std::str;
use std::test::Fail;

/// The moment of each capture, in seconds since 1970-01-01T00:00:00Z. Its day is 19,675.
const CAPTURE_MOMENT: u64 = 1_700_000_000;

/// A call of a store. Days are numbers of days since 1970-01-01.
#[derive(Clone, Copy)]
pub enum Call {
    /// The store's plan becomes this one, in TOML.
    Revise(&'static str),
    /// This class is added.
    AddClass(&'static str),
    /// A message is captured in `unfiled`.
    Capture(&'static str),
    /// A message is captured in `tax` and `unfiled`.
    CaptureInBoth(&'static str),
    /// A hold of this name is placed on a record.
    Hold(&'static str, u32),
    /// That hold is released.
    Release(&'static str, u32),
    /// The due list of a day.
    Due(u16),
    /// A record is destroyed on a day.
    Destroy(u32, u16),
    /// A record gets this class.
    Refile(u32, &'static str),
    /// The message of a record.
    Message(u32),
    /// The records from a number on, at most so many.
    Entries(u32, usize),
}

/// What a store answers to a call: a list, a message, `ok`, or a refusal with its number.
pub fn answer<S: Alter>(alloc: Global, store: &mut Store<S>, call: Call) -> Result<String, Fail> {
    match call {
        Call::Revise(text) => revise(alloc, store, text),
        Call::AddClass(path) => done(alloc, store.add_class(path.as_bytes())),
        Call::Capture(body) => capture(alloc, store, body, &["unfiled"]),
        Call::CaptureInBoth(body) => capture(alloc, store, body, &["tax", "unfiled"]),
        Call::Hold(name, record) => done(alloc, store.hold(name.as_bytes(), record)),
        Call::Release(name, record) => done(alloc, store.release(name.as_bytes(), record)),
        Call::Due(day) => lines(alloc, store.due(date(day)?)),
        Call::Destroy(record, day) => done(alloc, store.destroy(record, date(day)?)),
        Call::Refile(record, path) => done(alloc, store.refile(record, path.as_bytes())),
        Call::Message(record) => message(alloc, store.message(record)),
        Call::Entries(from, most) => entries(alloc, store.entries(from, most)),
    }
}

/// The date of a number of days.
fn date(day: u16) -> Result<Date, Fail> {
    match date_of(i64::from(day)) {
        Some(date) => Ok(date),
        None => Err(Fail::from("no day")),
    }
}

/// A refusal as text.
fn refused(alloc: Global, fault: StoreFault) -> Result<String, Fail> {
    let number = match fault {
        StoreFault::Refused(refusal) => refusal.number(),
        StoreFault::Database(_) => 89,
        StoreFault::NoMemory => 99,
    };
    Ok(format!(in alloc; "refused {number}")?)
}

/// The answer of a call that makes a change.
fn done(alloc: Global, answer: Result<(), StoreFault>) -> Result<String, Fail> {
    match answer {
        Ok(()) => Ok(String::from_str(alloc, "ok")?),
        Err(fault) => refused(alloc, fault),
    }
}

/// Replaces the plan by that of a text.
fn revise<S: Alter>(alloc: Global, store: &mut Store<S>, text: &str) -> Result<String, Fail> {
    match Plan::from_toml(alloc, text.as_bytes()) {
        Ok(plan) => done(alloc, store.revise(plan)),
        Err(_) => Err(Fail::from("no plan")),
    }
}

/// The set of these paths.
fn set_of(alloc: Global, paths: &[&str]) -> Result<Paths, Fail> {
    let mut set = Paths::new(alloc);
    for path in paths {
        set.insert(alloc, path.as_bytes())?;
    }
    Ok(set)
}

/// Captures a message in these classes.
fn capture<S: Alter>(
    alloc: Global,
    store: &mut Store<S>,
    body: &str,
    paths: &[&str],
) -> Result<String, Fail> {
    let paths = set_of(alloc, paths)?;
    let Some(day) = day_of(CAPTURE_MOMENT) else {
        return Err(Fail::from("no day"));
    };
    if !are_classes(store.plan(), &paths) {
        return Err(Fail::from("no classes"));
    }
    lines(alloc, store.capture(body.as_bytes(), day, &paths))
}

/// Lines as text: their numbers, and their due days where they have one.
fn lines(alloc: Global, answer: Result<Vec<Line>, StoreFault>) -> Result<String, Fail> {
    let lines = match answer {
        Ok(lines) => lines,
        Err(fault) => return refused(alloc, fault),
    };
    let mut text = String::new(alloc);
    for line in &lines {
        write_line(&mut text, line)?;
    }
    Ok(text)
}

/// Writes a line.
fn write_line(text: &mut String, line: &Line) -> Result<(), Fail> {
    let number = line.number;
    match line.due {
        Some(day) => {
            let due = day_number(day);
            write!(text, "{number} due {due}; ")?
        }
        None => write!(text, "{number} never; ")?,
    }
    Ok(())
}

/// A message as text.
fn message(alloc: Global, answer: Result<Vec<u8>, StoreFault>) -> Result<String, Fail> {
    match answer {
        Ok(body) => Ok(String::from_str(alloc, text_of(body.as_slice())?)?),
        Err(fault) => refused(alloc, fault),
    }
}

/// Octets that are UTF-8.
fn text_of(octets: &[u8]) -> Result<&str, Fail> {
    match str::from_utf8(octets) {
        Ok(text) => Ok(text),
        Err(_) => Err(Fail::from("no text")),
    }
}

/// Records as text.
fn entries(alloc: Global, answer: Result<Vec<RecordEntry>, StoreFault>) -> Result<String, Fail> {
    let entries = match answer {
        Ok(entries) => entries,
        Err(fault) => return refused(alloc, fault),
    };
    let mut text = String::new(alloc);
    for entry in &entries {
        write_entry(&mut text, entry)?;
    }
    Ok(text)
}

/// Writes a record: number, class, capture day, due day if it has one, message, state and holds.
fn write_entry(text: &mut String, entry: &RecordEntry) -> Result<(), Fail> {
    let number = entry.number;
    let path = text_of(entry.path.as_slice())?;
    let day = day_number(entry.day);
    write!(text, "{number} {path} {day}")?;
    if let Some(due) = entry.due {
        let due = day_number(due);
        write!(text, " due {due}")?;
    }
    let message = entry.message;
    let state = if entry.destroyed { "destroyed" } else { "live" };
    write!(text, " {message} {state}")?;
    for name in &entry.holds {
        let name = text_of(name.as_slice())?;
        write!(text, " {name}")?;
    }
    write!(text, "; ")?;
    Ok(())
}
