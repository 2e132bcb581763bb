//! `titles --set`: titles of classes that are read from a file, and noted in the history.

use class_plan::Plan;
use cli_console::{Failure, Status};
use cli_history::{Author, note_titles, open_noted};
use cli_sources::payload_of_file;
use cli_texts::{ListedTitle, title_line};
use desk_commands::Payload;
use record_store::Store;
use sqlite::Alter;
use std::alloc::{AllocError, Global};
use std::io::ErrorKind;
use tool_plans::{GivenTitle, TitleFinding, TitlesFault, titles_of};
use tool_texts::{Shown, place_of};

/// How many octets a file of titles has at most.
const MAX_TITLES_OCTETS: usize = 8_388_608;

/// The text of the file of titles at a path. `NoInput` where it cannot be read, and `BadData` where it has more than 8,388,608 octets.
pub fn read_titles(rt: &HostRuntime, path: &str) -> Result<Vec<u8>, Failure> {
    match payload_of_file(rt, path, MAX_TITLES_OCTETS) {
        Ok(Payload::Whole(text)) => Ok(text),
        Ok(Payload::TooLong) => {
            let reason = "a file of titles has at most 8,388,608 octets";
            Err(Failure::at(rt.alloc(), Status::BadData, path, &reason))
        }
        Ok(Payload::NoMemory) => Err(Failure::NoMemory),
        Err(error) if error.kind() == ErrorKind::OutOfMemory => Err(Failure::NoMemory),
        Err(error) => Err(Failure::at(rt.alloc(), Status::NoInput, path, &error)),
    }
}

/// Adds what is wrong with a file of titles, after its path, the line and the column.
fn put_wrong(
    words: &mut Shown,
    path: &str,
    text: &[u8],
    finding: &TitleFinding,
) -> Result<(), AllocError> {
    let place = place_of(text, finding.at);
    words.named(path.as_bytes())?;
    words.words(":")?;
    words.value(&place.line)?;
    words.words(":")?;
    words.value(&place.column)?;
    words.words(": ")?;
    words.value(&finding.words)
}

/// The failure of a file of titles that gives none.
fn wrong(alloc: Global, path: &str, text: &[u8], finding: &TitleFinding) -> Failure {
    let mut words = Shown::new(alloc);
    match put_wrong(&mut words, path, text, finding) {
        Ok(()) => Failure::Told(Status::BadData, words),
        Err(AllocError) => Failure::NoMemory,
    }
}

/// The titles that the text of a file gives classes of a plan. `BadData` with the place where it gives none.
fn judge_titles(
    alloc: Global,
    path: &str,
    text: &[u8],
    plan: &Plan,
) -> Result<Vec<GivenTitle>, Failure> {
    match titles_of(alloc, text, plan) {
        Ok(titles) => Ok(titles),
        Err(TitlesFault::NoMemory) => Err(Failure::NoMemory),
        Err(TitlesFault::Wrong(finding)) => Err(wrong(alloc, path, text, &finding)),
    }
}

/// Titles as they are listed.
fn listed(alloc: Global, titles: &[GivenTitle]) -> Result<Vec<ListedTitle<'_>>, AllocError> {
    let mut list = Vec::with_capacity(alloc, titles.len())?;
    for it in titles {
        list.push(ListedTitle {
            path: it.path.as_bytes(),
            title: it.title.as_bytes(),
            basis: it.basis.as_bytes(),
        })?;
    }
    Ok(list)
}

/// The lines of classes with their titles.
fn lines_of(alloc: Global, titles: &[ListedTitle<'_>]) -> Result<Shown, Failure> {
    let mut text = Shown::new(alloc);
    for it in titles {
        text.text(&title_line(alloc, it)?)?;
    }
    Ok(text)
}

/// Notes titles in the history of a store. Answers the lines of those that change something.
fn note_given<S: Alter>(
    rt: &HostRuntime,
    archive: Store<S>,
    author: &Author<'_>,
    given: &[GivenTitle],
) -> (Store<S>, Result<Shown, Failure>) {
    let wanted = match listed(rt.alloc(), given) {
        Ok(wanted) => wanted,
        Err(AllocError) => return (archive, Err(Failure::NoMemory)),
    };
    let noted = match open_noted(rt, archive) {
        Ok(noted) => noted,
        Err((archive, failure)) => return (archive, Err(failure)),
    };
    let (archive, done) = note_titles(rt, noted, author, wanted.as_slice());
    let lines = match done {
        Ok(changed) => lines_of(rt.alloc(), changed.as_slice()),
        Err(failure) => Err(failure),
    };
    (archive, lines)
}

/// Gives classes the titles that the text of the file at a path has for them, each by an event of the history, all in one
/// transaction. Answers a line for each class that has another title or another legal basis now. `BadData` with the place where the
/// text gives no titles, and where the store has no history; other failures are those of `note_titles`. The store is handed back.
pub fn set_titles<S: Alter>(
    rt: &HostRuntime,
    archive: Store<S>,
    author: &Author<'_>,
    path: &str,
    text: &[u8],
) -> (Store<S>, Result<Shown, Failure>) {
    match judge_titles(rt.alloc(), path, text, archive.plan()) {
        Ok(given) => note_given(rt, archive, author, given.as_slice()),
        Err(failure) => (archive, Err(failure)),
    }
}
