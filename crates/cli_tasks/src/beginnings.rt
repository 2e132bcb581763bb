//! Histories that begin, that come to require reasons, and in which findings are accepted.

ghost use Rattle.std.specs.Prelude.{OnOk};
ghost use Rattle.cli_tasks.specs.Works.{IsLent};

use crate::archives::{Archives, Work, lend};
use cli_console::{Failure, Status, write_text};
use cli_history::{Author, accept_findings, begin_history, note_reasons, open_history, open_noted};
use command_lines::archives::Reasons;
use record_noted::Opened;
use record_store::Store;
use sqlite::{Alter, Connection};
use std::alloc::{AllocError, Global};
use tool_texts::Shown;

/// Begins the history of an archive. Answers how many events it begins with.
#[derive(Drop)]
pub struct BeginHistory<'a>(pub Author<'a>);

impl Work for BeginHistory<'_> {
    type Answer = u64;

    fn work<S: Alter>(
        self,
        rt: &HostRuntime,
        archive: Store<S>,
    ) -> (Connection<S>, Result<u64, Failure>) {
        let opened = match open_history(rt, archive) {
            Ok(opened) => opened,
            Err((archive, failure)) => return (archive.into_connection(), Err(failure)),
        };
        match opened {
            Opened::Noted(noted) => {
                let failure = Failure::told(
                    rt.alloc(),
                    Status::CannotMake,
                    "the store has a history already",
                );
                (noted.into_store().into_connection(), Err(failure))
            }
            Opened::Plain(archive) => {
                let (archive, begun) = begin_history(rt, archive, &self.0, b"");
                (archive.into_connection(), begun)
            }
        }
    }
}

/// With how many events a history began.
pub fn begun_line(alloc: Global, count: u64) -> Result<Shown, AllocError> {
    let mut line = Shown::new(alloc);
    line.words("history begun events ")?;
    line.value(&count)?;
    line.end_line()?;
    Ok(line)
}

/// Begins the history of a store that has none. `CannotMake` where it has one.
pub fn begin<A: Archives>(
    rt: &HostRuntime,
    archives: &A,
    store: &str,
    author: Author<'_>,
) -> Result<(), Failure>
    ensures { OnOk result (IsLent (A.is_at archives.now store.now)) }
{
    author.named(rt)?;
    let count = lend(rt, archives, store, BeginHistory(author))?;
    write_text(rt, &begun_line(rt.alloc(), count)?)
}

/// Notes in the history of an archive whether reasons are required. Answers the number of the event; none where it is so already.
#[derive(Drop)]
pub struct NoteReasons<'a> {
    pub author: Author<'a>,
    pub reasons: Reasons,
}

impl Work for NoteReasons<'_> {
    type Answer = Option<u32>;

    fn work<S: Alter>(
        self,
        rt: &HostRuntime,
        archive: Store<S>,
    ) -> (Connection<S>, Result<Option<u32>, Failure>) {
        match open_noted(rt, archive) {
            Ok(noted) => {
                let (archive, done) = note_reasons(rt, noted, &self.author, self.reasons);
                (archive.into_connection(), done)
            }
            Err((archive, failure)) => (archive.into_connection(), Err(failure)),
        }
    }
}

/// From which event on reasons are required, or are not; or that it is so already.
pub fn reasons_line(
    alloc: Global,
    reasons: Reasons,
    number: Option<u32>,
) -> Result<Shown, AllocError> {
    let mut line = Shown::new(alloc);
    line.words(match reasons {
        Reasons::Required => "reasons required",
        Reasons::Optional => "reasons optional",
    })?;
    match number {
        Some(number) => {
            line.words(" event ")?;
            line.value(&number)?;
        }
        None => line.words(" already, and nothing is noted")?,
    }
    line.end_line()?;
    Ok(line)
}

/// Notes whether those who decide have to give a reason, unless it is so already. `BadData` where the store has no history.
pub fn require_reasons<A: Archives>(
    rt: &HostRuntime,
    archives: &A,
    store: &str,
    author: Author<'_>,
    reasons: Reasons,
) -> Result<(), Failure>
    ensures { OnOk result (IsLent (A.is_at archives.now store.now)) }
{
    author.named(rt)?;
    let number = lend(rt, archives, store, NoteReasons { author, reasons })?;
    write_text(rt, &reasons_line(rt.alloc(), reasons, number)?)
}

/// Notes in the history of an archive that what was found is accepted. Answers the number of the event.
#[derive(Drop)]
struct AcceptFound<'a>(Author<'a>);

impl Work for AcceptFound<'_> {
    type Answer = u32;

    fn work<S: Alter>(
        self,
        rt: &HostRuntime,
        archive: Store<S>,
    ) -> (Connection<S>, Result<u32, Failure>) {
        match open_noted(rt, archive) {
            Ok(noted) => {
                let (archive, done) = accept_findings(rt, noted, &self.0);
                (archive.into_connection(), done)
            }
            Err((archive, failure)) => (archive.into_connection(), Err(failure)),
        }
    }
}

/// In which event findings are accepted.
pub fn accepted_line(alloc: Global, number: u32) -> Result<Shown, AllocError> {
    let mut line = Shown::new(alloc);
    line.words("findings accepted event ")?;
    line.value(&number)?;
    line.end_line()?;
    Ok(line)
}

/// Notes that a person lets stand what a program that keeps no history has left. `BadData` where there is nothing to accept,
/// and where the store has no history.
pub fn accept_found<A: Archives>(
    rt: &HostRuntime,
    archives: &A,
    store: &str,
    author: Author<'_>,
) -> Result<(), Failure>
    ensures { OnOk result (IsLent (A.is_at archives.now store.now)) }
{
    author.named(rt)?;
    let number = lend(rt, archives, store, AcceptFound(author))?;
    write_text(rt, &accepted_line(rt.alloc(), number)?)
}
