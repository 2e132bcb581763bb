//! What is done with the messages of all sources.

ghost use Rattle.std.specs.Prelude.{◌≡◌, [], List, IfOk, OnErr, OnOk, map, string_bytes};
ghost use Rattle.mail_boxes.specs.Boxes.{message_view};
ghost use Rattle.mail_import.specs.Imports.{Breaks, Does, TakesAll};
ghost use Rattle.mail_import.specs.Findings.{AreOfFiles, AreOfFolder, AreOfMbox, AreOfSource, AreOfSources, Finding, IsBoxed, IsFiled, boxed_name, rest_of, undated_of};
ghost use Rattle.mail_import.specs.Sources.{Mail};

use crate::fate::Stay;
use crate::message::{Progress, Terms, leave, take};
use crate::room::OldMailroom;
use mail_boxes::BoxMessage;
use mail_sources::{MailFiles, Source};
use std::alloc::{AllocError, Global};

/// The name of the message with a number of the mbox at a path.
fn boxed_name(alloc: Global, path: &str, number: u64) -> Result<String, AllocError>
    ensures { IfOk result (λ name. string_bytes name ≡ boxed_name path.now number) }
{
    format!(in alloc; "{path}:{number}")
}

/// Takes the message with a number of the mbox at a path.
fn take_boxed<M: OldMailroom>(
    alloc: Global,
    room: &mut M,
    terms: &Terms,
    progress: &mut Progress,
    path: &str,
    number: u64,
    message: BoxMessage,
) -> Result<(), M::Fault>
    ensures taken { OnOk result (TakesAll M.goes M.has terms.now
        (IsBoxed path.now number (message_view message))
        room.old progress.old room.new progress.new) }
    ensures ended { OnErr result (Breaks M.goes M.has terms.now
        (IsBoxed path.now number (message_view message))
        room.old progress.old room.new progress.new) }
{
    let name = boxed_name(alloc, path, number)?;
    match message {
        BoxMessage::Whole(octets) => take(alloc, room, terms, progress, name.as_str(), octets),
        BoxMessage::TooLong => {
            leave(room, progress, name.as_str(), Stay::TooLong);
            Ok(())
        }
    }
}

/// Takes the message of the file at a path.
fn take_file<M: OldMailroom>(
    alloc: Global,
    room: &mut M,
    terms: &Terms,
    progress: &mut Progress,
    path: &str,
) -> Result<(), M::Fault>
    ensures taken { OnOk result (TakesAll M.goes M.has terms.now (IsFiled path.now)
        room.old progress.old room.new progress.new) }
    ensures ended { OnErr result (Breaks M.goes M.has terms.now (IsFiled path.now)
        room.old progress.old room.new progress.new) }
{
    match room.read(path) {
        Ok(octets) => take(alloc, room, terms, progress, path, octets),
        Err(reason) => {
            leave(room, progress, path, Stay::For(reason));
            Ok(())
        }
    }
}

/// Tells which lines of an mbox that was read look like separators and have no date, if there are any.
fn tell_undated<M: OldMailroom>(room: &mut M, mbox: &M::Mbox, path: &str)
    ensures { (ss : List Finding)
        × ((terms : Terms) (p : Progress) → Does M.goes M.has terms room.old p ss room.new p)
        × ((m : Mail) → M.has room.old m → M.left mbox.now path.now []
        → ss ≡ undated_of path.now (m.undated path.now)) }
{
    let lines = room.undated(mbox, path);
    if let Some(first) = lines.first {
        room.tell_undated(path, first, lines.count);
    }
}

/// Takes the messages of the mbox at a path. One of more messages than can be counted is refused for want of memory.
fn take_mbox<M: OldMailroom>(
    alloc: Global,
    room: &mut M,
    terms: &Terms,
    progress: &mut Progress,
    path: &str,
) -> Result<(), M::Fault>
    ensures taken { OnOk result (TakesAll M.goes M.has terms.now (AreOfMbox path.now)
        room.old progress.old room.new progress.new) }
    ensures ended { OnErr result (Breaks M.goes M.has terms.now (AreOfMbox path.now)
        room.old progress.old room.new progress.new) }
{
    let mut mbox = room.open(path)?;
    let first = room.first_number(&mbox, path);
    for number in first..u64::MAX {
        let Some(message) = room.next_message(&mut mbox, path)? else {
            tell_undated(room, &mbox, path);
            return Ok(());
        };
        take_boxed(alloc, room, terms, progress, path, number, message)?;
    }
    Err(M::Fault::from(AllocError))
}

/// Takes the messages of files.
fn take_files<M: OldMailroom>(
    alloc: Global,
    room: &mut M,
    terms: &Terms,
    progress: &mut Progress,
    paths: &[String],
) -> Result<(), M::Fault>
    ensures taken { OnOk result (TakesAll M.goes M.has terms.now
        (AreOfFiles (map string_bytes paths.now)) room.old progress.old room.new progress.new) }
    ensures ended { OnErr result (Breaks M.goes M.has terms.now
        (AreOfFiles (map string_bytes paths.now)) room.old progress.old room.new progress.new) }
{
    for path in paths {
        take_file(alloc, room, terms, progress, path.as_str())?;
    }
    Ok(())
}

/// Tells what stays of a folder at a path without a name, or that it has no message at all.
fn tell_rest<M: OldMailroom>(room: &mut M, progress: &mut Progress, path: &str, files: &MailFiles)
    ensures { (terms : Terms) → Does M.goes M.has terms room.old progress.old
        (rest_of path.now (map string_bytes files.now.paths.items) files.now.nameless)
        room.new progress.new }
{
    if files.nameless > 0 {
        progress.tally.count_nameless(files.nameless);
        room.tell_nameless(files.nameless);
    } else if files.paths.as_slice().is_empty() {
        progress.tally.count_empty();
        room.tell_empty(path);
    }
}

/// Takes the messages of the folder or Maildir at a path, and counts what lies beside them.
fn take_folder<M: OldMailroom>(
    alloc: Global,
    room: &mut M,
    terms: &Terms,
    progress: &mut Progress,
    source: Source<'_>,
    path: &str,
) -> Result<(), M::Fault>
    ensures taken { OnOk result (TakesAll M.goes M.has terms.now (AreOfFolder source.entry path.now)
        room.old progress.old room.new progress.new) }
    ensures ended { OnErr result (Breaks M.goes M.has terms.now (AreOfFolder source.entry path.now)
        room.old progress.old room.new progress.new) }
{
    let files = room.files(source)?;
    take_files(alloc, room, terms, progress, files.paths.as_slice())?;
    tell_rest(room, progress, path, &files);
    let passed = room.beside(source)?;
    progress.tally.count_beside(&passed);
    Ok(())
}

/// Takes the messages of a source.
fn take_source<M: OldMailroom>(
    alloc: Global,
    room: &mut M,
    terms: &Terms,
    progress: &mut Progress,
    source: Source<'_>,
) -> Result<(), M::Fault>
    ensures taken { OnOk result (TakesAll M.goes M.has terms.now (AreOfSource source.entry)
        room.old progress.old room.new progress.new) }
    ensures ended { OnErr result (Breaks M.goes M.has terms.now (AreOfSource source.entry)
        room.old progress.old room.new progress.new) }
{
    match source {
        Source::Mbox(path) => take_mbox(alloc, room, terms, progress, path),
        Source::Folder(path) => take_folder(alloc, room, terms, progress, source, path),
        Source::Maildir(path) => take_folder(alloc, room, terms, progress, source, path),
    }
}

/// Takes the messages of all sources: each message once, in the order of the sources, of the messages of an mbox, and of the
/// paths of files. Each is captured, passed over since it is captured already, or left out with a reason, which is told; and each
/// is counted once.
///
/// An `Err` ends it: a source that cannot be read, an archive that can capture nothing more, or want of memory. What was found
/// by then is a beginning of all findings, and stays done.
pub fn import_sources<M: OldMailroom>(
    alloc: Global,
    room: &mut M,
    terms: &Terms,
    progress: &mut Progress,
    sources: &[Source<'_>],
) -> Result<(), M::Fault>
    ensures taken { OnOk result (TakesAll M.goes M.has terms.now (AreOfSources sources.now)
        room.old progress.old room.new progress.new) }
    ensures ended { OnErr result (Breaks M.goes M.has terms.now (AreOfSources sources.now)
        room.old progress.old room.new progress.new) }
{
    for source in sources {
        take_source(alloc, room, terms, progress, *source)?;
    }
    Ok(())
}
