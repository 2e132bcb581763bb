//! `show`: the message of a record.

ghost use Rattle.std.specs.Prelude.{◌≡◌, IfOk, Ok, OnOk, Some, true};
ghost use Rattle.sqlite.specs.State.{HasCleanDisk};
ghost use Rattle.sqlite.specs.Held.{state};
ghost use Rattle.record_archive.specs.Archive.{Archive, message};
ghost use Rattle.record_choice.specs.Reads.{OnlyReads};
ghost use Rattle.record_history.specs.Replay.{seal};
ghost use Rattle.cli_history.specs.Seals.{fidelity, known};
ghost use Rattle.cli_choice.specs.Reads.{IsReadOf};
ghost use Rattle.record_store.specs.Stores.{StandsFor};
ghost use Rattle.cli_readings.specs.Chosen.{AreCapturedIn, OnlyReadsStore, ShowsCaptured, ShowsOf};
ghost use Rattle.cli_readings.specs.Shows.{IsEntryOf, is_unaltered};

use cli_console::{Failure, Status, write_data, write_text};
use cli_history::{Fidelity, Seals, altered_words};
use command_lines::archives::TypedNumber;
use mail_head::{Field, read_head};
use mail_words::value_of;
use record_choice::Repository;
use record_store::{RecordEntry, Store, StoreFault};
use sqlite::Alter;
use std::alloc::{AllocError, Global};
use tool_texts::{Shown, put};

/// Adds a field of a message as the archive reads it, in a line with its number.
fn put_field(
    alloc: Global,
    text: &mut Shown,
    number: usize,
    field: &Field<'_>,
) -> Result<(), AllocError> {
    let value = value_of(alloc, field.raw())?;
    put!(text; "field " value(&number) " " named(field.name()) " " quoted(value.as_slice()))?;
    text.end_line()
}

/// Adds the fields of a message as the archive reads them, a line each, numbered from 1.
fn put_fields(alloc: Global, text: &mut Shown, message: &[u8]) -> Result<(), AllocError> {
    put!(text; "message of " value(&message.len()) " octets")?;
    text.end_line()?;
    for (index, field) in read_head(alloc, message)?.fields().iter().enumerate() {
        put_field(alloc, text, index.saturating_add(1), field)?;
    }
    Ok(())
}

/// Writes the fields of a message as the archive reads them, a line each, numbered from 1.
fn write_fields(rt: &HostRuntime, message: &[u8]) -> Result<(), Failure> {
    let mut text = Shown::new(rt.alloc());
    put_fields(rt.alloc(), &mut text, message)?;
    write_text(rt, &text)
}

/// The entry of a record. `BadData` where there is none of its number (80).
pub(crate) fn entry_of<R: Repository<Fault = StoreFault>>(
    alloc: Global,
    archive: &mut R,
    typed: TypedNumber<'_>,
) -> Result<RecordEntry, Failure>
    ensures reads { OnlyReads R.clean R.stands archive.old archive.new }
    ensures told { IfOk result (λ e. IsReadOf R.clean R.stands archive.old archive.new
        (λ a. IsEntryOf a typed.entry.number e)) }
{
    match archive.entry(typed.number) {
        Ok(entry) => Ok(entry),
        Err(fault) => Err(Failure::of_store(alloc, typed.word, fault)),
    }
}

/// Finds that octets are those that were captured as the message of an entry, as far as its seal is known. `BadData` where they
/// are not, told with the number of the volume, in an archive of volumes.
fn judge_octets(
    alloc: Global,
    volume: Option<u32>,
    seals: &Seals,
    entry: &RecordEntry,
    octets: &[u8],
) -> Result<(), Failure>
    ensures { OnOk result
        (is_unaltered (fidelity (known seals.now entry.now.message) (seal octets.now)) ≡ true) }
{
    match seals.is_captured(alloc, entry.message, octets)? {
        Fidelity::Unsealed | Fidelity::Same => Ok(()),
        Fidelity::Altered(event) => {
            let words = altered_words(alloc, entry.number, event);
            Err(Failure::shown(Status::BadData, words).in_volume(alloc, volume))
        }
    }
}

/// The octets of the message of an entry. `BadData` where it is destroyed, and where they are not those that were captured, as
/// far as its seal is known.
fn octets_of<R: Repository<Fault = StoreFault>>(
    alloc: Global,
    archive: &mut R,
    typed: TypedNumber<'_>,
    entry: &RecordEntry,
    seals: &Seals,
) -> Result<Vec<u8>, Failure>
    ensures reads { OnlyReads R.clean R.stands archive.old archive.new }
    ensures told { IfOk result (λ octets. IsReadOf R.clean R.stands archive.old archive.new
        (λ a. message a entry.now.number ≡ Ok (Some octets.items))) }
    ensures captured { IfOk result (λ octets. is_unaltered
        (fidelity (known seals.now entry.now.message) (seal octets.items)) ≡ true) }
{
    match archive.message(entry.number) {
        Ok(octets) => {
            judge_octets(alloc, typed.volume, seals, entry, octets.as_slice())?;
            Ok(octets)
        }
        Err(fault) => Err(Failure::of_store(alloc, typed.word, fault)),
    }
}

/// The message of an entry. `BadData` where it is destroyed, and where it is not the one that was captured.
pub(crate) fn message_of_entry<S: Alter>(
    rt: &HostRuntime,
    archive: &mut Store<S>,
    typed: TypedNumber<'_>,
    entry: &RecordEntry,
) -> Result<Vec<u8>, Failure>
    ensures reads { OnOk result (OnlyReadsStore S.Store archive.old archive.new) }
    ensures told { IfOk result (λ octets. ShowsOf S.Store entry.now.number octets.items archive.old
        archive.new.conn) }
    ensures captured { IfOk result (λ octets. HasCleanDisk (state S.Store archive.new.conn)
        → (a : Archive) → StandsFor S.Store archive.old a
        → AreCapturedIn S.Store archive.old entry.now.message octets.items) }
{
    let seals = Seals::of_message(rt, archive, entry.message)?;
    let octets = octets_of(rt.alloc(), archive, typed, entry, &seals)?;
    Ok(octets)
}

/// The message of a record. `BadData` where there is no record of its number, where it is destroyed, and where its message is
/// not the one that was captured, as the history of the store has it.
pub fn message_of_record<S: Alter>(
    rt: &HostRuntime,
    archive: &mut Store<S>,
    typed: TypedNumber<'_>,
) -> Result<Vec<u8>, Failure>
    ensures reads { OnOk result (OnlyReadsStore S.Store archive.old archive.new) }
    ensures told { IfOk result (λ octets. ShowsOf S.Store typed.entry.number octets.items
        archive.old archive.new.conn) }
    ensures captured { IfOk result (λ octets. ShowsCaptured S.Store typed.entry.number
        octets.items archive.old archive.new.conn) }
{
    let entry = entry_of(rt.alloc(), archive, typed)?;
    let message = message_of_entry(rt, archive, typed, &entry)?;
    Ok(message)
}

/// Writes a message to standard output, octet by octet, or the fields of its header.
pub fn write_message(rt: &HostRuntime, message: &[u8], fields: bool) -> Result<(), Failure> {
    if fields {
        write_fields(rt, message)
    } else {
        write_data(rt, message)
    }
}
