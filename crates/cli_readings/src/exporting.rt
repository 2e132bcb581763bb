//! What an export makes of the records that are found.

ghost use Rattle.std.specs.Prelude.{◌≡◌, false, None, Some, IfOk, OnOk, option_map, string_bytes};
ghost use Rattle.std.specs.Option.{option_copied};
ghost use Rattle.record_choice.specs.Reads.{OnlyReads};
ghost use Rattle.cli_texts.specs.Rows.{last_fields};
ghost use Rattle.cli_choice.specs.Reads.{IsReadOf};
ghost use Rattle.cli_readings.specs.Shows.{is_unaltered};
ghost use Rattle.cli_readings.specs.Exports.{are_captured, sum_line};
ghost use Rattle.cli_readings.specs.Exporting.{Exports, HandsOver, HandsOverSome, IsExported, IsListed, IsListedAs, IsMet, IsNew, IsOf, TurnsTo, file_parts, is_met, letter_of, met_fields, more_exported, no_count, none_exported, noted_for, written_fields, written_of};

use crate::destination::Destination;
use crate::list::row_of;
use crate::outgoing::Outgoing;
use crate::report::record_of;
use cli_console::{Failure, Reader, message_of};
use cli_history::{Fidelity, Seals};
use cli_page::file_name;
use cli_texts::{Exported, Headers, Kept, headers_of, sum_of};
use record_choice::Repository;
use record_store::{RecordEntry, StoreFault};
use std::alloc::{AllocError, Global};

/// A message that was written to a file.
pub(crate) struct Written {
    message: u32,
    file: String,
    octets: usize,
    sum: String,
    headers: Headers,
}

impl Drop for Written {
    fn drop(self) {
        let Written {
            message: _,
            file: _,
            octets: _,
            sum: _,
            headers: _,
        } = self;
    }
}

impl Written {
    /// What the manifest says of it.
    fn kept(&self) -> Kept<'_>
        ensures { last_fields (Exported.Written result) ≡ written_fields self.now }
    {
        Kept {
            file: self.file.as_str(),
            octets: self.octets,
            sum: self.sum.as_str(),
            headers: &self.headers,
        }
    }
}

/// A message that an export has met.
#[derive(Drop)]
pub(crate) enum Met {
    Written(Written),
    /// The one of this number is not the one that was captured.
    Altered(u32),
}

/// Whether the message that was met last has a number.
fn is_last(last: &Option<Met>, message: u32) -> bool
    ensures { result ≡ is_met last.now message }
{
    match last {
        Some(Met::Written(written)) => written.message == message,
        Some(Met::Altered(altered)) => *altered == message,
        None => false,
    }
}

/// The message that was met last, where it was written.
fn written_in(last: &Option<Met>) -> Option<&Written>
    ensures { option_copied result ≡ written_of last.now }
{
    match last {
        Some(Met::Written(written)) => Some(written),
        Some(Met::Altered(_)) | None => None,
    }
}

/// What the manifest has of the message of a record, by what was written of it.
fn exported<'a>(seals: &'a Seals, written: Option<&'a Written>, message: u32) -> Exported<'a>
    ensures { last_fields result ≡ met_fields seals.now (option_copied written.entry) message }
{
    match written {
        Some(written) => Exported::Written(written.kept()),
        None => Exported::Altered(seals.length_and_sum(message)),
    }
}

/// What the index has of a message that was written.
fn letter_of_written(written: Option<&Written>) -> Option<(u32, &Headers)>
    ensures { option_map (λ l. (l.0, l.1.now)) result ≡ letter_of (option_copied written.entry) }
{
    match written {
        Some(written) => Some((written.message, &written.headers)),
        None => None,
    }
}

/// The line of a file in the list of sums.
pub(crate) fn line_of(alloc: Global, sum: &str, name: &str) -> Result<String, AllocError>
    ensures { IfOk result (λ line. string_bytes line ≡ sum_line sum.now name.now) }
{
    format!(in alloc; "{sum}  {name}\n")
}

/// Writes a message to a new file that is named by its number, and by that of its volume where it has one, and its sum to the list
/// of sums.
fn write_message<D: Destination + Drop>(
    alloc: Global,
    out: &mut Outgoing<D>,
    volume: Option<u32>,
    number: u32,
    octets: &[u8],
) -> Result<Written, Failure>
    ensures told { IfOk result (λ w. IsOf volume number octets.now w) }
    ensures handed { OnOk result
        (HandsOver D.made out.old (file_parts volume number octets.now) out.new) }
{
    let name = file_name(alloc, volume, number)?;
    out.write_file(name.as_str(), octets)?;
    let sum = sum_of(alloc, octets)?;
    let line = line_of(alloc, sum.as_str(), name.as_str())?;
    out.write_sum(line.as_str())?;
    Ok(Written {
        message: number,
        file: name,
        octets: octets.len(),
        sum,
        headers: headers_of(alloc, octets)?,
    })
}

/// Whether a message is the one that was captured, as far as that is known.
fn is_unaltered(fidelity: Fidelity) -> bool
    ensures { result ≡ is_unaltered fidelity }
{
    match fidelity {
        Fidelity::Unsealed | Fidelity::Same => true,
        Fidelity::Altered(_) => false,
    }
}

/// Writes a message, if it is the one that was captured, as far as that is known.
fn meet<D: Destination + Drop>(
    alloc: Global,
    out: &mut Outgoing<D>,
    volume: Option<u32>,
    seals: &Seals,
    number: u32,
    octets: &[u8],
) -> Result<Met, Failure>
    ensures { IfOk result (λ met. HandsOverSome D.made out.old (λ files. IsMet volume
        (are_captured seals.now number octets.now) number octets.now files (Some met)) out.new) }
{
    let fidelity = seals.is_captured(alloc, number, octets)?;
    if !is_unaltered(fidelity) {
        return Ok(Met::Altered(number));
    }
    let written = write_message(alloc, out, volume, number, octets)?;
    Ok(Met::Written(written))
}

/// Adds a record to the lists, with what these have of its message.
fn list_record<D: Destination + Drop>(
    out: &mut Outgoing<D>,
    volume: Option<u32>,
    entry: &RecordEntry,
    letter: Option<(u32, &Headers)>,
    message: Exported<'_>,
) -> Result<(), Failure>
    ensures { OnOk result (HandsOverSome D.made out.old (λ parts.
        IsListed volume entry.now (last_fields message.entry)
        (option_map (λ l. (l.0, l.1.now)) letter.entry) parts) out.new) }
{
    out.list(&record_of(volume, entry), letter)?;
    out.follow(volume, entry)?;
    out.write_row(&row_of(volume, entry), message)?;
    Ok(())
}

/// Notes that the message of a record is another one, where it was not written.
fn note_unless_written<D: Destination + Drop>(
    out: &mut Outgoing<D>,
    volume: Option<u32>,
    written: Option<&Written>,
    number: u32,
) -> Result<(), Failure>
    ensures { OnOk result (HandsOver D.made out.old
        (noted_for volume (option_copied written.entry) number) out.new) }
{
    match written {
        Some(_) => Ok(()),
        None => out.note_altered(volume, number),
    }
}

/// Adds a record to the lists whose message is the one that was met last.
fn list_met<D: Destination + Drop>(
    out: &mut Outgoing<D>,
    volume: Option<u32>,
    seals: &Seals,
    last: &Option<Met>,
    entry: &RecordEntry,
) -> Result<(), Failure>
    ensures { OnOk result (HandsOverSome D.made out.old
        (λ parts. IsListedAs volume seals.now entry.now last.now parts) out.new) }
{
    let written = written_in(last);
    note_unless_written(out, volume, written, entry.number)?;
    let letter = letter_of_written(written);
    list_record(
        out,
        volume,
        entry,
        letter,
        exported(seals, written, entry.message),
    )
}

/// An export to which records are added.
#[derive(Drop)]
pub(crate) struct Exporting<'a, D> {
    rt: &'a HostRuntime,
    pub(crate) out: Outgoing<D>,
    /// The number of the volume whose records are added, in an archive of volumes.
    volume: Option<u32>,
    /// By which messages are judged.
    seals: Seals,
    /// The message that was met last.
    last: Option<Met>,
}

impl<'a, D: Destination + Drop> Exporting<'a, D> {
    /// An export of nothing yet.
    pub(crate) fn new(rt: &'a HostRuntime, seals: Seals, destination: D) -> Exporting<'a, D>
        ensures destination { result.out.destination ≡ destination }
        ensures count { result.out.count ≡ no_count }
        ensures volume { result.volume ≡ None }
        ensures seals { result.seals ≡ seals }
        ensures last { result.last ≡ None }
    {
        Exporting {
            rt,
            out: Outgoing::new(destination),
            volume: None,
            seals,
            last: None,
        }
    }

    /// Goes on with the records of a volume, whose messages are judged by these seals. None of them was met yet.
    pub(crate) fn turn_to(&mut self, volume: u32, seals: Seals)
        ensures { TurnsTo volume seals self.old self.new }
    {
        self.volume = Some(volume);
        self.seals = seals;
        self.last = None;
    }

    /// What went out of it.
    pub(crate) fn into_outgoing(self) -> Outgoing<D>
        ensures { result ≡ self.entry.out }
    {
        self.out
    }

    /// Exports a live record whose message was not met at the record before.
    fn export_new<R: Repository<Fault = StoreFault>>(
        &mut self,
        archive: &mut R,
        entry: &RecordEntry,
    ) -> Result<(), Failure>
        ensures reads { OnlyReads R.clean R.stands archive.old archive.new }
        ensures exported { OnOk result (IsReadOf R.clean R.stands archive.old archive.new
            (λ a. HandsOverSome D.made self.old.out
            (λ parts. IsNew self.old.volume a self.old.seals entry.now self.new.last parts)
            self.new.out)) }
        ensures seals { self.new.seals ≡ self.old.seals }
        ensures volume { self.new.volume ≡ self.old.volume }
    {
        let octets = message_of(self.rt, archive, entry)?;
        let met = meet(
            self.rt.alloc(),
            &mut self.out,
            self.volume,
            &self.seals,
            entry.message,
            octets.as_slice(),
        )?;
        self.last = Some(met);
        list_met(&mut self.out, self.volume, &self.seals, &self.last, entry)?;
        Ok(())
    }

    /// Exports a live record.
    fn export_live<R: Repository<Fault = StoreFault>>(
        &mut self,
        archive: &mut R,
        entry: &RecordEntry,
    ) -> Result<(), Failure>
        ensures reads { OnlyReads R.clean R.stands archive.old archive.new }
        ensures exported { OnOk result (IsReadOf R.clean R.stands archive.old archive.new
            (λ a. HandsOverSome D.made self.old.out
            (λ parts. IsExported self.old.volume false (is_met self.old.last entry.now.message) a
            self.old.seals entry.now self.old.last self.new.last parts) self.new.out)) }
        ensures seals { self.new.seals ≡ self.old.seals }
        ensures volume { self.new.volume ≡ self.old.volume }
    {
        if is_last(&self.last, entry.message) {
            list_met(&mut self.out, self.volume, &self.seals, &self.last, entry)?;
            return Ok(());
        }
        self.export_new(archive, entry)?;
        Ok(())
    }
}

impl<D: Destination + Drop> Reader for Exporting<'_, D> {
    ghost takes = { λ old a es new. Exports D.made old a es new };

    fn take<R: Repository<Fault = StoreFault>>(
        &mut self,
        archive: &mut R,
        entry: &RecordEntry,
        _headers: Option<&Headers>,
    ) -> Result<(), Failure> {
        if entry.destroyed {
            list_record(&mut self.out, self.volume, entry, None, Exported::Destroyed)?;
            return Ok(());
        }
        self.export_live(archive, entry)?;
        Ok(())
    }

    ghost takes_none = { λ exporting a. none_exported D.made exporting a };

    ghost takes_more = { λ x y z a es fs one other. more_exported D.made x y z a es fs one other };
}
