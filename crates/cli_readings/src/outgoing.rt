//! What goes out of an export, and how much that is.

ghost use Rattle.std.specs.Prelude.{◌≡◌, ◌∷◌, ◌++◌, [], OnOk, option_map};
ghost use Rattle.cli_texts.specs.Rows.{last_fields, record_fields};
ghost use Rattle.cli_readings.specs.Exporting.{HandsOver, no_count, with_message, with_record};
ghost use Rattle.cli_readings.specs.Parts as part;

use crate::destination::Destination;
use cli_console::Failure;
use cli_page::Record;
use cli_texts::{Exported, Headers, Row};
use record_store::RecordEntry;

/// How much an export has.
#[derive(Clone, Copy)]
pub(crate) struct Count {
    pub(crate) records: u64,
    pub(crate) messages: u64,
    pub(crate) octets: u64,
}

impl Count {
    /// Adds a message of so many octets.
    fn add_message(&mut self, octets: usize)
        ensures { self.new ≡ with_message octets self.old }
    {
        self.messages = self.messages.saturating_add(1);
        self.octets = self.octets.saturating_add(octets as u64);
    }

    /// Adds a record.
    fn add_record(&mut self)
        ensures { self.new ≡ with_record self.old }
    {
        self.records = self.records.saturating_add(1);
    }
}

/// A destination, and how much went there.
#[derive(Drop)]
pub(crate) struct Outgoing<D> {
    pub(crate) destination: D,
    pub(crate) count: Count,
}

impl<D: Destination + Drop> Outgoing<D> {
    /// A destination to which nothing went yet.
    pub(crate) fn new(destination: D) -> Outgoing<D>
        ensures destination { result.destination ≡ destination }
        ensures count { result.count ≡ no_count }
    {
        Outgoing {
            destination,
            count: Count {
                records: 0,
                messages: 0,
                octets: 0,
            },
        }
    }

    /// Makes the file of a message.
    pub(crate) fn write_file(&mut self, name: &str, octets: &[u8]) -> Result<(), Failure>
        ensures { OnOk result (HandsOver D.made self.old
            (part.file name.now octets.now ∷ []) self.new) }
    {
        self.destination.write_file(name, octets)?;
        self.count.add_message(octets.len());
        Ok(())
    }

    /// Adds a line to the list of sums.
    pub(crate) fn write_sum(&mut self, line: &str) -> Result<(), Failure>
        ensures { OnOk result (HandsOver D.made self.old (part.sum line.now ∷ []) self.new) }
    {
        self.destination.write_sum(line)?;
        Ok(())
    }

    /// Notes that the message of a record, of a volume in an archive of volumes, is not the one that was captured.
    pub(crate) fn note_altered(&mut self, volume: Option<u32>, number: u32) -> Result<(), Failure>
        ensures { OnOk result
            (HandsOver D.made self.old (part.altered volume number ∷ []) self.new) }
    {
        self.destination.note_altered(volume, number)?;
        Ok(())
    }

    /// Adds a record to the index, with the number of its message's file and what its header says, where it has one.
    pub(crate) fn list(
        &mut self,
        shown: &Record<'_>,
        letter: Option<(u32, &Headers)>,
    ) -> Result<(), Failure>
        ensures { OnOk result (HandsOver D.made self.old
            (part.listed shown.now (option_map (λ l. (l.0, l.1.now)) letter.entry) ∷ [])
            self.new) }
    {
        self.destination.list(shown, letter)?;
        Ok(())
    }

    /// Notes that the history of a store, or of a volume, is to have the events of a record and of its message.
    pub(crate) fn follow(&mut self, volume: Option<u32>, entry: &RecordEntry) -> Result<(), Failure>
        ensures { OnOk result (HandsOver D.made self.old
            (part.subject volume entry.now.number entry.now.message ∷ []) self.new) }
    {
        self.destination.follow(volume, entry)?;
        Ok(())
    }

    /// Adds the row of a record to the manifest.
    pub(crate) fn write_row(&mut self, row: &Row<'_>, message: Exported<'_>) -> Result<(), Failure>
        ensures { OnOk result (HandsOver D.made self.old
            (part.row (record_fields row.now ++ last_fields message.entry) ∷ []) self.new) }
    {
        self.destination.write_row(row, message)?;
        self.count.add_record();
        Ok(())
    }
}
