//! Where an export goes.

ghost use Rattle.std.specs.Prelude.{◌≡◌, ◌∷◌, ◌++◌, [], List, OnOk, option_map, ⊤};
ghost use Rattle.cli_texts.specs.Rows.{last_fields, record_fields};
ghost use Rattle.cli_readings.specs.Parts.{Part};
ghost use Rattle.cli_readings.specs.Parts as part;
ghost use Rattle.cli_console.specs.Sinks.{Writes};

use crate::altered::Altered;
use crate::folder::{ListFile, judge_free, make_file, make_folder, write_to};
use cli_console::Failure;
use cli_history::Subjects;
use cli_page::{Index, Record, history_name};
use cli_texts::{Exported, Headers, MANIFEST_HEADER, Row, manifest_row};
use record_store::RecordEntry;
use std::alloc::Global;

/// The file of an export that lists its records.
const MANIFEST: &str = "manifest.csv";

/// The file of an export that has the sums of the others.
const SUMS: &str = "SHA256SUMS";

/// The file of an export that lists its records for people.
pub(crate) const INDEX: &str = "index.html";

/// Where an export goes: files, and the lists that tell of them and of the records. An export reaches these by such calls alone.
pub(crate) trait Destination {
    /// These parts have been handed over, in this order, and no others.
    ghost made: { Self → List Part → Type 0 };

    /// Makes it ready for the files of an export, of which none may be there yet.
    fn prepare(&mut self) -> Result<(), Failure>
        ensures { OnOk result (Writes made self.old self.new []) };

    /// Makes a new file of a name with these octets.
    fn write_file(&mut self, name: &str, octets: &[u8]) -> Result<(), Failure>
        ensures { OnOk result
            (Writes made self.old self.new (part.file name.now octets.now ∷ [])) };

    /// Adds a line to the list of sums.
    fn write_sum(&mut self, line: &str) -> Result<(), Failure>
        ensures { OnOk result (Writes made self.old self.new (part.sum line.now ∷ [])) };

    /// Notes that the message of a record, of a volume in an archive of volumes, is not the one that was captured.
    fn note_altered(&mut self, volume: Option<u32>, number: u32) -> Result<(), Failure>
        ensures { OnOk result (Writes made self.old self.new (part.altered volume number ∷ [])) };

    /// Adds a record to the index, with the number of its message's file and what its header says, where it has one.
    fn list(&mut self, shown: &Record<'_>, letter: Option<(u32, &Headers)>) -> Result<(), Failure>
        ensures { OnOk result (Writes made self.old self.new
            (part.listed shown.now (option_map (λ l. (l.0, l.1.now)) letter.entry) ∷ [])) };

    /// Notes that the history of a store, or of a volume, is to have the events of a record and of its message.
    fn follow(&mut self, volume: Option<u32>, entry: &RecordEntry) -> Result<(), Failure>
        ensures { OnOk result (Writes made self.old self.new
            (part.subject volume entry.now.number entry.now.message ∷ [])) };

    /// Adds the row of a record to the manifest.
    fn write_row(&mut self, row: &Row<'_>, message: Exported<'_>) -> Result<(), Failure>
        ensures { OnOk result (Writes made self.old self.new
            (part.row (record_fields row.now ++ last_fields message.entry) ∷ [])) };
}

/// What is noted of the records of a store, or of a volume, while they are exported.
#[derive(Drop)]
pub(crate) struct Noted {
    /// The number of the volume, in an archive of volumes.
    pub(crate) volume: Option<u32>,
    /// Whose events are written.
    pub(crate) subjects: Subjects,
    /// Those whose messages are not written, since they are not the ones that were captured.
    pub(crate) altered: Altered,
}

impl Noted {
    /// Nothing of a store, or of a volume.
    fn nothing(alloc: Global, volume: Option<u32>) -> Noted {
        Noted {
            volume,
            subjects: Subjects::new(alloc),
            altered: Altered::none(alloc),
        }
    }
}

/// A folder to which records are exported, of which nothing is claimed.
pub(crate) struct Folder<'a> {
    pub(crate) rt: &'a HostRuntime,
    pub(crate) path: &'a str,
    /// The number of the last volume, in an archive of volumes.
    last: Option<u32>,
    pub(crate) manifest: ListFile,
    pub(crate) sums: ListFile,
    pub(crate) index: Index,
    /// What is noted of the store, or of the volume, whose records were exported last.
    pub(crate) noted: Noted,
    /// The volumes whose events are written; the store has none.
    pub(crate) histories: Vec<Option<u32>>,
}

impl Drop for Folder<'_> {
    fn drop(self) {
        let Folder {
            rt: _,
            path: _,
            last: _,
            manifest: _,
            sums: _,
            index: _,
            noted: _,
            histories: _,
        } = self;
    }
}

impl<'a> Folder<'a> {
    /// A folder without files of an export, for the records of a store, or of an archive whose last volume has this number.
    pub(crate) fn new(rt: &'a HostRuntime, path: &'a str, last: Option<u32>) -> Folder<'a>
        ensures { result.path.now ≡ path.now }
    {
        let alloc = rt.alloc();
        Folder {
            rt,
            path,
            last,
            manifest: ListFile::new(MANIFEST, MANIFEST_HEADER),
            sums: ListFile::new(SUMS, ""),
            index: Index::new(alloc),
            noted: Noted::nothing(alloc, None),
            histories: Vec::new(alloc),
        }
    }

    /// Finds that the file of the events of the store, or of each volume, is not there yet.
    fn judge_histories(&self) -> Result<(), Failure> {
        let Some(last) = self.last else {
            let name = history_name(self.rt.alloc(), None)?;
            return judge_free(self.rt, self.path, name.as_str());
        };
        for below in 0..last {
            let name = history_name(self.rt.alloc(), Some(below + 1))?;
            judge_free(self.rt, self.path, name.as_str())?;
        }
        Ok(())
    }

    /// Turns to a store, or to a volume, of which is noted what follows.
    fn turn_to(&mut self, volume: Option<u32>) {
        if self.noted.volume != volume {
            self.noted = Noted::nothing(self.rt.alloc(), volume);
        }
    }

    /// Where it is, the index of the records, and the volumes whose events are written.
    pub(crate) fn into_lists(self) -> (&'a str, Index, Vec<Option<u32>>) {
        let Folder {
            rt: _,
            path,
            last: _,
            manifest: _,
            sums: _,
            index,
            noted: _,
            histories,
        } = self;
        (path, index, histories)
    }

    /// Makes the files of the lists that are not there yet, since nothing was added to them.
    pub(crate) fn end(&mut self) -> Result<(), Failure> {
        self.manifest.write(self.rt, self.path, b"")?;
        self.sums.write(self.rt, self.path, b"")
    }
}

impl Destination for Folder<'_> {
    ghost made = { λ folder parts. ⊤ };

    fn prepare(&mut self) -> Result<(), Failure> {
        make_folder(self.rt, self.path)?;
        for name in [MANIFEST, SUMS, INDEX] {
            judge_free(self.rt, self.path, name)?;
        }
        self.judge_histories()
    }

    fn write_file(&mut self, name: &str, octets: &[u8]) -> Result<(), Failure> {
        let mut file = make_file(self.rt, self.path, name)?;
        write_to(self.rt, self.path, &mut file, octets)
    }

    fn write_sum(&mut self, line: &str) -> Result<(), Failure> {
        self.sums.write(self.rt, self.path, line.as_bytes())
    }

    fn note_altered(&mut self, volume: Option<u32>, number: u32) -> Result<(), Failure> {
        self.turn_to(volume);
        Ok(self.noted.altered.add(number)?)
    }

    fn list(&mut self, shown: &Record<'_>, letter: Option<(u32, &Headers)>) -> Result<(), Failure> {
        Ok(self.index.add(shown, letter)?)
    }

    fn follow(&mut self, volume: Option<u32>, entry: &RecordEntry) -> Result<(), Failure> {
        self.turn_to(volume);
        Ok(self.noted.subjects.add(entry)?)
    }

    fn write_row(&mut self, row: &Row<'_>, message: Exported<'_>) -> Result<(), Failure> {
        let line = manifest_row(self.rt.alloc(), row, message)?;
        self.manifest.write(self.rt, self.path, line.as_slice())
    }
}
