//! What reads the records of an archive of volumes, one volume after another.

ghost use Rattle.std.specs.Prelude.{ℕ, List, OnOk};
ghost use Rattle.record_archive.specs.Archive.{Archive};
ghost use Rattle.record_choice.specs.declared.entry.RecordEntry.{RecordEntry};
ghost use Rattle.cli_readings.specs.VolumeReads.{ReadsFound};

use cli_choice::Questions;
use cli_console::Failure;
use command_lines::archives::Choice;
use record_store::Store;
use sqlite::Alter;

/// Who reads the records of volumes, one volume after another.
pub trait VolumeReader: Drop {
    /// It took these records of a volume, which has this archive, each once, in this order, and nothing else.
    ghost takes: { (volume : ℕ) → Self → Archive → List RecordEntry → Self → Type 0 };

    /// Reads the records of a volume that meet a choice, and whose messages have what is asked of them. `BadData` where the class is
    /// none of the plan of the volume; also where a number that is typed by itself is not found, which was reported: then all
    /// that is found was read.
    fn read_volume<S: Alter>(
        &mut self,
        rt: &HostRuntime,
        archive: &mut Store<S>,
        volume: u32,
        choice: &Choice<'_>,
        questions: &Questions,
    ) -> Result<(), Failure>
        ensures { OnOk result (ReadsFound S.Store (takes volume) choice.now questions.now
            archive.old archive.new.conn self.old self.new) };
}
