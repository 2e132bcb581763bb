//! The rows of the tables that both versions have.

ghost use Rattle.std.specs.Prelude.{◌≡◌};
ghost use Rattle.sqlite.specs.Held.{state};
ghost use Rattle.record_tables.specs.Tables.{HasCommonTables};
ghost use Rattle.record_tables.specs.Steps.{ReadsAlone, Learns, Rejects};
ghost use Rattle.record_adoption.specs.Adoption.{CommonLists, HasLists, AreSmall, common_lists, Sees, AreTypedFirst};

use record_reads::read::{classes, holds, message_numbers, records, settings};
use record_tables::fault::Fault;
use record_tables::rows::{ClassRow, HoldRow, RecordRow, SettingRow};
use sqlite::{Alter, Connection};
use std::alloc::Global;

/// Messages, records and holds, in the order of their keys.
pub(crate) struct ArchiveRows {
    pub(crate) records: Vec<RecordRow>,
    /// The numbers of the messages.
    pub(crate) messages: Vec<u32>,
    pub(crate) holds: Vec<HoldRow>,
}

impl Drop for ArchiveRows {
    fn drop(self) {
        let ArchiveRows {
            records: _,
            messages: _,
            holds: _,
        } = self;
    }
}

/// The rows of all tables that both versions have, in the order of their keys.
pub(crate) struct CommonRows {
    pub(crate) settings: Vec<SettingRow>,
    pub(crate) classes: Vec<ClassRow>,
    pub(crate) archive: ArchiveRows,
}

impl Drop for CommonRows {
    fn drop(self) {
        let CommonRows {
            settings: _,
            classes: _,
            archive: _,
        } = self;
    }
}

/// Reads the rows of the tables that both versions have.
pub(crate) fn common_rows<S: Alter>(
    alloc: Global,
    conn: &mut Connection<S>,
) -> Result<CommonRows, Fault>
    ensures tells { Learns S.Store conn.old conn.new result
        (λ db r. (l : CommonLists) → HasLists db l → common_lists r ≡ l) }
    ensures none { Rejects S.Store conn.old conn.new result
        (λ db. (l : CommonLists) → HasLists db l → AreSmall l.archive → ⊥) }
    ensures typed { Learns S.Store conn.old conn.new result
        (λ db r. HasCommonTables db.schema → AreTypedFirst db) }
    ensures same { ReadsAlone S.Store conn.old conn.new result
        (HasCommonTables (state S.Store conn.old).now.schema) }
    ensures sees { Sees S.Store HasCommonTables conn.old conn.new }
{
    let settings = settings(alloc, conn)?;
    let classes = classes(alloc, conn)?;
    let records = records(alloc, conn)?;
    let messages = message_numbers(alloc, conn)?;
    let holds = holds(alloc, conn)?;
    let archive = ArchiveRows {
        records,
        messages,
        holds,
    };
    Ok(CommonRows {
        settings,
        classes,
        archive,
    })
}
