//! The rows of the database that is copied.

ghost use Rattle.std.specs.Prelude.{◌≡◌, false, map, IfOk, OnOk};
ghost use Rattle.sqlite.specs.Held.{state};
ghost use Rattle.record_archive.specs.Archive.{Archive, IsArchive};
ghost use Rattle.record_tables.specs.Rows.{Tables, Stores, AreKeyed};
ghost use Rattle.record_tables.specs.Changes.{AreAscending};
ghost use Rattle.record_tables.specs.CodeRows.{due_of};
ghost use Rattle.record_tables.specs.Steps.{Learns, Rejects, WasOpenOnOk};
ghost use Rattle.record_reads.specs.Lookups.{Looks};
ghost use Rattle.record_adoption.specs.Keeping.{StoresArchive};
ghost use Rattle.record_copy.specs.Copies.{TellsTables};
ghost use Rattle.record_copy.specs.Messages.{KeepsRows};

use class_plan::Plan;
use record_adoption::due_rows_by;
use record_reads::placed_holds::placed_holds;
use record_reads::read::{message_numbers, records};
use record_tables::fault::Fault;
use record_tables::rows::{DueRow, HoldRow, RecordRow};
use sqlite::{Alter, Connection};
use std::alloc::Global;

/// The rows of an archive, of which the messages are given by their numbers, and the due days of its records.
pub(crate) struct SourceRows {
    pub(crate) records: Vec<RecordRow>,
    /// The numbers of the messages.
    pub(crate) messages: Vec<u32>,
    /// The holds in the order in which they were placed.
    pub(crate) holds: Vec<HoldRow>,
    pub(crate) dues: Vec<DueRow>,
}

impl Drop for SourceRows {
    fn drop(self) {
        let SourceRows {
            records: _,
            messages: _,
            holds: _,
            dues: _,
        } = self;
    }
}

/// Reads the rows of an archive with a plan.
pub(crate) fn read_source<S: Alter>(
    alloc: Global,
    plan: &Plan,
    from: &mut Connection<S>,
) -> Result<SourceRows, Fault>
    requires { from.old.in_transaction ≡ false }
    ensures tells { Learns S.Store from.old from.new result (λ db r. (t : Tables) → Stores db t →
        AreKeyed t → TellsTables plan.now r t) }
    ensures none { Rejects S.Store from.old from.new result (λ db. (a : Archive) → IsArchive a →
        StoresArchive db a → ⊥) }
    ensures ascending { IfOk result (λ r. AreAscending (map due_of r.dues.items)) }
    ensures kept { OnOk result (KeepsRows S.Store from.old from.new) }
    ensures was_open { WasOpenOnOk S.Store from.old from.new result }
    ensures looks { Looks S.Store from.old from.new }
{
    let records = records(alloc, from)?;
    let messages = message_numbers(alloc, from)?;
    let holds = placed_holds(alloc, from)?;
    let dues = due_rows_by(alloc, plan, records.as_slice())?;
    Ok(SourceRows {
        records,
        messages,
        holds,
        dues,
    })
}
