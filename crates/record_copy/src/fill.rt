//! The rows of an archive, written to tables that have none of them.

ghost use Rattle.std.specs.Prelude.{◌≡◌, false, OnOk};
ghost use Rattle.sqlite.specs.State.{HasCleanDisk};
ghost use Rattle.sqlite.specs.Held.{state};
ghost use Rattle.class_plan.specs.Plans.{Listing};
ghost use Rattle.record_reads.specs.Lookups.{Looks};
ghost use Rattle.record_tables.specs.Steps.{IsCommitted};
ghost use Rattle.record_copy.specs.Copies.{Fills, TellsTables};
ghost use Rattle.record_copy.specs.Messages.{KeepsRows, LosesWhere};

use crate::fault::CopyFault;
use crate::messages::copy_messages;
use crate::source::SourceRows;
use crate::writes::{insert_holds, insert_records};
use sqlite::{Alter, Connection};
use std::alloc::Global;

/// Copies the messages and writes the records and the holds, in one transaction.
pub(crate) fn fill<S: Alter, T: Alter>(
    alloc: Global,
    rows: &SourceRows,
    from: &mut Connection<S>,
    to: &mut Connection<T>,
) -> Result<(), CopyFault>
    requires from_idle { from.old.in_transaction ≡ false }
    requires idle { to.old.in_transaction ≡ false }
    ensures idle { to.new.in_transaction ≡ false }
    ensures filled { HasCleanDisk (state T.Store to.new) → OnOk result
        (Fills S.Store from.old from.new rows.now (state T.Store to.old)
        (state T.Store to.new)) }
    ensures lost { LosesWhere S.Store from.old from.new result
        (λ s. (plan : Listing) → TellsTables plan rows.now s → ⊥) }
    ensures kept { OnOk result (KeepsRows S.Store from.old from.new) }
    ensures looks { Looks S.Store from.old from.new }
    ensures committed { IsCommitted T.Store to.old to.new result }
    ensures falls { HasCleanDisk (state T.Store to.new) → HasCleanDisk (state T.Store to.old) }
{
    let _settled = to.is_autocommit();
    let mut tx = to.transaction();
    copy_messages(alloc, from, &mut tx, rows.messages.as_slice())?;
    insert_records(&mut tx, rows.records.as_slice())?;
    insert_holds(&mut tx, rows.holds.as_slice())?;
    tx.commit()?;
    Ok(())
}
