//! The messages of an archive, copied one at a time.

ghost use Rattle.std.specs.Prelude.{◌≡◌, false, None, OnOk};
ghost use Rattle.record_tables.specs.Steps.{CommitsNothing};
ghost use Rattle.record_reads.specs.Lookups.{Looks, body_with};
ghost use Rattle.record_tables.specs.Reads.{numbers_of};
ghost use Rattle.record_copy.specs.Messages.{CopiesMessage, CopiesMessages, KeepsRows, LosesWhere};

use crate::fault::CopyFault;
use record_reads::lookup::message_body;
use record_tables::writes::insert_message;
use sqlite::{Alter, Connection, Transaction};
use std::alloc::Global;

/// Copies the message with a number. The caller gives a number above those of all messages that are copied.
fn copy_message<S: Alter, T: Alter>(
    alloc: Global,
    from: &mut Connection<S>,
    tx: &mut Transaction<'_, T>,
    number: u32,
) -> Result<(), CopyFault>
    requires { from.old.in_transaction ≡ false }
    ensures same_reference { tx.new.conn.ghost_name ≡ tx.old.conn.ghost_name }
    ensures copied { OnOk result (CopiesMessage S.Store T.Store from.old from.new
        tx.old.conn.now tx.new.conn.now number) }
    ensures lost { LosesWhere S.Store from.old from.new result (λ s. body_with number s ≡ None) }
    ensures kept { OnOk result (KeepsRows S.Store from.old from.new) }
    ensures looks { Looks S.Store from.old from.new }
    ensures survives { CommitsNothing T.Store tx.old.conn.now tx.new.conn.now }
{
    let Some(body) = message_body(alloc, from, number)? else {
        return Err(CopyFault::Lost);
    };
    insert_message(tx, number, body.as_slice())?;
    Ok(())
}

/// Copies the messages with these numbers to a table that has none. No two of them are in memory at once.
pub(crate) fn copy_messages<S: Alter, T: Alter>(
    alloc: Global,
    from: &mut Connection<S>,
    tx: &mut Transaction<'_, T>,
    numbers: &[u32],
) -> Result<(), CopyFault>
    requires { from.old.in_transaction ≡ false }
    ensures same_reference { tx.new.conn.ghost_name ≡ tx.old.conn.ghost_name }
    ensures copied { OnOk result (CopiesMessages S.Store T.Store from.old from.new
        tx.old.conn.now tx.new.conn.now numbers.now) }
    ensures lost { LosesWhere S.Store from.old from.new result
        (λ s. numbers.now ≡ numbers_of s → ⊥) }
    ensures kept { OnOk result (KeepsRows S.Store from.old from.new) }
    ensures looks { Looks S.Store from.old from.new }
    ensures survives { CommitsNothing T.Store tx.old.conn.now tx.new.conn.now }
{
    for number in numbers {
        copy_message(alloc, from, tx, *number)?;
    }
    Ok(())
}
