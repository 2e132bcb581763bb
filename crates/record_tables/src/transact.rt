//! A change of the tables in one transaction.

ghost use Rattle.std.specs.Prelude.{◌≡◌, OnOk, false};
ghost use Rattle.sqlite.specs.Effect.{Database};
ghost use Rattle.sqlite.specs.Held.{state};
ghost use Rattle.sqlite.specs.State.{IsLive};
ghost use Rattle.record_tables.specs.Layouts.{GoesOnIn};
ghost use Rattle.record_tables.specs.Steps.{KeepsIn, CommitsNothing, CommitsWhole, Makes, MakesIn, IsCommitted, IsOpenOnOk, IsUndone, WasOpen};

use sqlite::{Alter, Connection, Error, Transaction};

/// A change of the tables by statements in a transaction.
pub trait Change {
    ghost may_be_made: { Self → Database → Type 0 };

    ghost makes: { Self → Database → Database → Type 0 };

    /// Makes the change in a transaction of the caller's, which continues.
    ///
    /// A refusal is the error of `sqlite`; on a clean disk it keeps what was committed. A crash leaves nothing of the
    /// change.
    fn make<S: Alter>(self, tx: &mut Transaction<'_, S>) -> Result<(), Error>
        requires { may_be_made self (state S.Store tx.old.conn.now).now }
        ensures same_reference { tx.new.conn.ghost_name ≡ tx.old.conn.ghost_name }
        ensures ok { OnOk result (MakesIn S.Store tx.old.conn.now tx.new.conn.now (makes self)) }
        ensures goes_on { GoesOnIn S.Store tx.old.conn.now tx.new.conn.now result }
        ensures err { KeepsIn S.Store tx.old.conn.now tx.new.conn.now result }
        ensures survives { CommitsNothing S.Store tx.old.conn.now tx.new.conn.now };
}

/// Makes a change in one transaction: all or nothing, even in a crash.
///
/// Refused with the error of `sqlite` alone. The connection has no open transaction, before and after.
pub fn transact<S: Alter, C: Change>(conn: &mut Connection<S>, change: C) -> Result<(), Error>
    requires idle { conn.old.in_transaction ≡ false }
    requires may { C.may_be_made change (state S.Store conn.old).now }
    ensures idle { conn.new.in_transaction ≡ false }
    ensures ok { Makes S.Store conn.old conn.new result (C.makes change) }
    ensures committed { IsCommitted S.Store conn.old conn.new result }
    ensures err { IsUndone S.Store conn.old conn.new result }
    ensures was_open { WasOpen S.Store conn.old conn.new }
    ensures crash { CommitsWhole S.Store conn.old conn.new (C.makes change) }
    ensures live { IsLive (state S.Store conn.old) }
    ensures open { IsOpenOnOk S.Store conn.old conn.new result }
{
    let _settled = conn.is_autocommit();
    let _live = conn.schema();
    let mut tx = conn.transaction();
    change.make(&mut tx)?;
    tx.commit()?;
    Ok(())
}
