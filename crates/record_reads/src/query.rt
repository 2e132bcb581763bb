//! Queries of the tables, which change nothing.

ghost use Rattle.std.specs.Prelude.{◌≡◌, IfOk};
ghost use Rattle.std.specs.List.{AllZip, AllByRecursion};
ghost use Rattle.sqlite.specs.State.{HasCleanDisk};
ghost use Rattle.sqlite.specs.Held.{state};
ghost use Rattle.sqlite.specs.Values.{bound};
ghost use Rattle.record_reads.specs.Lookups.{Looks, WasOpenOnNoArchive};
ghost use Rattle.record_reads.specs.Quiet.{IsQuiet};
ghost use Rattle.record_reads.specs.Selects.{IsSelect, ShowsSuch, ChangesNothing};
ghost use Rattle.record_tables.specs.Steps.{CommitsNothing, Falls, IsIdle, ShowsOnOk, WasOpenOnOk};

use crate::typed::{FromRow, rows_in};
use record_tables::fault::Fault;
use sqlite::types::ValueRef;
use sqlite::{Alter, Connection, Error, Row};
use std::alloc::Global;

/// The rows that a query answers. It changes nothing, whatever the tables are.
pub(crate) fn rows_of<S: Alter>(
    conn: &mut Connection<S>,
    text: &str,
    params: &[ValueRef<'_>],
) -> Result<Vec<Row>, Error>
    requires { IsSelect text.now }
    ensures shown { ShowsOnOk S.Store conn.old conn.new result text.now (bound params.now) }
    ensures same { ChangesNothing S.Store conn.old conn.new result }
    ensures quiet { IsQuiet S.Store conn.old conn.new }
    ensures was_open { WasOpenOnOk S.Store conn.old conn.new result }
    ensures falls { Falls S.Store conn.old conn.new }
    ensures idle { IsIdle S.Store conn.old conn.new }
    ensures survives { CommitsNothing S.Store conn.old conn.new }
    ensures looks { Looks S.Store conn.old conn.new }
{
    let _settled = conn.is_autocommit();
    let rows = conn.query_all(text, params)?;
    Ok(rows)
}

/// The rows that a query answers, each read as a value.
///
/// Refused as no archive where a row cannot be read. The other refusals are no memory and the errors of `sqlite`.
pub(crate) fn read_all<S: Alter, T: FromRow>(
    alloc: Global,
    conn: &mut Connection<S>,
    text: &str,
    params: &[ValueRef<'_>],
) -> Result<Vec<T>, Fault>
    requires { IsSelect text.now }
    ensures all { HasCleanDisk (state S.Store conn.new) → IfOk result (λ all.
        ShowsSuch text.now (bound params.now) (state S.Store conn.old) (state S.Store conn.new)
        (λ rows. AllZip T.reads rows all.items)) }
    ensures none { HasCleanDisk (state S.Store conn.new) → result ≡ Err Fault.NoArchive →
        ShowsSuch text.now (bound params.now) (state S.Store conn.old) (state S.Store conn.new)
        (λ rows. AllByRecursion T.is_readable rows → ⊥) }
    ensures seen { WasOpenOnNoArchive S.Store conn.old conn.new result }
    ensures same { ChangesNothing S.Store conn.old conn.new result }
    ensures quiet { IsQuiet S.Store conn.old conn.new }
    ensures was_open { WasOpenOnOk S.Store conn.old conn.new result }
    ensures falls { Falls S.Store conn.old conn.new }
    ensures idle { IsIdle S.Store conn.old conn.new }
    ensures survives { CommitsNothing S.Store conn.old conn.new }
    ensures looks { Looks S.Store conn.old conn.new }
{
    let rows = rows_of(conn, text, params)?;
    rows_in(alloc, rows.as_slice())
}
