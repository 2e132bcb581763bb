//! The rows that a history begins with.

ghost use Rattle.std.specs.Prelude.{ℕ, List, map, IfOk, OnErr};
ghost use Rattle.record_tables.specs.Events.{StoresEvents};
ghost use Rattle.record_reads.specs.Events.{event_of};
ghost use Rattle.record_archive.specs.Archive.{Archive};
ghost use Rattle.record_store.specs.Stores.{StandsFor};
ghost use Rattle.record_noted.specs.Foundings.{IsLaid};
ghost use Rattle.record_noted.specs.Rows.{AreInOrder};

use crate::rows::{Addition, insert_rows, rows_of_lines};
use record_store::{EventRow, Store, StoreFault};
use record_tables::companions::Companion;
use record_tables::events::lay_events;
use sqlite::{Alter, Error, Transaction};
use std::alloc::Global;

/// A history begins: the table of events is created, and has these rows.
#[derive(Drop)]
pub(crate) struct Founding<'a> {
    pub(crate) rows: &'a [EventRow],
}

impl Companion for Founding<'_> {
    ghost needs = { λ c db. AreInOrder (map event_of c.rows.now) };

    ghost brings = { λ c old new. StoresEvents new (map event_of c.rows.now) };

    fn make<S: Alter>(self, tx: &mut Transaction<'_, S>) -> Result<(), Error> {
        lay_events(tx)?;
        insert_rows(tx, self.rows)
    }
}

/// Lays the table of events with the rows of lines, in one transaction. Answers the number of the next event, and the mark
/// of the last.
///
/// Refused with 89 (`sqlite`, or more than 4,294,967,294 lines) or with 99 (no memory); the store stands for the archive that
/// it stood for.
pub(crate) fn lay_history<S: Alter>(
    alloc: Global,
    store: &mut Store<S>,
    lines: &[Vec<u8>],
) -> Result<(u32, Vec<u8>), StoreFault>
    ensures ok { IfOk result (λ x. (a : Archive) → StandsFor S.Store store.old a →
        IsLaid S.Store store.new a (map (λ l. l.items) lines.now) x.0 x.1.items) }
    ensures err { OnErr result ((a : Archive) → StandsFor S.Store store.old a →
        StandsFor S.Store store.new a) }
{
    let Addition { rows, next, mark } = rows_of_lines(alloc, 1, &[], lines)?;
    let founding = Founding {
        rows: rows.as_slice(),
    };
    store.do_beside(founding)?;
    Ok((next, mark))
}
