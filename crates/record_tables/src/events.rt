//! The history of an archive: a table of events beside its own.

ghost use Rattle.std.specs.Prelude.{◌∷◌, [], OnOk};
ghost use Rattle.record_tables.specs.Events.{Notes, KeepsEvents, NotesEvent, StoresEvents, new_event, event_table};
ghost use Rattle.record_tables.specs.Layouts.{GoesOnIn, LaysIn};
ghost use Rattle.record_tables.specs.Steps.{MakesIn, StaysInside};

use crate::companions::Companion;
use crate::lay::define_table;
use sqlite::types::{ToSql, ValueRef};
use sqlite::{Alter, Error, Transaction};

/// Creates the table of events, empty, beside the tables that are there. A refusal is the error of `sqlite`, as where
/// there is a table of that name.
pub fn lay_events<S: Alter>(tx: &mut Transaction<'_, S>) -> Result<(), Error>
    ensures ok { OnOk result
        (LaysIn S.Store tx.old.conn.now tx.new.conn.now (event_table ∷ [])) }
    ensures goes_on { GoesOnIn S.Store tx.old.conn.now tx.new.conn.now result }
    ensures frame { StaysInside S.Store tx.old.conn tx.new.conn result }
{
    define_table(
        tx,
        "CREATE TABLE event (number INTEGER PRIMARY KEY, line TEXT NOT NULL, mark TEXT NOT NULL) STRICT",
    )
}

/// Adds an event with its line and its mark. The caller gives a number above those of all events.
pub fn insert_event<S: Alter>(
    tx: &mut Transaction<'_, S>,
    number: u32,
    line: &[u8],
    mark: &[u8],
) -> Result<(), Error>
    ensures ok { OnOk result (MakesIn S.Store tx.old.conn.now tx.new.conn.now
        (λ old new. Notes old new (new_event number line.now mark.now))) }
    ensures goes_on { GoesOnIn S.Store tx.old.conn.now tx.new.conn.now result }
    ensures frame { StaysInside S.Store tx.old.conn tx.new.conn result }
{
    tx.execute(
        "INSERT INTO event (number, line, mark) VALUES (?1, ?2, ?3)",
        &[number.to_sql(), ValueRef::Text(line), ValueRef::Text(mark)],
    )?;
    Ok(())
}

/// A history begins: the table of events is created, empty.
#[derive(Drop)]
pub struct Beginning;

impl Companion for Beginning {
    ghost needs = { λ c db. Unit {0} };

    ghost brings = { λ c old new. StoresEvents new [] };

    fn make<S: Alter>(self, tx: &mut Transaction<'_, S>) -> Result<(), Error> {
        lay_events(tx)
    }
}

/// An event, which tells of the change that it is noted beside.
#[derive(Drop)]
pub struct Note<'a> {
    /// Above the numbers of all events.
    pub number: u32,
    pub line: &'a [u8],
    pub mark: &'a [u8],
}

impl Companion for Note<'_> {
    ghost needs = { λ c. KeepsEvents };

    ghost brings = { λ c. NotesEvent (new_event c.number c.line.now c.mark.now) };

    fn make<S: Alter>(self, tx: &mut Transaction<'_, S>) -> Result<(), Error> {
        insert_event(tx, self.number, self.line, self.mark)
    }
}
