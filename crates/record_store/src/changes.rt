//! What commands change in the tables, each in one transaction.

ghost use Rattle.std.specs.Prelude.{◌+◌, ◌≤◌, ◌^◌, length, map};
ghost use Rattle.record_tables.specs.Changes.{TurnsAlone, Always, IsPastRecords, with_hold, without_hold};
ghost use Rattle.record_tables.specs.CodeRows.{due_of};
ghost use Rattle.record_archive.specs.Archive.{records_of};
ghost use Rattle.record_store.specs.Captures.{AreAfter, with_records, with_more_dues, IsCaptured};
ghost use Rattle.record_tables.specs.Steps.{Writes};

use class_paths::Paths;
use record_tables::rows::DueRow;
use record_tables::transact::Change;
use record_tables::writes::{delete_hold, insert_due, insert_hold, insert_message, insert_record};
use sqlite::{Alter, Error, Transaction};

/// A hold of a name is placed on a record.
#[derive(Drop)]
pub(crate) struct Holding<'a> {
    pub(crate) name: &'a [u8],
    pub(crate) number: u32,
}

impl Change for Holding<'_> {
    ghost may_be_made = { λ c db. Unit {0} };

    ghost makes = { λ c old new. TurnsAlone old new Always (with_hold c.name.now c.number) };

    fn make<S: Alter>(self, tx: &mut Transaction<'_, S>) -> Result<(), Error> {
        insert_hold(tx, self.name, self.number)?;
        Ok(())
    }
}

/// The hold of a name on a record ends.
#[derive(Drop)]
pub(crate) struct Release<'a> {
    pub(crate) name: &'a [u8],
    pub(crate) number: u32,
}

impl Change for Release<'_> {
    ghost may_be_made = { λ c db. Unit {0} };

    ghost makes = { λ c old new. TurnsAlone old new Always (without_hold c.name.now c.number) };

    fn make<S: Alter>(self, tx: &mut Transaction<'_, S>) -> Result<(), Error> {
        delete_hold(tx, self.name, self.number)?;
        Ok(())
    }
}

/// Adds the records of a capture, numbered upwards from the message's number on.
fn insert_records<S: Alter>(
    tx: &mut Transaction<'_, S>,
    first: u32,
    day: u32,
    paths: &Paths,
) -> Result<(), Error>
    requires { first + length paths.now ≤ 2 ^ 32 }
    ensures { Writes S.Store tx.old.conn tx.new.conn result
        (IsPastRecords first) (with_records (records_of first first day paths.now)) }
{
    let paths = paths.as_slice();
    for (i, path) in paths.iter().enumerate() {
        insert_record(tx, first + i as u32, first, path.as_slice(), day)?;
    }
    Ok(())
}

fn insert_due_days<S: Alter>(tx: &mut Transaction<'_, S>, dues: &[DueRow]) -> Result<(), Error>
    ensures { Writes S.Store tx.old.conn tx.new.conn result
        (AreAfter (map due_of dues.now)) (with_more_dues (map due_of dues.now)) }
{
    for due in dues {
        insert_due(tx, due.record, due.day)?;
    }
    Ok(())
}

/// A message, its records, numbered upwards from the message's number on, and their due days are added.
#[derive(Drop)]
pub(crate) struct Capture<'a> {
    pub(crate) first: u32,
    pub(crate) body: &'a [u8],
    pub(crate) day: u32,
    pub(crate) paths: &'a Paths,
    pub(crate) dues: &'a [DueRow],
}

impl Change for Capture<'_> {
    ghost may_be_made = { λ c db. c.first + length c.paths.now ≤ 2 ^ 32 };

    ghost makes = { λ c. IsCaptured c.first c.body.now c.day c.paths.now
        (map due_of c.dues.now) };

    fn make<S: Alter>(self, tx: &mut Transaction<'_, S>) -> Result<(), Error> {
        insert_message(tx, self.first, self.body)?;
        insert_records(tx, self.first, self.day, self.paths)?;
        insert_due_days(tx, self.dues)?;
        Ok(())
    }
}
