//! The versions of an archive's tables that may be found, each with its way to version 2.

ghost use Rattle.std.specs.Prelude.{◌≡◌, false, map, IfOk};
ghost use Rattle.sqlite.specs.Effect.{Database};
ghost use Rattle.sqlite.specs.Schema.{Schema};
ghost use Rattle.sqlite.specs.State.{HasCleanDisk};
ghost use Rattle.sqlite.specs.Held.{state};
ghost use Rattle.record_tables.specs.Tables.{HasCommonTables, IsArchiveSchema};
ghost use Rattle.record_tables.specs.Changes.{AreAscending};
ghost use Rattle.record_tables.specs.Steps.{ReadsAlone, Learns, Rejects, FailsStill, Makes};
ghost use Rattle.record_tables.specs.CodeRows.{due_of};
ghost use Rattle.record_archive.specs.Archive.{Archive};
ghost use Rattle.record_adoption.specs.Adoption.{FindsSecond, FindsFirst, IsKeyed, Sees, LeavesArchive, IsSoundSecond, IsSoundFirst, FindsNone, FindsWith, IsSettled, TellsContents, AreTypedSecond, AreTypedFirst};

use crate::common_rows::common_rows;
use crate::overview::{Overview, gather};
use crate::plan_rows::{PlanRows, plan_in, rows_of_plan};
use crate::text_rows::plan_in_texts;
use record_reads::read::schedules;
use record_reads::stored_dues::are_dues;
use record_tables::fault::Fault;
use record_tables::lay::move_first;
use record_tables::renew::replace_plan;
use record_tables::rows::DueRow;
use sqlite::{Alter, Connection, Error};
use std::alloc::Global;

/// What is read from a database.
#[derive(Drop)]
pub struct Contents {
    /// The rows of the plan in version 2.
    pub(crate) plan_rows: PlanRows,
    pub(crate) overview: Overview,
}

/// A version of the tables, which may be found in a database.
pub trait Version {
    /// The archive that is found in its rows.
    ghost finds: { Database → Archive → Type 0 };

    /// Its tables are there.
    ghost are_there: { Schema → Type 0 };

    /// The rows of its tables, if they can be read, are an archive's.
    ghost is_sound: { Database → Type 0 };

    /// The rows of its tables have the types of their columns.
    ghost are_typed: { Database → Type 0 };

    /// Reads the rows that its plan has in version 2, and what a store keeps beside the connection.
    fn read<S: Alter>(alloc: Global, conn: &mut Connection<S>) -> Result<Contents, Fault>
        ensures sound { Learns S.Store conn.old conn.new result (λ db r. is_sound db) }
        ensures typed { Learns S.Store conn.old conn.new result
            (λ db r. are_there db.schema → are_typed db) }
        ensures found { Learns S.Store conn.old conn.new result
            (λ db r. (a : Archive) → finds db a → IsKeyed a → TellsContents r a) }
        ensures ascending { IfOk result (λ r. AreAscending (map due_of r.overview.dues.items)) }
        ensures none { Rejects S.Store conn.old conn.new result (FindsNone finds) }
        ensures same { ReadsAlone S.Store conn.old conn.new result
            (are_there (state S.Store conn.old).now.schema) }
        ensures sees { Sees S.Store are_there conn.old conn.new };

    /// Makes it version 2 with these rows of its plan and these due days, where it is not so already.
    fn renew<S: Alter>(
        conn: &mut Connection<S>,
        plan: &PlanRows,
        dues: &[DueRow],
    ) -> Result<(), Error>
        requires idle { conn.old.in_transaction ≡ false }
        requires ascending { AreAscending (map due_of dues.now) }
        ensures idle { conn.new.in_transaction ≡ false }
        ensures ok { Makes S.Store conn.old conn.new result
            (IsSettled finds plan.now (map due_of dues.now)) }
        ensures err { FailsStill S.Store conn.old conn.new result }
        ensures falls { HasCleanDisk (state S.Store conn.new) →
            HasCleanDisk (state S.Store conn.old) }
        ensures crash { LeavesArchive S.Store conn.old conn.new
            (FindsWith finds plan.now (map due_of dues.now) (state S.Store conn.old).now) };

    ghost has_tables: { (db : Database) (a : Archive) → finds db a → are_there db.schema };
}

/// Version 2, whose due days are replaced where they differ.
pub struct Second;

impl Version for Second {
    ghost finds = { FindsSecond };

    ghost are_there = { IsArchiveSchema };

    ghost is_sound = { IsSoundSecond };

    ghost are_typed = { AreTypedSecond };

    fn read<S: Alter>(alloc: Global, conn: &mut Connection<S>) -> Result<Contents, Fault> {
        let rows = common_rows(alloc, conn)?;
        let rules = schedules(alloc, conn)?;
        let plan = plan_in(alloc, &rows, rules.as_slice())?;
        let plan_rows = rows_of_plan(alloc, &plan)?;
        let overview = gather(alloc, plan, &rows.archive)?;
        Ok(Contents {
            plan_rows,
            overview,
        })
    }

    fn renew<S: Alter>(
        conn: &mut Connection<S>,
        plan: &PlanRows,
        dues: &[DueRow],
    ) -> Result<(), Error> {
        let are_stored = are_dues(conn, dues)?;
        if are_stored {
            return Ok(());
        }
        replace_plan(conn, plan.rules.as_slice(), plan.classes.as_slice(), dues)?;
        Ok(())
    }

    ghost has_tables = { λ db a found. found.stored.schema };
}

/// Version 1, which is moved over to version 2.
pub struct First;

impl Version for First {
    ghost finds = { FindsFirst };

    ghost are_there = { HasCommonTables };

    ghost is_sound = { IsSoundFirst };

    ghost are_typed = { AreTypedFirst };

    fn read<S: Alter>(alloc: Global, conn: &mut Connection<S>) -> Result<Contents, Fault> {
        let rows = common_rows(alloc, conn)?;
        let plan = plan_in_texts(alloc, &rows)?;
        let plan_rows = rows_of_plan(alloc, &plan)?;
        let overview = gather(alloc, plan, &rows.archive)?;
        Ok(Contents {
            plan_rows,
            overview,
        })
    }

    fn renew<S: Alter>(
        conn: &mut Connection<S>,
        plan: &PlanRows,
        dues: &[DueRow],
    ) -> Result<(), Error> {
        move_first(conn, plan.rules.as_slice(), plan.classes.as_slice(), dues)?;
        Ok(())
    }

    ghost has_tables = { λ db a found. found.stored.schema.common };
}
