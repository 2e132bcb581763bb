//! An archive's tables, taken over as they are found.

ghost use Rattle.std.specs.Prelude.{◌≡◌, false};
ghost use Rattle.record_tables.specs.Steps.{Learns, Rejects, Relates, FailsStill};
ghost use Rattle.record_archive.specs.Archive.{Archive};
ghost use Rattle.record_adoption.specs.Keeping.{StoresArchive};
ghost use Rattle.record_adoption.specs.Adoption.{IsKeyed, IsOverview, FindsNone, LeavesFound};

use crate::overview::Overview;
use crate::version::Version;
use record_tables::fault::Fault;
use sqlite::{Alter, Connection};
use std::alloc::Global;

/// Reads a version of the tables, and makes it version 2 with right due days.
///
/// Refused as no archive where the rows are not an archive's, with the error of `sqlite`, or for no memory. The
/// connection has no open transaction, before and after.
pub fn settle_version<V: Version, S: Alter>(
    alloc: Global,
    conn: &mut Connection<S>,
) -> Result<Overview, Fault>
    requires { conn.old.in_transaction ≡ false }
    ensures idle { conn.new.in_transaction ≡ false }
    ensures sound { Learns S.Store conn.old conn.new result (λ db f. V.is_sound db) }
    ensures typed { Learns S.Store conn.old conn.new result
        (λ db f. V.are_there db.schema → V.are_typed db) }
    ensures found { Relates S.Store conn.old conn.new result
        (λ old new f. (a : Archive) → V.finds old a → IsKeyed a →
        IsOverview f a × StoresArchive new a) }
    ensures none { Rejects S.Store conn.old conn.new result (FindsNone V.finds) }
    ensures err { FailsStill S.Store conn.old conn.new result }
    ensures crash { LeavesFound S.Store conn.old conn.new V.finds IsKeyed }
{
    let contents = V::read(alloc, conn)?;
    V::renew(conn, &contents.plan_rows, contents.overview.dues.as_slice())?;
    Ok(contents.overview)
}
