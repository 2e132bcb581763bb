//! What a store keeps of an archive beside the connection.

ghost use Rattle.std.specs.Prelude.{◌≡◌, map, Err, IfOk, IfErr};
ghost use Rattle.record_tables.specs.Changes.{AreAscending};
ghost use Rattle.record_tables.specs.CodeRows.{due_of};
ghost use Rattle.record_archive.specs.Archive.{Archive, IsArchive};
ghost use Rattle.record_adoption.specs.Faults.{IsOfRows};
ghost use Rattle.record_adoption.specs.Adoption.{IsKeyed, archive_lists, lists_of, IsOverview, IsJudged};

use crate::common_rows::ArchiveRows;
use crate::counts::Counts;
use crate::plan_days::due_rows_by;
use crate::tallies::{held_counts, next_after, other_counts};
use class_plan::Plan;
use record_rows::are_rows_of;
use record_tables::fault::Fault;
use record_tables::rows::DueRow;
use std::alloc::Global;

/// What a store keeps beside the connection, and the due days of its records.
#[derive(Drop)]
pub struct Overview {
    pub plan: Plan,
    pub next: u64,
    pub held: Counts,
    pub others: Counts,
    pub dues: Vec<DueRow>,
}

/// What a store keeps beside the connection, by the rows and their plan; refused where they are not an archive's.
pub(crate) fn gather(alloc: Global, plan: Plan, rows: &ArchiveRows) -> Result<Overview, Fault>
    ensures found { IfOk result (λ f. (a : Archive) → plan ≡ a.plan → IsKeyed a →
        lists_of rows.now ≡ archive_lists a → IsOverview f a) }
    ensures sound { IfOk result (λ f. IsJudged plan (lists_of rows.now)) }
    ensures ascending { IfOk result (λ f. AreAscending (map due_of f.dues.items)) }
    ensures none { result ≡ Err Fault.NoArchive → (a : Archive) → plan ≡ a.plan →
        lists_of rows.now ≡ archive_lists a → IsArchive a → ⊥ }
    ensures cause { IfErr result IsOfRows }
{
    let records = rows.records.as_slice();
    let messages = rows.messages.as_slice();
    let holds = rows.holds.as_slice();
    let is_archive = are_rows_of(alloc, &plan, records, messages, holds)?;
    if !is_archive {
        return Err(Fault::NoArchive);
    }
    let held = held_counts(alloc, holds)?;
    let others = other_counts(alloc, records, messages)?;
    let dues = due_rows_by(alloc, &plan, records)?;
    Ok(Overview {
        plan,
        next: next_after(records),
        held,
        others,
        dues,
    })
}
