//! Ledgers of volumes, judged before records of any of them can be destroyed for it.

ghost use Rattle.std.specs.Prelude.{◌≡◌, All, OnOk};
ghost use Rattle.cli_history.specs.declared.opening.Purpose.TheVariants.{Ending};
ghost use Rattle.cli_tasks.specs.Endings.{JudgesEndingIn, JudgesWhereAny};

use crate::archives::Archives;
use crate::changes::{ChangeBy, LedgerWork};
use crate::volume_changes::Listed;
use crate::volume_row::{Volumes, author_in};
use class_plan::Plan;
use cli_console::Failure;
use cli_history::{Purpose, Seals, StoreLedger};
use command_lines::archives::Attribution;
use sqlite::Alter;
use std::alloc::{AllocError, Global};

/// Finds that the ledger of a volume can be opened for what can end the keeping of records. It changes nothing there.
#[derive(Drop)]
struct JudgeEnding;

impl LedgerWork for JudgeEnding {
    type Answer = ();

    ghost purpose_by = { λ it present. Ending };

    ghost makes = { λ S g it old new done seals. new ≡ old };

    fn purpose(&self, _alloc: Global, _present: &Plan) -> Result<Purpose, AllocError> {
        Ok(Purpose::Ending)
    }

    fn perform<S: Alter>(
        self,
        _rt: &HostRuntime,
        _ledger: &mut StoreLedger<'_, S>,
        _seals: &Seals,
    ) -> Result<(), Failure> {
        Ok(())
    }
}

/// Finds that the ledger of a volume can be opened for what can end the keeping of records.
fn judge_ending_in<A: Archives>(
    rt: &HostRuntime,
    archives: &A,
    volumes: Volumes<'_>,
    volume: u32,
    told: &Attribution<'_>,
) -> Result<(), Failure>
    ensures { OnOk result (JudgesEndingIn A.Kept.Store (A.is_at archives.now)
        volumes.entry.folder.now told.now volume) }
{
    let author = author_in(rt, told, volume)?;
    let change = JudgeEnding;
    volumes.lend(rt, archives, volume, ChangeBy { author, change })
}

/// The same of a volume in which records were listed, if any were.
fn judge_ending_where_any<A: Archives>(
    rt: &HostRuntime,
    archives: &A,
    volumes: Volumes<'_>,
    listed: &Listed,
    told: &Attribution<'_>,
) -> Result<(), Failure>
    ensures { OnOk result (JudgesWhereAny A.Kept.Store (A.is_at archives.now)
        volumes.entry.folder.now told.now listed.now) }
{
    let numbers = listed.numbers.as_slice();
    if numbers.is_empty() {
        return Ok(());
    }
    judge_ending_in(rt, archives, volumes, listed.volume, told)
}

/// Finds of each volume in which records were listed that its ledger can be opened for what can end the keeping of records. `Usage` where
/// it is not known who changes it, or where it requires a reason and none is given; `BadData` where its history is damaged, or where
/// something that was found is not accepted.
pub fn judge_endings<A: Archives>(
    rt: &HostRuntime,
    archives: &A,
    volumes: Volumes<'_>,
    listed: &[Listed],
    told: &Attribution<'_>,
) -> Result<(), Failure>
    ensures { OnOk result (All (JudgesWhereAny A.Kept.Store (A.is_at archives.now)
        volumes.entry.folder.now told.now) listed.now) }
{
    for of_volume in listed {
        judge_ending_where_any(rt, archives, volumes, of_volume, told)?;
    }
    Ok(())
}
