//! Another plan for an archive of volumes, and titles of its classes: `plan --set` and `titles --set`.
//!
//! Both have the lock of the folder, so no volume is begun meanwhile that would take over what there was before. What is set is judged in
//! all volumes first, and then set from the last one down. So the last volume has it first, whose plan and titles are those of the archive
//! and of each volume that is begun. After a kill the last volume has each class of all others, so a plan that may replace that of the
//! archive may replace that of each.

ghost use Rattle.std.specs.Prelude.{◌≡◌, IfOk, Ok, OnErr, OnOk};
ghost use Rattle.class_plan.specs.Plans.{keeps};
ghost use Rattle.record_ledger.specs.Ledgers.{keeper_of};
ghost use Rattle.cli_changes.specs.Series.{KeepsAll, WasClean};
ghost use Rattle.cli_tasks.specs.Changes.{JudgesPlan, MayReplace};
ghost use Rattle.cli_tasks.specs.Histories.{GivesTitlesOver};
ghost use Rattle.cli_tasks.specs.Purposes.{for_plan};
ghost use Rattle.cli_tasks.specs.Settings.{
  ChangesIn,
  JudgesPlanIn,
  ReplacesPlanIn,
  ReplacesPlanOver,
};
ghost use Rattle.cli_tasks.specs.Works.{EachVolume, OverVolumes};

use crate::archives::Archives;
use crate::changes::{ChangeBy, Changing, LedgerWork, purpose_of_plan};
use crate::rolling::had;
use crate::titles::{SetTitles, tell_none};
use crate::volume_plans::judge_plans;
use crate::volume_row::{Volumes, author_in, judge_named, volume_line};
use crate::volume_soundness::judge_histories;
use class_plan::Plan;
use cli_changes::{read_plan, read_titles, replace_plan};
use cli_console::{Failure, Status, write_text};
use cli_history::{Purpose, Seals, StoreLedger};
use cli_volumes::lock_folder;
use command_lines::archives::Attribution;
use sqlite::Alter;
use std::alloc::{AllocError, Global};

/// Whether a plan has each class of a present one. The only refusal is no memory.
fn has_classes_of(plan: &Plan, present: &Plan) -> Result<bool, AllocError>
    ensures { IfOk result (λ b. b ≡ keeps present.now plan.now) }
{
    let mut revised = present.copy()?;
    let copied = plan.copy()?;
    Ok(revised.revise(copied).is_ok())
}

/// Finds that a plan may replace that of a ledger. Where it leaves out a class, it is refused as in a single store, before anything is
/// printed.
fn judge_plan<S: Alter>(
    rt: &HostRuntime,
    ledger: &mut StoreLedger<'_, S>,
    plan: &Plan,
    path: &str,
) -> Result<(), Failure>
    ensures falls { WasClean (keeper_of S.Store) ledger.old ledger.new }
    ensures done { OnOk result (MayReplace S.Store ledger.old ledger.new plan.now) }
    ensures failed { OnErr result (KeepsAll (keeper_of S.Store) ledger.old ledger.new) }
{
    let has_classes = has_classes_of(plan, ledger.plan_kept())?;
    if has_classes {
        return Ok(());
    }
    let copied = plan.copy()?;
    replace_plan(rt, ledger, copied, path, false)
}

/// Finds that a plan may replace that of a volume.
#[derive(Drop)]
struct JudgePlan<'p> {
    plan: &'p Plan,
    /// The path of the file from which it was read.
    path: &'p str,
}

impl LedgerWork for JudgePlan<'_> {
    type Answer = ();

    ghost purpose_by = { λ it present. for_plan present it.plan.now };

    ghost makes = { λ S g it old new done seals. JudgesPlan g old new done it.plan.now };

    fn purpose(&self, alloc: Global, present: &Plan) -> Result<Purpose, AllocError> {
        let plan = self.plan;
        purpose_of_plan(alloc, present, plan)
    }

    fn perform<S: Alter>(
        self,
        rt: &HostRuntime,
        ledger: &mut StoreLedger<'_, S>,
        _seals: &Seals,
    ) -> Result<(), Failure> {
        let JudgePlan { plan, path } = self;
        judge_plan(rt, ledger, plan, path)
    }
}

/// Finds that a plan may replace that of a volume, whose ledger is opened as for that.
fn judge_plan_in<A: Archives>(
    rt: &HostRuntime,
    archives: &A,
    volumes: Volumes<'_>,
    volume: u32,
    plan: &Plan,
    path: &str,
    told: &Attribution<'_>,
) -> Result<(), Failure>
    ensures { OnOk result (JudgesPlanIn A.Kept.Store (A.is_at archives.now)
        volumes.entry.folder.now told.now plan.now volume) }
{
    let author = author_in(rt, told, volume)?;
    let change = JudgePlan { plan, path };
    volumes.lend(rt, archives, volume, ChangeBy { author, change })
}

/// Finds that a plan may replace that of each volume.
fn judge_plan_in_each<A: Archives>(
    rt: &HostRuntime,
    archives: &A,
    volumes: Volumes<'_>,
    plan: &Plan,
    path: &str,
    told: &Attribution<'_>,
) -> Result<(), Failure>
    ensures { OnOk result (EachVolume volumes.entry.last (JudgesPlanIn A.Kept.Store
        (A.is_at archives.now) volumes.entry.folder.now told.now plan.now)) }
{
    for below in 0..volumes.last {
        judge_plan_in(rt, archives, volumes, below + 1, plan, path, told)?;
    }
    Ok(())
}

/// Makes a change in a volume, behind a line with its number.
fn change_in<A: Archives>(
    rt: &HostRuntime,
    archives: &A,
    volumes: Volumes<'_>,
    volume: u32,
    change: Changing<'_, '_>,
    told: &Attribution<'_>,
) -> Result<(), Failure>
    ensures { OnOk result (ChangesIn A.Kept.Store (A.is_at archives.now)
        volumes.entry.folder.now told.now change.entry volume) }
{
    write_text(rt, &volume_line(rt.alloc(), volume)?)?;
    let author = author_in(rt, told, volume)?;
    volumes.lend(rt, archives, volume, ChangeBy { author, change })
}

/// Replaces the plan of each volume, from the last one down, once it was printed of each what that changes in it. Who agrees in the last
/// one has agreed for all.
fn replace_in_each<A: Archives>(
    rt: &HostRuntime,
    archives: &A,
    volumes: Volumes<'_>,
    plan: &Plan,
    path: &str,
    is_agreed: bool,
    told: &Attribution<'_>,
) -> Result<(), Failure>
    ensures { OnOk result (EachVolume volumes.entry.last (ReplacesPlanIn A.Kept.Store
        (A.is_at archives.now) volumes.entry.folder.now told.now plan.now)) }
{
    for later in 0..volumes.last {
        let volume = volumes.last - later;
        let copied = plan.copy()?;
        let change = Changing::ReplacePlan {
            plan: copied,
            path,
            is_agreed: is_agreed || later > 0,
        };
        change_in(rt, archives, volumes, volume, change, told)?;
    }
    Ok(())
}

/// What was done in the volumes. It fails with `NotWritten` where the reader of the output has gone before it was done in all of them.
pub fn not_cut_off<T: Drop>(rt: &HostRuntime, done: Result<T, Failure>) -> Result<T, Failure>
    ensures { IfOk result (λ x. done ≡ Ok x) }
{
    match done {
        Ok(x) => Ok(x),
        Err(Failure::Closed) => Err(Failure::told(
            rt.alloc(),
            Status::NotWritten,
            "the reader of the output has gone before this was done in all volumes; do it once more",
        )),
        Err(failure) => Err(failure),
    }
}

/// Replaces the plan of each volume of the archive in a folder by that of the file at a path. It is asked once, behind what that changes in
/// the last volume; what it changes in each other one is printed before it is set there. `BadData` where the new plan leaves out a class of
/// a volume, and `Usage` where nobody agrees, or a volume requires a reason and none is given: then it is set in none. `TryAgain` where
/// another program begins a volume, or sets a plan or titles, and `NotWritten` where the reader of the output goes away. Another program
/// may change a volume once it was judged; where the plan is refused there then, the volumes after it have the new plan.
pub fn set_plan<A: Archives>(
    rt: &HostRuntime,
    archives: &A,
    folder: &str,
    path: &str,
    is_agreed: bool,
    told: &Attribution<'_>,
) -> Result<(), Failure>
    ensures { OnOk result (OverVolumes (ReplacesPlanOver A.Kept.Store (A.is_at archives.now)
        folder.now told.now)) }
{
    let plan = read_plan(rt, path)?;
    let _lock = had(rt, folder, lock_folder(rt, folder))?;
    let volumes = Volumes::of(rt, folder)?;
    judge_plan_in_each(rt, archives, volumes, &plan, path, told)?;
    let replaced = replace_in_each(rt, archives, volumes, &plan, path, is_agreed, told);
    not_cut_off(rt, replaced)
}

/// Gives classes the titles of a text in each volume, from the last one down, and writes which have another one now, behind a line with its
/// number. Answers whether one has.
fn give_titles_in_each<A: Archives>(
    rt: &HostRuntime,
    archives: &A,
    volumes: Volumes<'_>,
    path: &str,
    text: &[u8],
    told: &Attribution<'_>,
) -> Result<bool, Failure> {
    let mut is_any = false;
    for later in 0..volumes.last {
        let volume = volumes.last - later;
        let author = author_in(rt, told, volume)?;
        let lines = volumes.lend(rt, archives, volume, SetTitles { author, path, text })?;
        if !lines.as_str().is_empty() {
            write_text(rt, &volume_line(rt.alloc(), volume)?)?;
            write_text(rt, &lines)?;
            is_any = true;
        }
    }
    Ok(is_any)
}

/// Gives classes the titles of the file at a path, in each volume of the archive in a folder, and writes which have another one now.
/// `BadData` where a volume has not the plan of the archive, or has no history or a damaged one, and where the file gives no titles: then
/// nothing is noted in any. `TryAgain` where another program begins a volume, or sets a plan or titles.
pub fn set_titles<A: Archives>(
    rt: &HostRuntime,
    archives: &A,
    folder: &str,
    path: &str,
    told: &Attribution<'_>,
) -> Result<(), Failure>
    ensures { OnOk result (OverVolumes (GivesTitlesOver A.Kept.Store (A.is_at archives.now)
        folder.now)) }
{
    judge_named(rt, told)?;
    let text = read_titles(rt, path)?;
    let _lock = had(rt, folder, lock_folder(rt, folder))?;
    let volumes = Volumes::of(rt, folder)?;
    judge_plans(rt, archives, volumes)?;
    judge_histories(rt, archives, volumes)?;
    let given = give_titles_in_each(rt, archives, volumes, path, text.as_slice(), told);
    let is_any = not_cut_off(rt, given)?;
    tell_none(rt, is_any);
    Ok(())
}
