//! The plan of an archive of volumes, which each of them has.

ghost use Rattle.std.specs.Prelude.{◌≡◌, ◌↔◌, IfOk, IsTrue, OnOk};
ghost use Rattle.cli_tasks.specs.Plans.{HaveOnePlan};
ghost use Rattle.cli_tasks.specs.Works.{EachVolume, InVolume};

use crate::archives::{Archives, Work};
use crate::volume_checks::behind_words;
use crate::volume_row::Volumes;
use class_plan::Plan;
use cli_console::{Failure, Status};
use cli_history::is_same_plan;
use record_store::Store;
use sqlite::{Alter, Connection};
use std::alloc::Global;

/// Whether a store has a plan. The only refusal is no memory.
fn has_plan<S: Alter>(alloc: Global, archive: &Store<S>, plan: &Plan) -> Result<bool, Failure>
    ensures { IfOk result (λ b. IsTrue b ↔ (archive.now.plan ≡ plan.now)) }
{
    Ok(is_same_plan(alloc, archive.plan(), plan)?)
}

/// Looks whether a store has a plan.
#[derive(Drop)]
struct LookForPlan<'p> {
    plan: &'p Plan,
}

impl Work for LookForPlan<'_> {
    type Answer = bool;

    ghost does = { λ S g it before done after. IfOk done
        (λ b. IsTrue b ↔ (before.plan ≡ it.plan.now)) };

    fn work<S: Alter>(
        self,
        rt: &HostRuntime,
        archive: Store<S>,
    ) -> (Connection<S>, Result<bool, Failure>) {
        let is_same = has_plan(rt.alloc(), &archive, self.plan);
        (archive.into_connection(), is_same)
    }
}

/// Finds that a volume has a plan. Else `BadData`.
fn judge_plan<A: Archives>(
    rt: &HostRuntime,
    archives: &A,
    volumes: Volumes<'_>,
    volume: u32,
    plan: &Plan,
) -> Result<(), Failure>
    ensures { OnOk result (InVolume (A.is_at archives.now) volumes.entry.folder.now volume
        (λ before after. before.plan ≡ plan.now)) }
{
    let is_same = volumes.lend(rt, archives, volume, LookForPlan { plan })?;
    if !is_same {
        return Err(Failure::shown(Status::BadData, behind_words(rt.alloc(), volume)));
    }
    Ok(())
}

/// Finds that each volume has a plan. Else `BadData`.
fn judge_each<A: Archives>(
    rt: &HostRuntime,
    archives: &A,
    volumes: Volumes<'_>,
    plan: &Plan,
) -> Result<(), Failure>
    ensures { OnOk result (EachVolume volumes.entry.last (λ v. InVolume (A.is_at archives.now)
        volumes.entry.folder.now v (λ before after. before.plan ≡ plan.now))) }
{
    for below in 0..volumes.last {
        judge_plan(rt, archives, volumes, below + 1, plan)?;
    }
    Ok(())
}

/// Finds that each volume has the plan of the archive, which is that of the last. Else `BadData`.
pub fn judge_plans<A: Archives>(
    rt: &HostRuntime,
    archives: &A,
    volumes: Volumes<'_>,
) -> Result<(), Failure>
    ensures { OnOk result (HaveOnePlan (A.is_at archives.now) volumes.entry.folder.now
        volumes.entry.last) }
{
    let plan = volumes.plan(rt, archives)?;
    judge_each(rt, archives, volumes, &plan)
}
