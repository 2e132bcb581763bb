//! What each subcommand does over an archive of volumes.

ghost use Rattle.std.specs.Prelude.{OnOk};
ghost use Rattle.cli_tasks.specs.Volumes.{DoesOver, DoesWithEach, DoesWithHistories};

use crate::archives::{Archives, lend};
use crate::subcommands::{CheckRules, Survey, show, why};
use crate::volume_beginnings::{accept_found, begin, require_reasons};
use crate::volume_changes::{change_holds, release_all};
use crate::volume_checks::check;
use crate::volume_copies::copy_volumes;
use crate::volume_disposals::dispose;
use crate::volume_histories::{print_certificates, print_histories, write_holds};
use crate::volume_readings::{export, list, report};
use crate::volume_refilings::refile;
use crate::volume_row::Volumes;
use crate::volume_settings::{set_plan, set_titles};
use crate::volume_twice::write_twice;
use choice_words::TypedChoice;
use cli_choice::Change;
use cli_console::{Failure, Status};
use cli_volumes::{has_volumes, path_of};
use command_lines::archives::{Attribution, ChosenTask, Command, HistoryTask, RulesChecked};
use std::alloc::AllocError;

/// The failure of what is not done over an archive of volumes.
fn not_over(rt: &HostRuntime, folder: &str) -> Failure {
    Failure::at(
        rt.alloc(),
        Status::Usage,
        folder,
        &"an archive of volumes, over which this is not done; name one of them, as 0001.db in it",
    )
}

/// Whether a command on the store at a path is one on the volumes of a folder, which `execute_over` does. Messages are captured in
/// them as in any store, and `create` makes them.
pub fn is_over_volumes(
    rt: &HostRuntime,
    store: &str,
    command: &Command<'_>,
) -> Result<bool, AllocError> {
    match command {
        Command::Create { .. }
        | Command::Adopt { .. }
        | Command::Deliver { .. }
        | Command::Intake { .. }
        | Command::Import(_) => Ok(false),
        _ => has_volumes(rt, store),
    }
}

/// Judges rules by the plan of the archive, which is that of its last volume. What is told of them names no volume.
fn check_rules<A: Archives>(
    rt: &HostRuntime,
    archives: &A,
    volumes: Volumes<'_>,
    asked: RulesChecked<'_>,
) -> Result<(), Failure> {
    let path = path_of(rt.alloc(), volumes.folder, volumes.last)?;
    lend(rt, archives, path.as_str(), CheckRules(asked))
}

/// Does something with the records of a choice in the volumes of a folder.
#[tactic(auto, using(crate::proofs::DoneLemmas::nothing_said))]
fn on_volumes<'a, A: Archives>(
    rt: &HostRuntime,
    archives: &A,
    volumes: Volumes<'_>,
    typed: &TypedChoice<'a>,
    task: &ChosenTask<'a>,
    told: &Attribution<'_>,
) -> Result<(), Failure>
    ensures { OnOk result (DoesWithEach A.Kept.Store (A.is_at archives.now)
        volumes.entry.folder.now told.now typed.now volumes.entry.last task.now) }
{
    match task {
        ChosenTask::List(listing) => list(rt, archives, volumes, typed, *listing),
        ChosenTask::Hold(name) => {
            change_holds(rt, archives, volumes, typed, Change::Place, *name, told)
        }
        ChosenTask::Release(name) => {
            change_holds(rt, archives, volumes, typed, Change::End, *name, told)
        }
        ChosenTask::Refile(refiling) => refile(rt, archives, volumes, typed, *refiling, told),
        ChosenTask::Export(target) => export(rt, archives, volumes, typed, *target),
        ChosenTask::Report { day } => report(rt, archives, volumes, typed, *day),
    }
}

/// Begins the histories of the volumes of a folder, notes whether they require reasons or that findings are accepted, or prints them.
#[tactic(auto, using(crate::proofs::DoneLemmas::nothing_said))]
fn history<A: Archives>(
    rt: &HostRuntime,
    archives: &A,
    volumes: Volumes<'_>,
    task: &HistoryTask<'_>,
    told: &Attribution<'_>,
) -> Result<(), Failure>
    ensures { OnOk result (DoesWithHistories A.Kept.Store (A.is_at archives.now)
        volumes.entry.folder.now told.now task.now) }
{
    let folder = volumes.folder;
    match task {
        HistoryTask::Begin => begin(rt, archives, folder, told),
        HistoryTask::Reasons(reasons) => require_reasons(rt, archives, folder, *reasons, told),
        HistoryTask::AcceptFound => accept_found(rt, archives, folder, told),
        HistoryTask::Print(typed) => print_histories(rt, archives, volumes, typed),
    }
}

/// Does what a command asks for over the archive of volumes in a folder. `Usage` where it is one that is done in one volume.
#[tactic(auto, using(crate::proofs::DoneLemmas::nothing_said))]
pub fn execute_over<A: Archives>(
    rt: &HostRuntime,
    archives: &A,
    folder: &str,
    command: Command<'_>,
    told: &Attribution<'_>,
) -> Result<(), Failure>
    ensures { OnOk result (DoesOver A.Kept.Store (A.is_at archives.now) folder.now told.now
        command.entry) }
{
    let volumes = Volumes::of(rt, folder)?;
    match command {
        Command::WritePlan => volumes.lend(rt, archives, volumes.last, Survey::Plan),
        Command::WriteTitles { is_json } => {
            volumes.lend(rt, archives, volumes.last, Survey::Titles { is_json })
        }
        Command::CheckRules(asked) => check_rules(rt, archives, volumes, asked),
        Command::Check { head } => check(rt, archives, volumes, head),
        Command::Show { record, fields } => {
            let path = volumes.path_of_record(rt, record)?;
            show(rt, archives, path.as_str(), record, fields)
        }
        Command::Why(asked) => {
            let path = volumes.path_of_record(rt, asked.record)?;
            why(rt, archives, path.as_str(), &asked)
        }
        Command::Holds { is_json } => write_holds(rt, archives, volumes, is_json),
        Command::Twice(listing) => write_twice(rt, archives, volumes, listing),
        Command::History(task) => history(rt, archives, volumes, &task, told),
        Command::Certificates { numbers } => print_certificates(rt, archives, volumes, &numbers),
        Command::Chosen(typed, task) => on_volumes(rt, archives, volumes, &typed, &task, told),
        Command::ReleaseAll { name, is_agreed } => {
            release_all(rt, archives, volumes, name, is_agreed, told)
        }
        Command::Dispose(asked) => dispose(rt, archives, volumes, asked, told),
        Command::ReplacePlan { plan, is_agreed } => {
            set_plan(rt, archives, folder, plan, is_agreed, told)
        }
        Command::SetTitles { titles } => set_titles(rt, archives, folder, titles, told),
        Command::Copy { new, is_damaged } => copy_volumes(rt, archives, folder, new, is_damaged),
        Command::Create { .. }
        | Command::Adopt { .. }
        | Command::Deliver { .. }
        | Command::Intake { .. }
        | Command::Import(_) => Err(not_over(rt, folder)),
    }
}
