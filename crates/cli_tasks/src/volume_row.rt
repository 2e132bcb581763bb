//! The volumes of an archive that a command is done over, one after another.

ghost use Rattle.std.specs.Prelude.{◌≡◌, ◌≤◌, ℕ, false, true, string_bytes, None, Ok, Some, IfErr, IfOk};
ghost use Rattle.cli_console.specs.Failures.{IsInVolume, IsToldAs};
ghost use Rattle.cli_console.specs.declared.failure.Status.TheVariants.{BadData, Usage};
ghost use Rattle.cli_tasks.specs.Commands.{IsTold};
ghost use Rattle.cli_tasks.specs.Places.{IsPathOf, is_of_output};
ghost use Rattle.cli_tasks.specs.Works.{InVolume};

use crate::archives::{Archives, Work, lend, settled};
use crate::rolling::{ReadPlan, no_volumes};
use crate::volume_numbers::volume_of_record;
use class_plan::Plan;
use cli_console::{Failure, Status};
use cli_history::Author;
use cli_volumes::{path_of, row_in};
use command_lines::archives::{Attribution, TypedNumber};
use std::alloc::{AllocError, Global};
use tool_texts::Shown;

/// The volumes of an archive in a folder.
#[derive(Clone, Copy)]
pub struct Volumes<'a> {
    pub folder: &'a str,
    /// The number of the last one. The first one is 1, and none is missing between.
    pub last: u32,
}

/// Who changes a volume, as the command line tells, with its number.
pub fn author_in<'a>(
    rt: &HostRuntime,
    told: &Attribution<'a>,
    volume: u32,
) -> Result<Author<'a>, AllocError>
    ensures told { IfOk result (λ author. IsTold told.now author) }
    ensures volume { IfOk result (λ author. author.volume ≡ Some volume) }
{
    Ok(Author::of(rt, told)?.in_volume(Some(volume)))
}

/// Finds that it is known who makes a change. Else `Usage`.
pub fn judge_named(rt: &HostRuntime, told: &Attribution<'_>) -> Result<(), Failure> {
    let author = Author::of(rt, told)?;
    author.named(rt)?;
    Ok(())
}

/// Whether a failure is one of standard output.
fn is_of_output(failure: &Failure) -> bool
    ensures { result ≡ is_of_output failure.now }
{
    match failure {
        Failure::Told(status, _) => matches!(status, Status::NotWritten),
        Failure::Closed | Failure::NoMemory | Failure::Reported(_) => false,
    }
}

/// The same failure, which names the volume where it is told, unless it is one of standard output.
pub fn failure_in(rt: &HostRuntime, failure: Failure, volume: u32) -> Failure
    ensures same { is_of_output failure ≡ true → result ≡ failure }
    ensures named { is_of_output failure ≡ false → IsInVolume (Some volume) failure result }
{
    if is_of_output(&failure) {
        return failure;
    }
    failure.in_volume(rt.alloc(), Some(volume))
}

/// What was done with a volume. A failure names it, as `failure_in` says.
pub fn named_in<T: Drop>(
    rt: &HostRuntime,
    done: Result<T, Failure>,
    volume: u32,
) -> Result<T, Failure>
    ensures { IfOk result (λ x. done ≡ Ok x) }
{
    match done {
        Ok(x) => Ok(x),
        Err(failure) => Err(failure_in(rt, failure, volume)),
    }
}

impl<'a> Volumes<'a> {
    /// The volumes of a folder: one at least. `NoInput` where one is missing, and `BadData` where the file `volumes` is damaged.
    pub fn of(rt: &HostRuntime, folder: &'a str) -> Result<Volumes<'a>, Failure>
        ensures folder { IfOk result (λ v. v.folder.now ≡ folder.now) }
        ensures some { IfOk result (λ v. 1 ≤ v.last) }
    {
        match row_in(rt, folder) {
            Ok(row) => Ok(Volumes {
                folder,
                last: row.last,
            }),
            Err(cause) => Err(no_volumes(rt, folder, cause)),
        }
    }

    /// Does something with the volume of a number, which a failure names, as `failure_in` says.
    pub fn lend<A: Archives, W: Work>(
        &self,
        rt: &HostRuntime,
        archives: &A,
        volume: u32,
        work: W,
    ) -> Result<W::Answer, Failure>
        ensures { IfOk result (λ x. InVolume (A.is_at archives.now) self.now.folder.now volume
            (λ before after. W.does A.Kept A.Kept.Store work before (Ok x) after)) }
    {
        let path = path_of(rt.alloc(), self.folder, volume)?;
        let (done, closed) = archives.lend(rt, path.as_str(), work)?;
        settled(rt, path.as_str(), named_in(rt, done, volume), closed)
    }

    /// The path of the volume of a record. `Usage` where its number is typed without one, and `BadData` where there is no such volume.
    pub fn path_of_record(
        &self,
        rt: &HostRuntime,
        record: TypedNumber<'_>,
    ) -> Result<String, Failure>
        ensures found { IfOk result (λ path. IsPathOf self.now.folder.now self.now.last
            record.entry (string_bytes path)) }
        ensures without { record.entry.volume ≡ None → IfErr result (IsToldAs Usage) }
        ensures above { (v : ℕ) → record.entry.volume ≡ Some v
            → IfErr result (IsToldAs BadData) }
    {
        let volume = volume_of_record(rt, self.last, record)?;
        let found = path_of(rt.alloc(), self.folder, volume)?;
        Ok(found)
    }

    /// The plan of the archive, which is that of its last volume.
    pub fn plan<A: Archives>(&self, rt: &HostRuntime, archives: &A) -> Result<Plan, Failure> {
        let path = path_of(rt.alloc(), self.folder, self.last)?;
        lend(rt, archives, path.as_str(), ReadPlan)
    }
}

/// The line before what is said of a volume.
pub fn volume_line(alloc: Global, volume: u32) -> Result<Shown, AllocError> {
    let mut line = Shown::new(alloc);
    line.words("volume ")?;
    line.value(&volume)?;
    line.end_line()?;
    Ok(line)
}
