//! A new store before it has its name.
//!
//! It is made beside its place. So nobody opens a store that is not whole, and what is removed where something fails was
//! never opened by others.

ghost use Rattle.std.specs.Prelude.{◌≡◌, IfOk, OnErr, OnOk, string_bytes};
ghost use Rattle.record_places.specs.Calls.{Begins, Makes};
ghost use Rattle.record_places.specs.Looks.{IsFreePlace};
ghost use Rattle.cli_files.specs.Making.{draft_of, placing};

use crate::fault::NoStore;
use crate::removal::log_beside;
use record_places::{FileSystem, is_there, judge_place};
use std::alloc::Global;

/// What the name of a new store ends with until it is whole.
const ENDING: &str = ".mailfile-new";

/// The path at which a store is made that is to have its place at a path. Refused where something is at either of them, or
/// a log or journal beside the path. Nothing is made.
pub fn draft_for<F: FileSystem>(files: &F, alloc: Global, path: &str) -> Result<String, NoStore>
    ensures beside { IfOk result (λ draft. string_bytes draft ≡ draft_of path.now) }
    ensures free { OnOk result (IsFreePlace F.lacks files.now path.now) }
    ensures unfinished { OnOk result (F.lacks files.now (draft_of path.now)) }
{
    judge_place(files, alloc, path)?;
    let draft = format!(in alloc; "{path}{ENDING}")?;
    if is_there(files, draft.as_str())? {
        return Err(NoStore::Unfinished);
    }
    Ok(draft)
}

/// Gives a store that is whole, all of it in the file at `draft`, its place at a path. Refused where something is there;
/// nothing is replaced. The first name is removed only once the file has the second.
pub fn give_place<F: FileSystem>(
    files: &mut F,
    alloc: Global,
    draft: &str,
    path: &str,
) -> Result<(), NoStore>
    ensures free { OnOk result (IsFreePlace F.lacks files.old path.now) }
    ensures places { OnOk result (Makes F.made files.old files.new
        (λ calls. calls ≡ placing draft.now path.now)) }
    ensures tries { OnErr result (Makes F.made files.old files.new
        (Begins (placing draft.now path.now) (F.has_named files.new path.now))) }
{
    judge_place(files, alloc, path)?;
    let log = log_beside(alloc, draft)?;
    files.hard_link(draft, path)?;
    let _ = files.remove(log.as_str());
    files.remove(draft)?;
    files.settle(path).map_err(|_| NoStore::Disk)
}
