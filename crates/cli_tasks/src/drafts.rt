//! New archives, which get their places once they are found whole.

ghost use Rattle.std.specs.Prelude.{◌≡◌, IfOk, Ok, string_bytes};
ghost use Rattle.cli_tasks.specs.Copies.{draft_at};

use crate::archives::{Archives, Closed, Work, not_made};
use crate::beginnings::BeginHistory;
use class_plan::Plan;
use cli_console::{Failure, Status};
use cli_history::Author;
use cli_readings::{Summary, summary_of};
use record_store::Store;
use sqlite::{Alter, Connection};

/// Makes an archive with a plan that is to have its place at a path, and answers its draft. `CannotMake` where the place
/// is not one for a new archive.
pub fn begin<A: Archives>(
    rt: &HostRuntime,
    archives: &A,
    path: &str,
    plan: Plan,
) -> Result<String, Failure>
    ensures { IfOk result (λ draft. string_bytes draft ≡ draft_at path.now) }
{
    match archives.create(rt, path, plan) {
        Ok(draft) => Ok(draft),
        Err(failure) => Err(not_made(failure)),
    }
}

/// Sums up an archive.
#[derive(Drop)]
struct SumUp;

impl Work for SumUp {
    type Answer = Summary;

    fn work<S: Alter>(
        self,
        rt: &HostRuntime,
        archive: Store<S>,
    ) -> (Connection<S>, Result<Summary, Failure>) {
        let mut archive = archive;
        let summed = summary_of(rt, &mut archive);
        (archive.into_connection(), summed)
    }
}

/// Reads a draft back. All of it is in its file then, and nothing in the log.
pub fn read_back<A: Archives>(
    rt: &HostRuntime,
    archives: &A,
    draft: &str,
) -> Result<Summary, Failure> {
    match archives.lend(rt, draft, SumUp) {
        Ok((summed, Closed::Whole)) => summed,
        Ok(_) => Err(Failure::at(rt.alloc(), Status::TryAgain, draft, &"the disk failed")),
        Err(failure) => Err(not_made(failure)),
    }
}

/// Gives a draft that was found whole its place at a path, and answers what was found of it.
fn place<A: Archives, T: Drop>(
    rt: &HostRuntime,
    archives: &A,
    draft: &str,
    path: &str,
    found: Result<T, Failure>,
) -> Result<T, Failure>
    ensures { IfOk result (λ x. found ≡ Ok x) }
{
    let found = found?;
    match archives.give_place(rt, draft, path) {
        Ok(()) => Ok(found),
        Err(failure) => Err(not_made(failure)),
    }
}

/// The same. Where it was not found whole, or has no place there, it is removed.
pub fn settle<A: Archives, T: Drop>(
    rt: &HostRuntime,
    archives: &A,
    draft: &str,
    path: &str,
    found: Result<T, Failure>,
) -> Result<T, Failure>
    ensures { IfOk result (λ x. found ≡ Ok x) }
{
    let settled = place(rt, archives, draft, path, found);
    if settled.is_err() {
        archives.remove(rt, draft);
    }
    settled
}

/// Does something with a draft. How it is closed shows when it is read back.
pub fn lend_draft<A: Archives, W: Work>(
    rt: &HostRuntime,
    archives: &A,
    draft: &str,
    work: W,
) -> Result<W::Answer, Failure> {
    match archives.lend(rt, draft, work) {
        Ok((done, _closed)) => done,
        Err(failure) => Err(not_made(failure)),
    }
}

/// Begins the history of a draft.
pub fn begin_history<A: Archives>(
    rt: &HostRuntime,
    archives: &A,
    draft: &str,
    author: Author<'_>,
) -> Result<(), Failure> {
    lend_draft(rt, archives, draft, BeginHistory(author))?;
    Ok(())
}

/// Makes an archive with a plan at a path where nothing is. Its history begins with the plan.
pub fn make<A: Archives>(
    rt: &HostRuntime,
    archives: &A,
    path: &str,
    plan: Plan,
    author: Author<'_>,
) -> Result<(), Failure> {
    let draft = begin(rt, archives, path, plan)?;
    let place = draft.as_str();
    let found = match begin_history(rt, archives, place, author) {
        Ok(()) => read_back(rt, archives, place),
        Err(failure) => Err(failure),
    };
    settle(rt, archives, place, path, found)?;
    Ok(())
}
