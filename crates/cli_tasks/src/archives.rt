//! Where archives are kept, and what is done with them there.

ghost use Rattle.std.specs.Prelude.{◌≡◌, ◌≢◌, ℕ, List, Ok, Result, IfOk, OnOk, false, string_bytes};
ghost use Rattle.sqlite.specs.Store.{Ghosts};
ghost use Rattle.sqlite.specs.Held.{Held};
ghost use Rattle.record_store.specs.declared.store.Store.{Store};
ghost use Rattle.cli_console.specs.declared.failure.Failure.{Failure};
ghost use Rattle.cli_tasks.specs.Copies.{draft_at};
ghost use Rattle.cli_tasks.specs.Places.{IsOfMaking, is_of_reading};
ghost use Rattle.cli_tasks.specs.Works.{IsDone};

use crate::reports::tell_failure;
use class_plan::Plan;
use cli_console::{Failure, Status};
use record_store::Store;
use sqlite::{Alter, Connection};

/// How an archive was closed.
#[derive(Clone, Copy)]
pub enum Closed {
    /// Its file alone keeps it.
    Whole,
    /// Its file keeps it together with the log beside it.
    WithLog,
    /// The disk has failed, so that it may not keep what was done.
    Doubtful,
}

/// What is done with an archive that is open.
pub trait Work: Drop {
    /// What it comes to.
    type Answer: Drop;

    /// What it makes of a store, by what it comes to and the connection that is left. Of a work that does not say it, nothing
    /// is known.
    ghost does: { (S : Type 0) → Ghosts S → Self → Store S → Result Self.Answer Failure → Held S
        → Type 0 } = { λ S g it before done after. Unit {0} };

    /// Does it. The connection is given back whatever fails.
    fn work<S: Alter>(
        self,
        rt: &HostRuntime,
        archive: Store<S>,
    ) -> (Connection<S>, Result<Self::Answer, Failure>)
        ensures { does S S.Store self archive result.1 result.0 };
}

/// What the draft of an archive is filled with, from another database.
pub trait Filling: Drop {
    /// What it makes of a draft and of the connection to that database, by what it comes to and the connection of the draft that is left.
    ghost fills: { (S T : Type 0) → Ghosts S → Ghosts T → Self → (from from_after : Held S)
        → Store T → Result (Unit {0}) Failure → Held T → Type 0 };

    /// Fills it. The connection of the draft is given back whatever fails.
    fn fill<S: Alter, T: Alter>(
        self,
        rt: &HostRuntime,
        draft: Store<T>,
        from: &mut Connection<S>,
    ) -> (Connection<T>, Result<(), Failure>)
        ensures { fills S T S.Store T.Store self from.old from.new draft result.1 result.0 };
}

/// Where archives are kept, each at a path. Programs have files there; what is done with an archive knows nothing of them,
/// and is proved beside them.
pub trait Archives: Drop {
    /// Where the database of an archive is.
    type Kept: Alter;

    /// This store was opened at this path. By it a contract over any archives says at which path a work is lent one; what is
    /// there, it does not say.
    ghost is_at: { Self → List ℕ → Store Self.Kept → Type 0 };

    /// Opens the archive at a path, lends it to a work, and closes it. Answers what the work came to, and how the archive
    /// was closed. The failure is that of an archive that cannot be had.
    fn lend<W: Work>(
        &self,
        rt: &HostRuntime,
        path: &str,
        work: W,
    ) -> Result<(Result<W::Answer, Failure>, Closed), Failure>
        ensures { IfOk result (λ x. IsDone (is_at self.now path.now)
            (λ before after. W.does Self.Kept Self.Kept.Store work before x.0 after)) };

    /// Opens the draft of an archive, has it filled from the database of a connection, and closes it. Answers as `lend` does.
    fn lend_to_fill<F: Filling, S: Alter>(
        &self,
        rt: &HostRuntime,
        draft: &str,
        filling: F,
        from: &mut Connection<S>,
    ) -> Result<(Result<(), Failure>, Closed), Failure>
        ensures { IfOk result (λ x. IsDone (is_at self.now draft.now)
            (λ before after. F.fills S Self.Kept S.Store Self.Kept.Store filling from.old from.new
            before x.0 after)) };

    /// Makes an archive with a plan that is to have its place at a path where nothing is. Answers the path of a draft, at
    /// which it is until then, beside that path. Where that fails, nothing is left there.
    fn create(&self, rt: &HostRuntime, path: &str, plan: Plan) -> Result<String, Failure>
        ensures { IfOk result (λ draft. string_bytes draft ≡ draft_at path.now) };

    /// Gives a draft that is whole its place at a path. Nothing there is replaced.
    fn give_place(&self, rt: &HostRuntime, draft: &str, path: &str) -> Result<(), Failure>;

    /// Removes a draft.
    fn remove(&self, rt: &HostRuntime, draft: &str);
}

/// The same status, but `CannotMake` where what is to be made is not there or is none.
fn status_of_making(status: Status) -> Status
    ensures made { is_of_reading result ≡ false }
    ensures same { is_of_reading status ≡ false → result ≡ status }
{
    match status {
        Status::NoInput | Status::BadData => Status::CannotMake,
        Status::Usage => Status::Usage,
        Status::CannotMake => Status::CannotMake,
        Status::NotWritten => Status::NotWritten,
        Status::TryAgain => Status::TryAgain,
    }
}

/// The same failure with `CannotMake` where the new archive is not there or is none.
pub fn not_made(failure: Failure) -> Failure
    ensures made { IsOfMaking result }
    ensures same { IsOfMaking failure → result ≡ failure }
{
    match failure {
        Failure::Told(status, text) => Failure::Told(status_of_making(status), text),
        Failure::Closed => Failure::Closed,
        Failure::NoMemory => Failure::NoMemory,
        Failure::Reported(status) => Failure::Reported(status),
    }
}

/// What was done with an archive that is closed now. Where it may not keep that, this is the failure, by `TryAgain`; why
/// something was not done is written before.
pub fn settled<T: Drop>(
    rt: &HostRuntime,
    path: &str,
    done: Result<T, Failure>,
    closed: Closed,
) -> Result<T, Failure>
    ensures done { IfOk result (λ x. done ≡ Ok x) }
    ensures kept { OnOk result (closed ≢ Closed.Doubtful) }
{
    match closed {
        Closed::Whole | Closed::WithLog => done,
        Closed::Doubtful => {
            if let Err(failure) = done {
                tell_failure(rt, &failure);
            }
            Err(Failure::at(
                rt.alloc(),
                Status::TryAgain,
                path,
                &"the disk failed, and what was done may not be kept",
            ))
        }
    }
}

/// Does something with the archive at a path, and answers what that came to, as `settled` does.
pub fn lend<A: Archives, W: Work>(
    rt: &HostRuntime,
    archives: &A,
    path: &str,
    work: W,
) -> Result<W::Answer, Failure>
    ensures { IfOk result (λ x. IsDone (A.is_at archives.now path.now)
        (λ before after. W.does A.Kept A.Kept.Store work before (Ok x) after)) }
{
    let (done, closed) = archives.lend(rt, path, work)?;
    settled(rt, path, done, closed)
}
