//! How records are changed, one after another.

ghost use Rattle.std.specs.Prelude.{◌≡◌, ◌||◌, ℕ, List, false, not, IfOk, OnErr, OnOk};
ghost use Rattle.record_archive.specs.Archive.{Archive};
ghost use Rattle.record_archive.specs.Calls.{Keeper};
ghost use Rattle.record_archive.specs.Faults.{is_trouble, number_of};
ghost use Rattle.cli_console.specs.Finds.{IsEndOf};
ghost use Rattle.cli_changes.specs.Holdings.{is_any_of};
ghost use Rattle.cli_changes.specs.ReasonLines.{refusal_words as refusal_words_of};
ghost use Rattle.cli_changes.specs.Series.{Command, IsDoneOn, IsTried, IsTriedOn, StopsIn, changed_in_both};

use cli_console::{Failure, Status, refusal_words, tell};
use cli_texts::{number_text, put_number};
use record_store::{ArchiveRefusal, StoreFault};
use std::alloc::{AllocError, Global};
use tool_texts::Shown;

/// A change of single records of an archive, which is told once it is made.
pub(crate) trait RecordChange<A> {
    /// What keeps the archive.
    ghost keeper: { Keeper A Archive };

    /// The archive's command on the record of a number.
    ghost command: { Self → Command };

    /// Has the archive change a record, and tells what became of that. Answers whether it was done; else the archive refused.
    /// A failure is that of the store, or no memory; then nothing has changed.
    fn change_one(&self, archive: &mut A, number: u32) -> Result<bool, Failure>
        ensures falls { keeper.clean archive.new → keeper.clean archive.old }
        ensures tried { IfOk result (λ is_done. keeper.clean archive.new → (a : Archive)
            → keeper.stands archive.old a
            → IsTried (keeper.stands archive.new) a (command self.now number a) is_done) }
        ensures failed { OnErr result ((a : Archive) → keeper.stands archive.old a
            → keeper.stands archive.new a) };
}

/// What became of records that were to be changed.
#[derive(Clone, Copy)]
pub struct Changed {
    /// Whether the archive did it on one.
    pub is_any: bool,
    /// Whether it refused one, or one whose number is typed was not found.
    pub is_refused: bool,
}

impl Changed {
    /// What became of no record.
    pub fn none() -> Changed
        ensures { result ≡ record { is_any = false; is_refused = false } }
    {
        Changed {
            is_any: false,
            is_refused: false,
        }
    }

    /// What became of these records, and of those of another store.
    pub fn joined(self, other: Changed) -> Changed
        ensures { result ≡ changed_in_both self other }
    {
        Changed {
            is_any: self.is_any || other.is_any,
            is_refused: self.is_refused || other.is_refused,
        }
    }

    /// The same with one record more, on which the archive did it or refused it.
    fn and_one(self, is_done: bool) -> Changed
        ensures any { result.is_any ≡ (self.is_any || is_done) }
        ensures refused { result.is_refused ≡ (self.is_refused || not is_done) }
    {
        Changed {
            is_any: self.is_any || is_done,
            is_refused: self.is_refused || !is_done,
        }
    }

    /// The same; refused also where not all numbers that are typed were found.
    pub(crate) fn with_missing(self, is_all_found: bool) -> Changed
        ensures any { result.is_any ≡ self.is_any }
        ensures refused { result.is_refused ≡ (self.is_refused || not is_all_found) }
    {
        Changed {
            is_any: self.is_any,
            is_refused: self.is_refused || !is_all_found,
        }
    }
}

/// Tries a change on the records of these numbers, in this order, and on no other, up to the first failure.
pub(crate) fn change_each<A, C: RecordChange<A>>(
    change: &C,
    archive: &mut A,
    numbers: &[u32],
) -> Result<Changed, Failure>
    ensures falls { C.keeper.clean archive.new → C.keeper.clean archive.old }
    ensures tried { IfOk result (λ d. C.keeper.clean archive.new → (a : Archive)
        → C.keeper.stands archive.old a → IsTriedOn (C.keeper.stands archive.new)
        (C.command change.now) numbers.now a d.is_any d.is_refused) }
    ensures stopped { OnErr result (C.keeper.clean archive.new → (a : Archive)
        → C.keeper.stands archive.old a → StopsIn (C.keeper.stands archive.new)
        (C.command change.now) numbers.now a) }
{
    let mut changed = Changed::none();
    for number in numbers {
        let is_done = change.change_one(archive, *number)?;
        changed = changed.and_one(is_done);
    }
    Ok(changed)
}

/// The same; in the end `BadData` where the archive refuses one, which was told.
pub(crate) fn change_all<A, C: RecordChange<A>>(
    change: &C,
    archive: &mut A,
    numbers: &[u32],
) -> Result<(), Failure>
    ensures falls { C.keeper.clean archive.new → C.keeper.clean archive.old }
    ensures done { OnOk result (C.keeper.clean archive.new → (a : Archive)
        → C.keeper.stands archive.old a → IsDoneOn (C.keeper.stands archive.new)
        (C.command change.now) numbers.now a) }
    ensures stopped { OnErr result (C.keeper.clean archive.new → (a : Archive)
        → C.keeper.stands archive.old a → StopsIn (C.keeper.stands archive.new)
        (C.command change.now) numbers.now a) }
{
    let changed = change_each(change, archive, numbers)?;
    judge_refused(changed.is_refused)
}

/// That the archive refuses to change a record, which is that of a volume in an archive of volumes.
#[tactic(auto, unfolding(crate::specs::ReasonLines::refusal_words))]
pub(crate) fn refusal_line(
    alloc: Global,
    volume: Option<u32>,
    number: u32,
    refusal: ArchiveRefusal,
) -> Result<Shown, AllocError>
    ensures { IfOk result (λ line. (said : List ℕ)
        × (line ≡ refusal_words_of volume number (number_of refusal) said)) }
{
    let refusal = refusal.number();
    let mut line = Shown::new(alloc);
    put_number(&mut line, volume, number)?;
    line.words(": ")?;
    line.value(&refusal)?;
    line.words(": ")?;
    line.words(refusal_words(refusal))?;
    Ok(line)
}

/// Tells that the archive refused to change a record, and answers that it was not done. Any other fault is a failure.
pub(crate) fn refusal_told(
    rt: &HostRuntime,
    volume: Option<u32>,
    number: u32,
    fault: StoreFault,
) -> Result<bool, Failure>
    ensures undone { IfOk result (λ is_done. is_done ≡ false) }
    ensures refused { OnOk result (is_trouble fault ≡ false) }
{
    match fault {
        StoreFault::Refused(refusal) => {
            tell(rt, &refusal_line(rt.alloc(), volume, number, refusal)?);
            Ok(false)
        }
        trouble => {
            let word = number_text(rt.alloc(), volume, number)?;
            Err(Failure::of_store(rt.alloc(), word.as_str(), trouble))
        }
    }
}

/// Whether a search ended well. A number that was not found was told then; another failure is one.
pub(crate) fn is_all_found(ended: Result<(), Failure>) -> Result<bool, Failure>
    ensures { IfOk result (λ all. (missing : List ℕ) → IsEndOf missing ended
        → all ≡ not (is_any_of missing)) }
{
    match ended {
        Ok(()) => Ok(true),
        Err(Failure::Reported(Status::BadData)) => Ok(false),
        Err(failure) => Err(failure),
    }
}

/// Finds that no record was refused. Else `BadData`; which one it is was told.
pub fn judge_refused(is_refused: bool) -> Result<(), Failure>
    ensures { OnOk result (is_refused ≡ false) }
{
    if is_refused {
        return Err(Failure::Reported(Status::BadData));
    }
    Ok(())
}

/// Finds that the records which are to be changed are those that were listed before. Else `TryAgain`: another program has changed the
/// archive in between.
pub(crate) fn judge_listed(rt: &HostRuntime, numbers: &[u32], listed: &[u32]) -> Result<(), Failure>
    ensures { OnOk result (numbers.now ≡ listed.now) }
{
    if numbers == listed {
        return Ok(());
    }
    Err(Failure::told(
        rt.alloc(),
        Status::TryAgain,
        "another program has changed which records these are since they were listed; nothing is changed here",
    ))
}
