//! A walk over the records that a command is about, page by page.

ghost use Rattle.std.specs.Prelude.{◌≡◌, ◌≤◌, ◌<◌, ◌++◌, List, map, filter, option_map, None, IfOk, OnOk, IfSome, Some};
ghost use Rattle.record_archive.specs.Archive.{Archive};
ghost use Rattle.record_choice.specs.Choices.{Choice as Chosen, Question, where_asked};
ghost use Rattle.record_choice.specs.Entries.{RecordEntry as Listed, entry_view};
ghost use Rattle.record_choice.specs.Reads.{OnlyReads};
ghost use Rattle.record_choice.specs.Views.{choice_view, shows};
ghost use Rattle.record_choice.specs.Walks.{last_of, above, shows_answer, kept_if, IsPageOf, WalkJoins};

use crate::choice::Choice;
use crate::entry::RecordEntry;
use crate::questions::Judge;
use crate::repository::Repository;
use std::alloc::{AllocError, Global};

/// A page of a walk.
#[derive(Drop)]
pub struct Page {
    /// The chosen records among those that were read.
    pub chosen: Vec<RecordEntry>,
    /// The number from which the walk goes on, if it does.
    pub next: Option<u32>,
}

/// Why a walk ends before its time.
#[derive(Drop)]
pub enum WalkFault<F> {
    /// The repository could not be read.
    Repository(F),
    /// No memory.
    NoMemory,
}

impl<F> From<AllocError> for WalkFault<F> {
    ghost use Rattle.record_choice.specs.declared.pages.WalkFault.TheVariants.{NoMemory};

    ghost from_gives = { λ _ f. f ≡ NoMemory };

    fn from(_: AllocError) -> WalkFault<F> {
        WalkFault::NoMemory
    }
}

/// The entries that meet a choice, and the number of the last entry of all.
fn sift(
    alloc: Global,
    choice: &Choice,
    entries: Vec<RecordEntry>,
) -> Result<(Vec<RecordEntry>, Option<u32>), AllocError>
    ensures chosen { IfOk result (λ x. map entry_view x.0.items ≡
        filter (shows (choice_view choice.now)) (map entry_view entries.items)) }
    ensures last { IfOk result (λ x. x.1 ≡ last_of None (map entry_view entries.items)) }
{
    let mut chosen = Vec::new(alloc);
    let mut last = None;
    for entry in entries {
        last = Some(entry.number);
        if choice.meets(&entry) {
            chosen.push(entry)?;
        }
    }
    Ok((chosen, last))
}

/// The number above one, if it is one of 32 bits.
pub(crate) fn number_above(last: Option<u32>) -> Option<u32>
    ensures { result ≡ above last }
{
    match last {
        Some(number) if number < u32::MAX => Some(number + 1),
        _ => None,
    }
}

/// Whether the answer to a question is yes for the message of an entry. A message that is gone is not read.
fn is_answered<R: Repository, J: Judge>(
    alloc: Global,
    records: &mut R,
    judge: &J,
    entry: &RecordEntry,
) -> Result<bool, WalkFault<R::Fault>>
    ensures reads { OnlyReads R.clean R.stands records.old records.new }
    ensures told { IfOk result (λ b. R.clean records.new → (a : Archive) → R.stands records.old a
        → b ≡ shows_answer a (J.asks judge.now) (entry_view entry.now)) }
{
    if entry.destroyed {
        return Ok(false);
    }
    let message = match records.message(entry.number) {
        Ok(message) => message,
        Err(fault) => return Err(WalkFault::Repository(fault)),
    };
    let answer = judge.judge(alloc, message.as_slice())?;
    Ok(answer)
}

/// Adds an entry that is to be kept.
fn push_if(list: &mut Vec<RecordEntry>, entry: RecordEntry, keep: bool) -> Result<(), AllocError>
    ensures { OnOk result (map entry_view list.new.items ≡
        map entry_view list.old.items ++ kept_if keep (entry_view entry)) }
{
    if keep {
        list.push(entry)?;
    }
    Ok(())
}

/// The entries for whose messages the answer to a question is yes.
fn keep_answered<R: Repository, J: Judge>(
    alloc: Global,
    records: &mut R,
    judge: &J,
    entries: Vec<RecordEntry>,
) -> Result<Vec<RecordEntry>, WalkFault<R::Fault>>
    ensures reads { OnlyReads R.clean R.stands records.old records.new }
    ensures kept { IfOk result (λ v. R.clean records.new → (a : Archive) → R.stands records.old a
        → map entry_view v.items ≡
        filter (shows_answer a (J.asks judge.now)) (map entry_view entries.items)) }
{
    let mut kept = Vec::new(alloc);
    for entry in entries {
        let keep = is_answered(alloc, records, judge, &entry)?;
        push_if(&mut kept, entry, keep)?;
    }
    Ok(kept)
}

/// The entries for whose messages the answer is yes; all of them, where nothing is asked. Then no message is read.
fn keep_asked<R: Repository, J: Judge>(
    alloc: Global,
    records: &mut R,
    question: Option<&J>,
    entries: Vec<RecordEntry>,
) -> Result<Vec<RecordEntry>, WalkFault<R::Fault>>
    ensures reads { OnlyReads R.clean R.stands records.old records.new }
    ensures kept { IfOk result (λ v. R.clean records.new → (a : Archive) → R.stands records.old a
        → map entry_view v.items ≡ filter (λ e. where_asked (λ asks. shows_answer a asks e)
        (option_map (λ j. J.asks j.now) question.entry)) (map entry_view entries.items)) }
{
    match question {
        None => Ok(entries),
        Some(judge) => keep_answered(alloc, records, judge, entries),
    }
}

/// The next page of a walk over the records of a choice: `most` records from a number on are looked at. Where a question
/// is asked, the page has only those for whose message the answer is yes, and none whose message is gone; a message is
/// read only of a record that meets the choice.
pub fn choose_page<R: Repository, J: Judge>(
    alloc: Global,
    records: &mut R,
    choice: &Choice,
    question: Option<&J>,
    from: u32,
    most: usize,
) -> Result<Page, WalkFault<R::Fault>>
    requires { 1 ≤ most }
    ensures reads { OnlyReads R.clean R.stands records.old records.new }
    ensures page { IfOk result (λ p. R.clean records.new → (a : Archive) → R.stands records.old a
        → IsPageOf (option_map (λ j. J.asks j.now) question.entry) (choice_view choice.now) a
        (Some from) (map entry_view p.chosen.items) p.next) }
    ensures on { IfOk result (λ p. R.clean records.new → (a : Archive) → R.stands records.old a
        → IfSome p.next (λ n. from < n)) }
{
    let entries = match records.entries(from, most) {
        Ok(entries) => entries,
        Err(fault) => return Err(WalkFault::Repository(fault)),
    };
    let (met, last) = sift(alloc, choice, entries)?;
    let chosen = keep_asked(alloc, records, question, met)?;
    Ok(Page {
        chosen,
        next: number_above(last),
    })
}

/// The law of `IsWalk` of the definitions: the pages of a walk from number 1 to its end, joined, are the chosen records. The
/// function does nothing.
pub fn walks_join()
    ensures { (q : Question) (c : Chosen) (a : Archive) (pages : List (List Listed))
        → WalkJoins q c a pages }
{}
