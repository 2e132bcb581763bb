//! The records of a choice with what is asked of their messages, page by page.

ghost use Rattle.std.specs.Prelude.{◌≡◌, ◌≤◌, ◌<◌, ◌++◌, [], map, filter, Some, IfOk, IfSome, OnOk, if◌then◌else◌};
ghost use Rattle.cli_choice.specs.Reads.{IsReadOf};
ghost use Rattle.record_archive.specs.Archive.{Archive};
ghost use Rattle.record_choice.specs.Entries.{entry_view};
ghost use Rattle.record_choice.specs.Reads.{OnlyReads};
ghost use Rattle.record_choice.specs.Views.{choice_view};
ghost use Rattle.record_choice.specs.Walks.{shows_answer, kept_if, IsPageOf};
ghost use Rattle.cli_choice.specs.Questions.{asks_nothing, is_found, is_missed, is_found_answer, is_unread_answer, question_of};
ghost use Rattle.cli_choice.specs.Headers.{texts_view, texts_if, texts_kept, texts_found};

use crate::questions::{Answer, Questions};
use cli_texts::{Headers, headers_of};
use record_choice::{Anything, Choice, RecordEntry, Repository, WalkFault, choose_page};
use std::alloc::{AllocError, Global};

/// A page of a search.
#[derive(Drop)]
pub struct FoundPage {
    /// The records that are found.
    pub found: Vec<RecordEntry>,
    /// What the header of the message of each of them says, in the same order; none where that is not asked for, or where
    /// nothing is asked of messages, so that none was read.
    pub headers: Vec<Headers>,
    /// Those that meet all but the texts in fields, and lack these, but have fields that could not be read in full.
    pub unread: Vec<RecordEntry>,
    /// The number from which the search goes on, if it does.
    pub next: Option<u32>,
}

/// Records by what their messages answer.
#[derive(Drop)]
struct Parts {
    found: Vec<RecordEntry>,
    headers: Vec<Headers>,
    unread: Vec<RecordEntry>,
}

/// What a message answers, and what its header says, where it is found and that is asked for.
#[derive(Drop)]
struct Reading {
    answer: Answer,
    headers: Option<Headers>,
}

/// What is read of a search beside its records.
#[derive(Clone, Copy)]
pub enum Beside {
    /// Nothing.
    Nothing,
    /// What the headers of their messages say.
    Headers,
}

impl Parts {
    /// Adds the headers of a record that is found, if there are any.
    fn add_headers(&mut self, headers: Option<Headers>) -> Result<(), AllocError>
        ensures headers { OnOk result (map texts_view self.new.headers.items ≡
            map texts_view self.old.headers.items ++ texts_if headers) }
        ensures found { self.new.found ≡ self.old.found }
        ensures unread { self.new.unread ≡ self.old.unread }
    {
        if let Some(headers) = headers {
            self.headers.push(headers)?;
        }
        Ok(())
    }

    /// Adds a record to the part of an answer.
    fn add_entry(&mut self, entry: RecordEntry, answer: Answer) -> Result<(), AllocError>
        ensures found { OnOk result (map entry_view self.new.found.items ≡
            map entry_view self.old.found.items
            ++ kept_if (is_found_answer answer) (entry_view entry)) }
        ensures unread { OnOk result (map entry_view self.new.unread.items ≡
            map entry_view self.old.unread.items
            ++ kept_if (is_unread_answer answer) (entry_view entry)) }
        ensures headers { self.new.headers ≡ self.old.headers }
    {
        match answer {
            Answer::Found => self.found.push(entry)?,
            Answer::Unread => self.unread.push(entry)?,
            Answer::Lacking => {}
        }
        Ok(())
    }

    /// Adds a record to the part of what its message answers, and its headers if there are any.
    fn add(&mut self, entry: RecordEntry, reading: Reading) -> Result<(), AllocError>
        ensures found { OnOk result (map entry_view self.new.found.items ≡
            map entry_view self.old.found.items
            ++ kept_if (is_found_answer reading.answer) (entry_view entry)) }
        ensures unread { OnOk result (map entry_view self.new.unread.items ≡
            map entry_view self.old.unread.items
            ++ kept_if (is_unread_answer reading.answer) (entry_view entry)) }
        ensures headers { OnOk result (map texts_view self.new.headers.items ≡
            map texts_view self.old.headers.items ++ texts_if reading.headers) }
    {
        let Reading { answer, headers } = reading;
        self.add_headers(headers)?;
        self.add_entry(entry, answer)
    }
}

/// What the header of a message says, where it is found and that is asked for.
fn headers_beside(
    alloc: Global,
    beside: Beside,
    answer: Answer,
    message: &[u8],
) -> Result<Option<Headers>, AllocError>
    ensures { IfOk result
        (λ h. texts_if h ≡ texts_kept beside (is_found_answer answer) message.now) }
{
    match (beside, answer) {
        (Beside::Headers, Answer::Found) => Ok(Some(headers_of(alloc, message)?)),
        _ => Ok(None),
    }
}

/// What the message of a record answers, and what its header says. A message that is gone is not read, and lacks what is
/// asked.
fn reading_of<R: Repository>(
    alloc: Global,
    records: &mut R,
    questions: &Questions,
    beside: Beside,
    entry: &RecordEntry,
) -> Result<Reading, WalkFault<R::Fault>>
    ensures reads { OnlyReads R.clean R.stands records.old records.new }
    ensures found { IfOk result (λ x. IsReadOf R.clean R.stands records.old records.new
        (λ a. is_found_answer x.answer
        ≡ shows_answer a (is_found questions.now) (entry_view entry.now))) }
    ensures unread { IfOk result (λ x. IsReadOf R.clean R.stands records.old records.new
        (λ a. is_unread_answer x.answer
        ≡ shows_answer a (is_missed questions.now) (entry_view entry.now))) }
    ensures headers { IfOk result (λ x. IsReadOf R.clean R.stands records.old records.new
        (λ a. texts_if x.headers
        ≡ texts_found a beside (kept_if (is_found_answer x.answer) (entry_view entry.now)))) }
{
    if entry.destroyed {
        return Ok(Reading {
            answer: Answer::Lacking,
            headers: None,
        });
    }
    let message = match records.message(entry.number) {
        Ok(message) => message,
        Err(fault) => return Err(WalkFault::Repository(fault)),
    };
    let answer = questions.answer(alloc, message.as_slice())?;
    let headers = headers_beside(alloc, beside, answer, message.as_slice())?;
    Ok(Reading { answer, headers })
}

/// Parts records by what their messages answer.
#[tactic(auto, using(crate::proofs::Texts::texts_more))]
fn part<R: Repository>(
    alloc: Global,
    records: &mut R,
    questions: &Questions,
    beside: Beside,
    entries: Vec<RecordEntry>,
) -> Result<Parts, WalkFault<R::Fault>>
    ensures reads { OnlyReads R.clean R.stands records.old records.new }
    ensures found { IfOk result (λ p. IsReadOf R.clean R.stands records.old records.new
        (λ a. map entry_view p.found.items ≡
        filter (shows_answer a (is_found questions.now)) (map entry_view entries.items))) }
    ensures unread { IfOk result (λ p. IsReadOf R.clean R.stands records.old records.new
        (λ a. map entry_view p.unread.items ≡
        filter (shows_answer a (is_missed questions.now)) (map entry_view entries.items))) }
    ensures headers { IfOk result (λ p. IsReadOf R.clean R.stands records.old records.new
        (λ a. map texts_view p.headers.items
        ≡ texts_found a beside (map entry_view p.found.items))) }
{
    let mut parts = Parts {
        found: Vec::new(alloc),
        headers: Vec::new(alloc),
        unread: Vec::new(alloc),
    };
    for entry in entries {
        let reading = reading_of(alloc, records, questions, beside, &entry)?;
        parts.add(entry, reading)?;
    }
    Ok(parts)
}

/// The next page of a search: `most` records from a number on are looked at. A message is read only of a record that meets
/// the choice, once, and none where nothing is asked of messages.
pub fn search_page<R: Repository>(
    alloc: Global,
    records: &mut R,
    choice: &Choice,
    questions: &Questions,
    beside: Beside,
    from: u32,
    most: usize,
) -> Result<FoundPage, WalkFault<R::Fault>>
    requires { 1 ≤ most }
    ensures reads { OnlyReads R.clean R.stands records.old records.new }

    // What is found is a page of the records that meet the choice and have all that is asked.
    ensures found { IfOk result (λ p. IsReadOf R.clean R.stands records.old records.new
        (λ a. IsPageOf (question_of questions.now) (choice_view choice.now) a (Some from)
        (map entry_view p.found.items) p.next)) }

    // Beside it is a page of those that meet the choice and may have it.
    ensures unread { IfOk result (λ p. IsReadOf R.clean R.stands records.old records.new
        (λ a. IsPageOf (Some (is_missed questions.now)) (choice_view choice.now) a (Some from)
        (map entry_view p.unread.items) p.next)) }

    // What the headers say that are asked for, of the messages that are read.
    ensures headers { IfOk result (λ p. IsReadOf R.clean R.stands records.old records.new
        (λ a. map texts_view p.headers.items ≡ (if asks_nothing questions.now then []
        else texts_found a beside (map entry_view p.found.items)))) }
    ensures on { IfOk result (λ p. IsReadOf R.clean R.stands records.old records.new
        (λ a. IfSome p.next (λ n. from < n))) }
{
    let page = choose_page(alloc, records, choice, None::<&Anything>, from, most)?;
    if questions.is_nothing() {
        return Ok(FoundPage {
            found: page.chosen,
            headers: Vec::new(alloc),
            unread: Vec::new(alloc),
            next: page.next,
        });
    }
    let parts = part(alloc, records, questions, beside, page.chosen)?;
    Ok(FoundPage {
        found: parts.found,
        headers: parts.headers,
        unread: parts.unread,
        next: page.next,
    })
}
