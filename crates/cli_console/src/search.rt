//! A search for the records that a command is about. Which these are, `cli_choice` decides.

ghost use Rattle.std.specs.Prelude.{◌≡◌, ◌≤◌, ◌++◌, ◌∷◌, ℕ, [], map, nat_le, option_map, IfErr, IfOk, IfSome, OnOk, if◌then◌else◌};
ghost use Rattle.cli_choice.specs.Reads.{IsReadOf};
ghost use Rattle.record_archive.specs.Archive.{Archive, IsArchive};
ghost use Rattle.record_choice.specs.Entries.{entry_view};
ghost use Rattle.record_choice.specs.Reads.{OnlyReads};
ghost use Rattle.record_choice.specs.Views.{choice_view};
ghost use Rattle.cli_choice.specs.Questions.{asks_nothing, question_of};
ghost use Rattle.cli_choice.specs.Headers.{texts_view, texts_found};
ghost use Rattle.cli_console.specs.Failures.{IsToldAs};
ghost use Rattle.cli_console.specs.Finds.{IsBounded, IsEndOf, IsSameSearch, found_ahead, found_in, missing_of, singles_among};
ghost use Rattle.cli_console.specs.Turns.{IsSearchTurn, page_view, records_of};
ghost use Rattle.cli_console.specs.declared.failure.Status.TheVariants.{TryAgain};

use crate::failure::{Failure, Status};
use crate::output::{put_typed, tell};
use crate::walk::walk_failure;
use choice_words::{Choice, TypedNumbers, add_number};
use class_plan::Plan;
use cli_choice::{
    Beside, FoundPage, Questions, bounds_of, choice_of, is_single, not_found, search_page,
};
use cli_texts::{number_text, put_number};
use record_choice::{RecordEntry, Repository};
use record_store::StoreFault;
use std::alloc::{AllocError, Global};
use tool_plans::meant_class;
use tool_texts::{Shown, put};

/// How many records a search looks at in a step where the headers of their messages are kept.
pub(crate) const HEADERS_PAGE: usize = 250;

/// A search for the records of a choice, by number.
pub struct Search<'s, 'a> {
    typed: &'s Choice<'a>,
    questions: &'s Questions,
    choice: record_choice::Choice,
    /// The number from which it goes on, if it does.
    from: Option<u32>,
    /// The number after which none is asked for.
    last: u32,
    /// The numbers that were found, of those that are typed by themselves.
    found: Vec<u32>,
    /// The records that may have been found, had all their fields been read, as words of a command line.
    unread: Vec<TypedNumbers>,
}

impl Drop for Search<'_, '_> {
    fn drop(self) {
        let Search {
            typed: _,
            questions: _,
            choice: _,
            from: _,
            last: _,
            found: _,
            unread: _,
        } = self;
    }
}

/// That a class is none of a plan, and which one was meant, perhaps.
fn no_class(alloc: Global, class: &str, plan: &Plan) -> Result<Shown, AllocError> {
    let mut text = Shown::new(alloc);
    put!(text; named(class.as_bytes()) ": no class of the plan")?;
    if let Some(meant) = meant_class(alloc, plan, class.as_bytes())? {
        put!(text; "; is it " quoted(meant.as_bytes()) "?")?;
    }
    Ok(text)
}

/// Finds that a class is one of the plan.
fn judge_class(alloc: Global, class: Option<&str>, plan: &Plan) -> Result<(), Failure> {
    match class {
        Some(class) if plan.schedule_of(class.as_bytes()).is_none() => {
            Err(Failure::shown(Status::BadData, no_class(alloc, class, plan)))
        }
        _ => Ok(()),
    }
}

/// That records were not found, though they may be some of those that are looked for. Their numbers can be typed as they
/// stand there, in an archive of volumes too.
fn unread_line(
    alloc: Global,
    volume: Option<u32>,
    unread: &[TypedNumbers],
) -> Result<Shown, AllocError> {
    let mut line = Shown::new(alloc);
    match unread {
        [TypedNumbers::One(number)] => {
            line.words("record ")?;
            put_number(&mut line, volume, *number)?;
            line.words(": not found, but a field of it")?;
        }
        _ => {
            line.words("records")?;
            for numbers in unread {
                line.words(" ")?;
                put_typed(&mut line, volume, *numbers)?;
            }
            line.words(": not found, but a field of each")?;
        }
    }
    line.words(" that was looked at cannot be read in full")?;
    Ok(line)
}

/// Why the record of a number that is typed by itself was not found, in a volume after its number.
fn miss_line<R: Repository<Fault = StoreFault>>(
    alloc: Global,
    archive: &mut R,
    volume: Option<u32>,
    number: u32,
) -> Result<Shown, Failure>
    ensures reads { OnlyReads R.clean R.stands archive.old archive.new }
    ensures fails { IfErr result (IsToldAs TryAgain) }
{
    let word = number_text(alloc, volume, number)?;
    match archive.entry(number) {
        Ok(_) => {
            let mut line = Shown::new(alloc);
            put_number(&mut line, volume, number)?;
            line.words(": the record does not meet the conditions")?;
            Ok(line)
        }
        Err(fault) => match Failure::of_store(alloc, word.as_str(), fault) {
            Failure::Told(Status::BadData, line) => Ok(line),
            other => Err(other),
        },
    }
}

/// Notes the number of a record that was found, where it is typed by itself.
fn note_single(
    found: &mut Vec<u32>,
    typed: &[TypedNumbers],
    entry: &RecordEntry,
) -> Result<(), AllocError>
    ensures { OnOk result (found.new.items ≡
        found.old.items ++ singles_among typed.now (entry_view entry.now ∷ [])) }
{
    if is_single(typed, entry.number) {
        found.push(entry.number)?;
    }
    Ok(())
}

/// Notes which of the numbers that are typed by themselves were found.
fn note_found(
    found: &mut Vec<u32>,
    typed: &[TypedNumbers],
    entries: &[RecordEntry],
) -> Result<(), AllocError>
    ensures { OnOk result (found.new.items ≡
        found.old.items ++ singles_among typed.now (map entry_view entries.now)) }
{
    for entry in entries {
        note_single(found, typed, entry)?;
    }
    Ok(())
}

/// Notes which records may have been found.
fn note_unread(unread: &mut Vec<TypedNumbers>, entries: &[RecordEntry]) -> Result<(), AllocError> {
    for entry in entries {
        add_number(unread, entry.number)?;
    }
    Ok(())
}

/// The number at which a search begins: of the numbers from the first of some on, those from the one that is typed on.
fn first_number(typed: u32, first: u32) -> u32
    ensures { (n : ℕ) → first ≤ n → nat_le result n ≡ nat_le typed n }
{
    typed.max(first)
}

impl<'s, 'a> Search<'s, 'a> {
    /// A search in an archive for what is typed. `BadData` where the class is none of the plan.
    pub fn new<R: Repository<Fault = StoreFault>>(
        rt: &HostRuntime,
        archive: &R,
        typed: &'s Choice<'a>,
        questions: &'s Questions,
    ) -> Result<Search<'s, 'a>, Failure>
        ensures bounded { IfOk result (λ s. IsBounded s) }
        ensures found { IfOk result (λ s. (a : Archive) → IsArchive a
            → found_ahead s a ≡ found_in typed.now questions.now a) }
        ensures typed { IfOk result (λ s. s.typed.now ≡ typed.now) }
        ensures none { IfOk result (λ s. s.found.items ≡ []) }
    {
        let alloc = rt.alloc();
        judge_class(alloc, typed.class, archive.plan())?;
        let bounds = bounds_of(typed.numbers.as_slice());
        Ok(Search {
            typed,
            questions,
            choice: choice_of(alloc, typed)?,
            from: Some(first_number(typed.from, bounds.first)),
            last: bounds.last,
            found: Vec::new(alloc),
            unread: Vec::new(alloc),
        })
    }

    /// The next step of the search, which looks at so many records: those of them that are found, which may be none; `None` at
    /// the end. A failure is that of the store, or no memory.
    pub(crate) fn step<R: Repository<Fault = StoreFault>>(
        &mut self,
        rt: &HostRuntime,
        archive: &mut R,
        beside: Beside,
        most: usize,
    ) -> Result<Option<FoundPage>, Failure>
        requires { 1 ≤ most }
        ensures reads { OnlyReads R.clean R.stands archive.old archive.new }

        // The calls answer the pages of a walk: what meets the choice and the questions, and no
        // other record.
        ensures page { IfOk result (λ o. IsReadOf R.clean R.stands archive.old archive.new
            (λ a. IsSearchTurn (question_of self.old.questions.now)
            (choice_view self.old.choice) a self.old.last self.old.from
            (page_view (option_map (λ p. p.found) o)) self.new.from)) }
        ensures same { OnOk result (IsSameSearch self.old self.new) }
        ensures noted { IfOk result (λ o. self.new.found.items ≡ self.old.found.items
            ++ singles_among self.old.typed.now.numbers.items
            (records_of (page_view (option_map (λ p. p.found) o)))) }
        ensures headers { IfOk result (λ o. IsReadOf R.clean R.stands archive.old archive.new
            (λ a. IfSome o (λ p. map texts_view p.headers.items ≡
            (if asks_nothing self.old.questions.now then []
            else texts_found a beside (map entry_view p.found.items))))) }
    {
        let Some(from) = self.from else {
            return Ok(None);
        };
        if from > self.last {
            return Ok(None);
        }
        let page = search_page(
            rt.alloc(),
            archive,
            &self.choice,
            self.questions,
            beside,
            from,
            most,
        )
        .map_err(|fault| walk_failure(rt.alloc(), fault))?;
        note_found(
            &mut self.found,
            self.typed.numbers.as_slice(),
            page.found.as_slice(),
        )?;
        note_unread(&mut self.unread, page.unread.as_slice())?;
        self.from = page.next;
        Ok(Some(page))
    }

    /// Tells which records may have been found, had all their fields been read.
    fn tell_unread(&self, rt: &HostRuntime, volume: Option<u32>) -> Result<(), AllocError> {
        if !self.unread.is_empty() {
            let line = unread_line(rt.alloc(), volume, self.unread.as_slice())?;
            tell(rt, &line);
        }
        Ok(())
    }

    /// Ends a search that has come to its end: tells which records may have been found, had all their fields been read, and
    /// which numbers that are typed by themselves were not found. These are a failure, which is reported then.
    pub fn end<R: Repository<Fault = StoreFault>>(
        self,
        rt: &HostRuntime,
        archive: &mut R,
    ) -> Result<(), Failure>
        ensures reads { OnlyReads R.clean R.stands archive.old archive.new }
        ensures found { IsEndOf (missing_of self.entry) result }
    {
        self.end_in(rt, archive, None)
    }

    /// The same in a volume, which is named where something is told of its records.
    pub fn end_in<R: Repository<Fault = StoreFault>>(
        self,
        rt: &HostRuntime,
        archive: &mut R,
        volume: Option<u32>,
    ) -> Result<(), Failure>
        ensures reads { OnlyReads R.clean R.stands archive.old archive.new }
        ensures found { IsEndOf (missing_of self.entry) result }
    {
        self.tell_unread(rt, volume)?;
        let missing = not_found(
            rt.alloc(),
            self.typed.numbers.as_slice(),
            self.found.as_slice(),
        )?;
        for number in &missing {
            tell(rt, &miss_line(rt.alloc(), archive, volume, *number)?);
        }
        if missing.is_empty() {
            Ok(())
        } else {
            Err(Failure::Reported(Status::BadData))
        }
    }
}
