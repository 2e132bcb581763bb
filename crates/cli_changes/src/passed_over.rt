//! What a disposal passes over: those records in the ranges that are typed which may not be destroyed.

ghost use Rattle.std.specs.Prelude.{◌≡◌, ◌++◌, ℕ, false, Some, flat_map, map, IfOk, OnOk, MatchOption};
ghost use Rattle.jiff.specs.Words.{epoch_day};
ghost use Rattle.record_archive.specs.Archive.{Archive, Record, record_at};
ghost use Rattle.record_choice.specs.Choices.{anyone};
ghost use Rattle.record_choice.specs.Entries.{entry_of, entry_view, name_list};
ghost use Rattle.record_choice.specs.Reads.{OnlyReads};
ghost use Rattle.record_choice.specs.Reasons.{MayGo};
ghost use Rattle.record_choice.specs.Views.{shows_hold, span_view};
ghost use Rattle.cli_changes.specs.declared.passed_over.Cause.TheVariants.{Held, NotForDestruction, NotDue};
ghost use Rattle.cli_changes.specs.PassedOver.{IsCause, IsWith, is_for, numbers_after, passed_words as passed_words_of, range_span, range_spans};

use choice_words::add_number;
use class_plan::{Date, Plan};
use cli_console::{Failure, Walk, is_by, put_typed, tell};
use command_lines::archives::TypedNumbers;
use record_choice::{Choice, Repository, Span, destroys};
use record_store::{RecordEntry, StoreFault};
use std::alloc::{AllocError, Global};
use tool_texts::Shown;

/// Why a record is passed over.
#[derive(Clone, Copy)]
enum Cause {
    /// A hold keeps it.
    Held,
    /// The schedule of its class does not destroy.
    NotForDestruction,
    /// It is due later, or never.
    NotDue,
}

/// The numbers of records that are passed over, by the cause.
struct PassedOver {
    held: Vec<TypedNumbers>,
    not_for_destruction: Vec<TypedNumbers>,
    not_due: Vec<TypedNumbers>,
}

impl Drop for PassedOver {
    fn drop(self) {
        let PassedOver {
            held: _,
            not_for_destruction: _,
            not_due: _,
        } = self;
    }
}

/// Whether there is a hold among these.
fn has_any(holds: &[Vec<u8>]) -> bool
    ensures { result ≡ shows_hold (name_list holds.now) anyone }
{
    holds.len() > 0
}

/// Why a live record is passed over by a disposal of what is due by a day; none where it may be destroyed.
fn cause_of(plan: &Plan, entry: &RecordEntry, day: Date) -> Option<Cause>
    ensures { (a : Archive) (n : ℕ) (r : Record) → plan.now ≡ a.plan → record_at a n ≡ Some r
        → r.number ≡ n → r.destroyed ≡ false → entry_view entry.now ≡ entry_of a r
        → MatchOption result (MayGo a (epoch_day day) n) (IsCause a (epoch_day day) n) }
{
    if has_any(entry.holds.as_slice()) {
        return Some(Cause::Held);
    }
    let schedule = plan.schedule_of(entry.path.as_slice());
    if !destroys(schedule) {
        return Some(Cause::NotForDestruction);
    }
    if !is_by(entry.due, day) {
        return Some(Cause::NotDue);
    }
    None
}

impl PassedOver {
    /// No records.
    fn none(alloc: Global) -> PassedOver {
        PassedOver {
            held: Vec::new(alloc),
            not_for_destruction: Vec::new(alloc),
            not_due: Vec::new(alloc),
        }
    }

    /// Adds a record, if there is a cause.
    fn add(&mut self, number: u32, cause: Option<Cause>) -> Result<(), AllocError>
        ensures held { OnOk result
            (IsWith (is_for Held cause) number self.old.held.items self.new.held.items) }
        ensures not_for_destruction { OnOk result (IsWith (is_for NotForDestruction cause) number
            self.old.not_for_destruction.items self.new.not_for_destruction.items) }
        ensures not_due { OnOk result
            (IsWith (is_for NotDue cause) number self.old.not_due.items self.new.not_due.items) }
    {
        match cause {
            Some(Cause::Held) => add_number(&mut self.held, number),
            Some(Cause::NotForDestruction) => add_number(&mut self.not_for_destruction, number),
            Some(Cause::NotDue) => add_number(&mut self.not_due, number),
            None => Ok(()),
        }
    }
}

/// Adds the range that is typed; nothing where that is one number.
fn add_range(spans: &mut Vec<Span>, numbers: TypedNumbers) -> Result<(), AllocError>
    ensures { OnOk result (map span_view spans.new.items
        ≡ map span_view spans.old.items ++ range_span numbers) }
{
    match numbers {
        TypedNumbers::One(_) => Ok(()),
        TypedNumbers::Range { first, last } => Ok(spans.push(Span { first, last })?),
    }
}

/// The ranges that are typed.
fn ranges_of(alloc: Global, typed: &[TypedNumbers]) -> Result<Vec<Span>, AllocError>
    ensures { IfOk result (λ v. map span_view v.items ≡ range_spans typed.now) }
{
    let mut spans = Vec::new(alloc);
    for numbers in typed {
        add_range(&mut spans, *numbers)?;
    }
    Ok(spans)
}

/// Adds the records of a page that are passed over.
fn add_page(
    passed: &mut PassedOver,
    plan: &Plan,
    page: &[RecordEntry],
    day: Date,
) -> Result<(), AllocError> {
    for entry in page {
        passed.add(entry.number, cause_of(plan, entry, day))?;
    }
    Ok(())
}

/// Those live records of a choice that are passed over.
fn passed_of<R: Repository<Fault = StoreFault>>(
    rt: &HostRuntime,
    archive: &mut R,
    choice: &Choice,
    day: Date,
) -> Result<PassedOver, Failure>
    ensures { OnlyReads R.clean R.stands archive.old archive.new }
{
    let mut passed = PassedOver::none(rt.alloc());
    let mut walk = Walk::from(choice, 1);
    for _ in 0..u64::MAX {
        let Some(page) = walk.next_page(rt, archive)? else {
            break;
        };
        add_page(&mut passed, archive.plan(), page.as_slice(), day)?;
    }
    Ok(passed)
}

/// Those live records in ranges that are passed over.
fn passed_in<R: Repository<Fault = StoreFault>>(
    rt: &HostRuntime,
    archive: &mut R,
    ranges: Vec<Span>,
    day: Date,
) -> Result<PassedOver, Failure>
    ensures { OnlyReads R.clean R.stands archive.old archive.new }
{
    let mut choice = Choice::live();
    choice.numbers = Some(ranges);
    passed_of(rt, archive, &choice, day)
}

/// Adds numbers of records as they are typed, of a volume if they have one, after a blank.
fn put_after(text: &mut Shown, volume: Option<u32>, numbers: TypedNumbers) -> Result<(), AllocError>
    ensures { OnOk result (text.new ≡ text.old ++ numbers_after volume numbers) }
{
    text.words(" ")?;
    put_typed(text, volume, numbers)
}

/// Adds numbers of records as they are typed, each after a blank.
fn put_all(
    text: &mut Shown,
    volume: Option<u32>,
    numbers: &[TypedNumbers],
) -> Result<(), AllocError>
    ensures { OnOk result (text.new ≡ text.old ++ flat_map (numbers_after volume) numbers.now) }
{
    for typed in numbers {
        put_after(text, volume, *typed)?;
    }
    Ok(())
}

/// That records are passed over, and why.
#[tactic(auto, unfolding(crate::specs::PassedOver::passed_words))]
fn passed_words(
    alloc: Global,
    volume: Option<u32>,
    why: &'static str,
    numbers: &[TypedNumbers],
) -> Result<Shown, AllocError>
    ensures { IfOk result (λ text. text ≡ passed_words_of volume why.now numbers.now) }
{
    let mut text = Shown::new(alloc);
    text.words("passed over, ")?;
    text.words(why)?;
    text.words(":")?;
    put_all(&mut text, volume, numbers)?;
    Ok(text)
}

/// Tells that records are passed over, and why, if there are any.
fn tell_numbers(
    rt: &HostRuntime,
    volume: Option<u32>,
    why: &'static str,
    numbers: &[TypedNumbers],
) -> Result<(), AllocError> {
    if !numbers.is_empty() {
        tell(rt, &passed_words(rt.alloc(), volume, why, numbers)?);
    }
    Ok(())
}

/// Tells which records are passed over, and why.
fn tell_each(rt: &HostRuntime, volume: Option<u32>, passed: &PassedOver) -> Result<(), AllocError> {
    tell_numbers(rt, volume, "held", passed.held.as_slice())?;
    let why = "not for destruction by the schedule of the class";
    tell_numbers(rt, volume, why, passed.not_for_destruction.as_slice())?;
    tell_numbers(rt, volume, "not due", passed.not_due.as_slice())
}

/// Tells which live records in the ranges that are typed, of a volume in an archive of volumes, may not be destroyed by a day, and
/// why. A failure is that of the store, or no memory.
pub(crate) fn tell_passed_over<R: Repository<Fault = StoreFault>>(
    rt: &HostRuntime,
    archive: &mut R,
    volume: Option<u32>,
    typed: &[TypedNumbers],
    day: Date,
) -> Result<(), Failure>
    ensures { OnlyReads R.clean R.stands archive.old archive.new }
{
    let ranges = ranges_of(rt.alloc(), typed)?;
    if ranges.is_empty() {
        return Ok(());
    }
    let passed = passed_in(rt, archive, ranges, day)?;
    Ok(tell_each(rt, volume, &passed)?)
}
