//! Disposal: records are destroyed that a list of the archive approves, each of these and no other.

ghost use Rattle.std.specs.Prelude.{◌≡◌, ℕ, ℤ, List, length, take, filter, map, true, IfOk, IfErr, OnOk, OnErr};
ghost use Rattle.std.specs.List.{AllByRecursion};
ghost use Rattle.std.specs.BTreeSet.{contains};
ghost use Rattle.std.specs.List.Sorted.{IsPermutation};
ghost use Rattle.std.specs.Ordering.{nat_cmp};
ghost use Rattle.jiff.specs.Words.{epoch_day};
ghost use Rattle.class_plan.specs.Plans.{schedule_at};
ghost use Rattle.record_archive.specs.Archive as archive;
ghost use Rattle.record_archive.specs.Archive.{Archive};
ghost use Rattle.record_archive.specs.Lines.{line_view};
ghost use Rattle.record_choice.specs.declared.disposal.DisposeFault.TheVariants.{NotApproved};
ghost use Rattle.record_choice.specs.declared.destruction.End.TheVariants.{Done};
ghost use Rattle.record_choice.specs.Reasons.{MayGo, IsReason};
ghost use Rattle.record_choice.specs.Reads.{OnlyReads};
ghost use Rattle.record_choice.specs.Disposals.{Certificate, Destroys, DestroysThese, HandsOver, asked_list, disposable_list, is_one_of};

use crate::destruction::{End, destroy_one};
use crate::reasons::{Reason, destroys, why_not};
use crate::registrar::Registrar;
use crate::repository::Repository;
use class_plan::{Date, Plan};
use record_archive::Line;
use std::alloc::{AllocError, Global};
use std::collections::BTreeSet;

/// Why nothing is destroyed.
#[derive(Drop)]
pub enum DisposeFault<F> {
    /// The repository could not be read.
    Repository(F),
    /// No memory.
    NoMemory,
    /// The record of this number may not be destroyed by the day.
    NotApproved(u32, Reason),
}

impl<F> From<AllocError> for DisposeFault<F> {
    ghost use Rattle.record_choice.specs.declared.disposal.DisposeFault.TheVariants.{NoMemory};

    ghost from_gives = { λ _ f. f ≡ NoMemory };

    fn from(_: AllocError) -> DisposeFault<F> {
        DisposeFault::NoMemory
    }
}

/// The lines whose records a plan destroys.
fn destroyed_only(alloc: Global, plan: &Plan, lines: Vec<Line>) -> Result<Vec<Line>, AllocError>
    ensures { IfOk result (λ v. map line_view v.items ≡
        filter (λ (l : archive.Line). archive.destroys (schedule_at plan.now l.path))
        (map line_view lines.items)) }
{
    let mut kept = Vec::new(alloc);
    for line in lines {
        if destroys(plan.schedule_of(line.path.as_slice())) {
            kept.push(line)?;
        }
    }
    Ok(kept)
}

/// The due list of a day without the records that the plan does not destroy.
fn disposable<R: Repository>(
    alloc: Global,
    records: &mut R,
    day: Date,
) -> Result<Vec<Line>, DisposeFault<R::Fault>>
    ensures reads { OnlyReads R.clean R.stands records.old records.new }
    ensures told { IfOk result (λ v. R.clean records.new → (a : Archive) → R.stands records.old a
        → map line_view v.items ≡ disposable_list a (epoch_day day)) }
    ensures reason { IfErr result (λ f. (n : ℕ) (why : Reason) → f ≡ NotApproved n why → ⊥) }
{
    let due = match records.due(day) {
        Ok(due) => due,
        Err(fault) => return Err(DisposeFault::Repository(fault)),
    };
    let lines = destroyed_only(alloc, records.plan(), due)?;
    Ok(lines)
}

/// The set of some numbers.
fn set_of(alloc: Global, numbers: &[u32]) -> Result<BTreeSet<u32>, AllocError>
    ensures { IfOk result (λ s. (n : ℕ) → contains nat_cmp s n ≡ is_one_of numbers.now n) }
{
    let mut set = BTreeSet::new(alloc);
    for number in numbers {
        let _new = set.insert(*number)?;
    }
    Ok(set)
}

/// The lines of the records of some numbers.
fn lines_of(alloc: Global, lines: Vec<Line>, numbers: &[u32]) -> Result<Vec<Line>, AllocError>
    ensures { IfOk result (λ v. map line_view v.items ≡
        filter (λ (l : archive.Line). is_one_of numbers.now l.number) (map line_view lines.items)) }
{
    let set = set_of(alloc, numbers)?;
    let mut kept = Vec::new(alloc);
    for line in lines {
        if set.contains(&line.number) {
            kept.push(line)?;
        }
    }
    Ok(kept)
}

/// Finds that each of some records may be destroyed by a day.
fn judge_each<R: Repository>(
    records: &mut R,
    numbers: &[u32],
    day: Date,
) -> Result<(), DisposeFault<R::Fault>>
    ensures reads { OnlyReads R.clean R.stands records.old records.new }
    ensures all { OnOk result (R.clean records.new → (a : Archive) → R.stands records.old a
        → AllByRecursion (MayGo a (epoch_day day)) numbers.now) }
    ensures reason { IfErr result (λ f. (n : ℕ) (why : Reason) → f ≡ NotApproved n why
        → R.clean records.new → (a : Archive) → R.stands records.old a
        → (is_one_of numbers.now n ≡ true) × IsReason a (epoch_day day) n why) }
{
    for number in numbers {
        match why_not(records, *number, day) {
            Ok(None) => {}
            Ok(Some(reason)) => return Err(DisposeFault::NotApproved(*number, reason)),
            Err(fault) => return Err(DisposeFault::Repository(fault)),
        }
    }
    Ok(())
}

/// The lines of the records that a disposal by a day is about: of those that the plan destroys and no hold keeps, those
/// that are asked for; all of them, where none is asked for. They are in the order of the due list.
///
/// `NotApproved` with the first that is asked for and may not be destroyed by the day.
pub fn asked_lines<R: Repository>(
    alloc: Global,
    records: &mut R,
    asked: &[u32],
    day: Date,
) -> Result<Vec<Line>, DisposeFault<R::Fault>>
    ensures reads { OnlyReads R.clean R.stands records.old records.new }
    ensures lines { IfOk result (λ v. R.clean records.new → (a : Archive) → R.stands records.old a
        → map line_view v.items ≡ asked_list a (epoch_day day) asked.now) }
    ensures all { OnOk result (R.clean records.new → (a : Archive) → R.stands records.old a
        → AllByRecursion (MayGo a (epoch_day day)) asked.now) }
    ensures reason { IfErr result (λ f. (n : ℕ) (why : Reason) → f ≡ NotApproved n why
        → R.clean records.new → (a : Archive) → R.stands records.old a
        → (is_one_of asked.now n ≡ true) × IsReason a (epoch_day day) n why) }
{
    judge_each(records, asked, day)?;
    let lines = disposable(alloc, records, day)?;
    if asked.is_empty() {
        return Ok(lines);
    }
    let lines = lines_of(alloc, lines, asked)?;
    Ok(lines)
}

/// The numbers of records, upwards.
fn numbers_of(alloc: Global, lines: &[Line]) -> Result<Vec<u32>, AllocError>
    ensures { IfOk result (λ v. IsPermutation
        (map (λ (l : archive.Line). l.number) (map line_view lines.now)) v.items) }
{
    let mut numbers = Vec::with_capacity(alloc, lines.len())?;
    for line in lines {
        numbers.push(line.number)?;
    }
    numbers.sort()?;
    Ok(numbers)
}

/// What a disposal came to.
#[derive(Drop)]
pub struct Disposed<F, K> {
    /// How many records were destroyed, from the first on.
    pub count: usize,
    pub end: End<F, K>,
}

/// Destroys records one after another, and hands over the certificate of each before the next.
fn destroy_each<R: Repository, K: Registrar>(
    records: &mut R,
    registrar: &mut K,
    numbers: &[u32],
    day: Date,
) -> Disposed<R::Fault, K::Fault>
    requires { K.is_open registrar.old }
    ensures falls { R.clean records.new → R.clean records.old }
    ensures these { (cs : List Certificate) × HandsOver K.takes registrar.old cs registrar.new
        × (R.clean records.new → (a : Archive) → R.stands records.old a
        → Destroys (R.stands records.new) (epoch_day day) (take result.count numbers.now) cs a) }
    ensures all { result.end ≡ Done → result.count ≡ length numbers.now }
{
    let mut count = 0;
    let mut known = None;
    for number in numbers {
        let step = match destroy_one(records, registrar, *number, day, known) {
            Ok(step) => step,
            Err(end) => return Disposed { count, end },
        };
        count += 1;
        known = step.known;
        match step.fault {
            None => {}
            Some(fault) => {
                return Disposed {
                    count,
                    end: End::Registrar(fault),
                };
            }
        }
    }
    Disposed {
        count,
        end: End::Done,
    }
}

/// Destroys the records of a disposal by a day, upwards by number: of those that the plan destroys and no hold keeps, those
/// that are asked for; all of them, where none is asked for. Each of these is destroyed and no other, up to the first
/// that fails, and for each one certificate is handed over.
///
/// `NotApproved` with the first that is asked for and may not be destroyed by the day. Then, and where the list is not
/// had, none is destroyed.
pub fn dispose<R: Repository, K: Registrar>(
    alloc: Global,
    records: &mut R,
    registrar: &mut K,
    asked: &[u32],
    day: Date,
) -> Result<Disposed<R::Fault, K::Fault>, DisposeFault<R::Fault>>
    requires { K.is_open registrar.old }
    ensures falls { R.clean records.new → R.clean records.old }
    // each that is asked for may be destroyed
    ensures all_may_go { OnOk result (R.clean records.new → (a : Archive) → R.stands records.old a
        → AllByRecursion (MayGo a (epoch_day day)) asked.now) }
    // these are destroyed and no other, each with its certificate
    ensures these { IfOk result (λ d. (ns : List ℕ) × (cs : List Certificate)
        × HandsOver K.takes registrar.old cs registrar.new
        × (R.clean records.new → (a : Archive) → R.stands records.old a
        → IsPermutation
        (map (λ (l : archive.Line). l.number) (asked_list a (epoch_day day) asked.now)) ns
        × Destroys (R.stands records.new) (epoch_day day) (take d.count ns) cs a)
        × (d.end ≡ Done → d.count ≡ length ns)) }
    // or none is
    ensures reason { IfErr result (λ f. (n : ℕ) (why : Reason) → f ≡ NotApproved n why
        → R.clean records.new → (a : Archive) → R.stands records.old a
        → (is_one_of asked.now n ≡ true) × IsReason a (epoch_day day) n why) }
    ensures none { OnErr result ((registrar.new ≡ registrar.old)
        × ((a : Archive) → R.stands records.old a → R.stands records.new a)) }
{
    let lines = asked_lines(alloc, records, asked, day)?;
    let numbers = numbers_of(alloc, lines.as_slice())?;
    Ok(destroy_each(records, registrar, numbers.as_slice(), day))
}

/// The law of `Destroys` of the definitions: what is destroyed one after another is each of these and no other, and all
/// else of each record stays. The function does nothing.
pub fn these_and_no_other()
    ensures { (day : ℤ) (ns : List ℕ) (cs : List Certificate) (a : Archive)
        → DestroysThese day ns cs a }
{}
