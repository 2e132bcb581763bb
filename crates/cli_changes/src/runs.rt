//! Records that are to be destroyed, in runs of those of whose destruction the same is noted.

ghost use Rattle.std.specs.Prelude.{◌≡◌, ◌++◌, ◌∷◌, [], Some, map, IfOk, OnOk};
ghost use Rattle.std.specs.List.{AllByRecursion};
ghost use Rattle.std.specs.List.Sorted.{IsPermutation, IsSorted};
ghost use Rattle.std.specs.Ordering.{nat_cmp};
ghost use Rattle.cli_choice.specs.Reads.{IsReadOf};
ghost use Rattle.record_archive.specs.Archive.{Archive, Record, record_at};
ghost use Rattle.record_choice.specs.Entries.{OfRecord};
ghost use Rattle.record_choice.specs.Reads.{OnlyReads};
ghost use Rattle.cli_history.specs.Seals.{notes_for};
ghost use Rattle.cli_changes.specs.Runs.{AreFilled, IsFidelityOf, IsJudged, IsNoted, is_altered_run, noted, records_of};

use cli_history::{Fidelity, Seals, is_altered, notes_of};
use record_archive::Line;
use record_choice::Repository;
use record_store::StoreFault;
use std::alloc::{AllocError, Global};

/// Records one after the other, upwards by number, of whose destruction the same is noted. There is one at least.
#[derive(Drop)]
pub struct Run {
    /// What the message of the first record is. The same is noted of the others.
    fidelity: Fidelity,
    numbers: Vec<u32>,
}

impl Run {
    /// What is noted of each destruction.
    pub fn notes(&self) -> &'static [u8]
        ensures { result.now ≡ notes_for self.now.fidelity }
    {
        notes_of(self.fidelity)
    }

    /// The numbers of the records.
    pub fn numbers(&self) -> &[u32]
        ensures { result.now ≡ self.now.numbers.items }
    {
        self.numbers.as_slice()
    }

    /// Whether the messages of its records are not the ones that were captured.
    pub fn is_altered(&self) -> bool
        ensures { result ≡ is_altered_run self.now }
    {
        is_altered(self.notes())
    }
}

/// The numbers of the records of lines, upwards.
fn numbers_of(alloc: Global, lines: &[Line]) -> Result<Vec<u32>, AllocError>
    ensures these { IfOk result (λ v. IsPermutation
        (map (λ (l : Line). l.number) lines.now) v.items) }
    ensures upwards { IfOk result (λ v. IsSorted nat_cmp v.items) }
{
    let mut numbers = Vec::with_capacity(alloc, lines.len())?;
    for line in lines {
        numbers.push(line.number)?;
    }
    numbers.sort()?;
    Ok(numbers)
}

/// A message that was judged, by its number.
#[derive(Clone, Copy)]
struct Judged {
    message: u32,
    fidelity: Fidelity,
}

/// What a message is, which the record of a number has, beside the one that was captured. One of which no seal is known is not
/// read.
fn fidelity_of<R: Repository<Fault = StoreFault>>(
    alloc: Global,
    archive: &mut R,
    seals: &Seals,
    message: u32,
    number: u32,
) -> Result<Fidelity, StoreFault>
    ensures reads { OnlyReads R.clean R.stands archive.old archive.new }
    ensures told { IfOk result (λ f. R.clean archive.new → (a : Archive) (r : Record)
        → R.stands archive.old a → record_at a number ≡ Some r → r.message ≡ message
        → IsFidelityOf seals.now a message f) }
{
    if seals.length_and_sum(message).is_none() {
        return Ok(Fidelity::Unsealed);
    }
    let body = archive.message(number)?;
    let fidelity = seals.is_captured(alloc, message, body.as_slice())?;
    Ok(fidelity)
}

/// The message of a record, and what it is. The one that was judged last is not read again: a message in many classes has many
/// records, one behind the other.
fn judged_of<R: Repository<Fault = StoreFault>>(
    alloc: Global,
    archive: &mut R,
    seals: &Seals,
    last: Option<Judged>,
    number: u32,
) -> Result<Judged, StoreFault>
    ensures reads { OnlyReads R.clean R.stands archive.old archive.new }
    ensures told { IfOk result (λ j. IsReadOf R.clean R.stands archive.old archive.new
        (λ a. IsJudged seals.now a last → OfRecord a number (λ r. (r.message ≡ j.message)
        × IsFidelityOf seals.now a j.message j.fidelity))) }
{
    let entry = archive.entry(number)?;
    match last {
        Some(judged) if judged.message == entry.message => Ok(judged),
        _ => {
            let message = entry.message;
            let fidelity = fidelity_of(alloc, archive, seals, message, number)?;
            Ok(Judged { message, fidelity })
        }
    }
}

/// Adds a record to the last run where the same is noted of it; else it begins one.
fn add_to_runs(
    alloc: Global,
    runs: &mut Vec<Run>,
    fidelity: Fidelity,
    number: u32,
) -> Result<(), AllocError>
    ensures added { OnOk result (noted runs.new.items
        ≡ noted runs.old.items ++ (number, notes_for fidelity) ∷ []) }
    ensures filled { OnOk result (AreFilled runs.old.items → AreFilled runs.new.items) }
{
    if let Some(run) = runs.last_mut() {
        if run.notes() == notes_of(fidelity) {
            return Ok(run.numbers.push(number)?);
        }
    }
    let numbers = vec![in alloc; number]?;
    Ok(runs.push(Run { fidelity, numbers })?)
}

/// The runs of the records of lines, upwards by number: each record is in one of them, once, with what is noted of it. The
/// failure is that of the store.
pub fn runs_of<R: Repository<Fault = StoreFault>>(
    alloc: Global,
    archive: &mut R,
    seals: &Seals,
    lines: &[Line],
) -> Result<Vec<Run>, StoreFault>
    ensures reads { OnlyReads R.clean R.stands archive.old archive.new }
    ensures these { IfOk result (λ v. IsPermutation
        (map (λ (l : Line). l.number) lines.now) (records_of v.items)) }
    ensures upwards { IfOk result (λ v. IsSorted nat_cmp (records_of v.items)) }
    ensures filled { IfOk result (λ v. AreFilled v.items) }
    ensures noted { IfOk result (λ v. IsReadOf R.clean R.stands archive.old archive.new
        (λ a. AllByRecursion (IsNoted seals.now a) (noted v.items))) }
{
    let numbers = numbers_of(alloc, lines)?;
    let mut runs = Vec::new(alloc);
    let mut last = None;
    for number in numbers.as_slice() {
        let judged = judged_of(alloc, archive, seals, last, *number)?;
        add_to_runs(alloc, &mut runs, judged.fidelity, *number)?;
        last = Some(judged);
    }
    Ok(runs)
}
