//! Numbers of records that are typed with a volume, or without: which of the two is right, the archive says.

ghost use Rattle.std.specs.Prelude.{◌≡◌, ◌≤◌, [], ℕ, IfErr, IfOk, None, OnOk, Some, false};
ghost use Rattle.std.specs.List.{find};
ghost use Rattle.choice_words.specs.Readings.{reads_as_any_numbers};
ghost use Rattle.choice_words.specs.Typed.{first_above, first_alone, first_of_volumes, first_or, is_above};
ghost use Rattle.cli_console.specs.Failures.{IsToldAs};
ghost use Rattle.cli_console.specs.declared.failure.Status.TheVariants.{BadData, Usage};
ghost use Rattle.cli_tasks.specs.Numbers.{IsRefusedIn};

use choice_words::{TypedChoice, VolumeNumbers, above_in, reads_as_any_numbers};
use cli_console::{Failure, Status, put_typed};
use command_lines::archives::{
    Choice, Disposal, HistoryAsked, Numbers, TypedDisposal, TypedHistory, TypedNumber, TypedNumbers,
};
use std::alloc::{AllocError, Global};
use tool_texts::{Shown, put};

/// That a store in one file has no volumes, and what is typed instead.
fn no_volumes_words(alloc: Global, typed: VolumeNumbers) -> Result<Shown, AllocError> {
    let mut text = Shown::new(alloc);
    put_typed(&mut text, Some(typed.volume), typed.numbers)?;
    text.words(": this store is one file, in which a record has no volume")?;
    if !typed.numbers.is_all() {
        text.words("; type ")?;
        put_typed(&mut text, None, typed.numbers)?;
    }
    Ok(text)
}

/// That numbers have their volume in an archive of volumes.
fn no_number_words(alloc: Global, typed: TypedNumbers) -> Result<Shown, AllocError> {
    let mut text = Shown::new(alloc);
    put_typed(&mut text, None, typed)?;
    text.words(": in an archive of volumes a number has its volume, as 3/17")?;
    Ok(text)
}

/// That an archive has no volume of a number.
fn no_volume_words(alloc: Global, typed: VolumeNumbers, last: u32) -> Result<Shown, AllocError> {
    let mut text = Shown::new(alloc);
    put_typed(&mut text, Some(typed.volume), typed.numbers)?;
    put!(text; ": no volume " value(&typed.volume)
        " in the archive; its last one is " value(&last))?;
    Ok(text)
}

/// What is said of numbers of records where the name of a hold belongs.
pub const NAME_FORGOTTEN: &str =
    ": numbers of records, where the name of the hold belongs; type it before them, as audit 3/17";

/// What is said of numbers of records where the folder of an export belongs.
pub const FOLDER_FORGOTTEN: &str =
    ": numbers of records, where the folder of the export belongs; type it before them, as for-court 3/17; type ./ before a folder of this name";

/// What is said of numbers of records where the folder of a copy belongs.
pub const COPY_FORGOTTEN: &str =
    ": numbers of records, where the folder of the new archive belongs, which gets all records; type ./ before a folder of this name";

/// That numbers of records stand where something else belongs.
fn forgotten_words(alloc: Global, word: &str, said: &'static str) -> Result<Shown, AllocError> {
    let mut text = Shown::new(alloc);
    put!(text; named(word.as_bytes()) words(said))?;
    Ok(text)
}

/// Finds that a word does not read as numbers of records, with a volume or without, before which it was more likely forgotten.
/// `Usage`, with what is said of them, where it does.
pub fn judge_forgotten(rt: &HostRuntime, word: &str, said: &'static str) -> Result<(), Failure>
    ensures named { OnOk result (reads_as_any_numbers word.now ≡ false) }
    ensures refused { IfErr result (IsToldAs Usage) }
{
    if reads_as_any_numbers(word.as_bytes()) {
        let words = forgotten_words(rt.alloc(), word, said);
        return Err(Failure::shown(Status::Usage, words));
    }
    Ok(())
}

/// A choice that is typed, in a store that is one file. `Usage` where a number is typed with a volume.
pub fn choice_in_file<'a>(rt: &HostRuntime, typed: TypedChoice<'a>) -> Result<Choice<'a>, Failure>
    ensures alone { IfOk result (λ c. c ≡ typed.entry.alone) }
    ensures none { OnOk result (first_of_volumes typed.entry ≡ None) }
    ensures refused { IfErr result (IsToldAs Usage) }
{
    match typed.first_of_volumes() {
        Some(numbers) => Err(Failure::shown(Status::Usage, no_volumes_words(rt.alloc(), numbers))),
        None => {
            let TypedChoice { alone, .. } = typed;
            Ok(alone)
        }
    }
}

/// Finds that no number is typed with a volume, in a store that is one file. `Usage` where one is.
fn judge_alone(rt: &HostRuntime, of_volumes: &[VolumeNumbers]) -> Result<(), Failure>
    ensures none { OnOk result (of_volumes.now ≡ []) }
    ensures refused { IfErr result (IsToldAs Usage) }
{
    match of_volumes {
        [first, ..] => { Err(Failure::shown(Status::Usage, no_volumes_words(rt.alloc(), *first))) }
        [] => Ok(()),
    }
}

/// Numbers that are typed, in a store that is one file. `Usage` where one is typed with a volume.
pub fn numbers_in_file(rt: &HostRuntime, typed: Numbers) -> Result<Vec<TypedNumbers>, Failure>
    ensures alone { IfOk result (λ v. v ≡ typed.alone) }
    ensures none { OnOk result (typed.of_volumes.items ≡ []) }
    ensures refused { IfErr result (IsToldAs Usage) }
{
    judge_alone(rt, typed.of_volumes.as_slice())?;
    let Numbers { alone, .. } = typed;
    Ok(alone)
}

/// What is asked of the history of a store that is one file. `Usage` where a number is typed with a volume.
pub fn history_in_file<'a>(
    rt: &HostRuntime,
    typed: TypedHistory<'a>,
) -> Result<HistoryAsked<'a>, Failure>
    ensures alone { IfOk result (λ asked. asked ≡ typed.entry.alone) }
    ensures none { OnOk result (typed.entry.of_volumes.items ≡ []) }
    ensures refused { IfErr result (IsToldAs Usage) }
{
    judge_alone(rt, typed.of_volumes.as_slice())?;
    let TypedHistory { alone, .. } = typed;
    Ok(alone)
}

/// The number of a record of a store that is one file. `Usage` where it is typed with a volume.
pub fn number_in_file<'a>(
    rt: &HostRuntime,
    typed: TypedNumber<'a>,
) -> Result<TypedNumber<'a>, Failure>
    ensures same { IfOk result (λ t. t ≡ typed.entry) }
    ensures none { OnOk result (typed.entry.volume ≡ None) }
    ensures refused { IfErr result (IsToldAs Usage) }
{
    let Some(volume) = typed.volume else {
        return Ok(typed);
    };
    let numbers = VolumeNumbers {
        volume,
        numbers: TypedNumbers::One(typed.number),
    };
    Err(Failure::shown(Status::Usage, no_volumes_words(rt.alloc(), numbers)))
}

/// A disposal that is typed, in a store that is one file. `Usage` where a number is typed with a volume.
pub fn disposal_in_file(rt: &HostRuntime, typed: TypedDisposal) -> Result<Disposal, Failure>
    ensures alone { IfOk result (λ d. d ≡ typed.alone) }
    ensures none { OnOk result (typed.of_volumes.items ≡ []) }
    ensures refused { IfErr result (IsToldAs Usage) }
{
    judge_alone(rt, typed.of_volumes.as_slice())?;
    let TypedDisposal { alone, .. } = typed;
    Ok(alone)
}

/// The first of some numbers.
fn first_of(numbers: &[TypedNumbers]) -> Option<TypedNumbers>
    ensures { result ≡ first_or None numbers.now }
{
    match numbers {
        [first, ..] => Some(*first),
        [] => None,
    }
}

/// `Usage` for numbers without a volume, and else `BadData` for those of a volume after the last one.
fn judge_found(
    rt: &HostRuntime,
    last: u32,
    alone: Option<TypedNumbers>,
    above: Option<VolumeNumbers>,
) -> Result<(), Failure>
    ensures none { OnOk result (alone ≡ None) }
    ensures within { OnOk result (above ≡ None) }
    ensures refused { IfErr result (IsRefusedIn alone) }
{
    if let Some(numbers) = alone {
        return Err(Failure::shown(Status::Usage, no_number_words(rt.alloc(), numbers)));
    }
    match above {
        Some(numbers) => Err(Failure::shown(
            Status::BadData,
            no_volume_words(rt.alloc(), numbers, last),
        )),
        None => Ok(()),
    }
}

/// Finds that each number of a choice that is typed has its volume, which is none after the last one of an archive. `Usage` where
/// one has no volume, and `BadData` where there is no such volume.
pub fn judge_numbers(rt: &HostRuntime, last: u32, typed: &TypedChoice<'_>) -> Result<(), Failure>
    ensures none { OnOk result (first_alone typed.now ≡ None) }
    ensures within { OnOk result (first_above last typed.now ≡ None) }
    ensures refused { IfErr result (IsRefusedIn (first_alone typed.now)) }
{
    judge_found(rt, last, typed.first_alone(), typed.first_above(last))
}

/// The same of numbers, single ones and ranges, that are typed without conditions: those without a volume, and those with one.
pub fn judge_typed(
    rt: &HostRuntime,
    last: u32,
    alone: &[TypedNumbers],
    of_volumes: &[VolumeNumbers],
) -> Result<(), Failure>
    ensures none { OnOk result (alone.now ≡ []) }
    ensures within { OnOk result (find (is_above last) of_volumes.now ≡ None) }
    ensures refused { IfErr result (IsRefusedIn (first_or None alone.now)) }
{
    judge_found(rt, last, first_of(alone), above_in(of_volumes, last))
}

/// The same of the numbers of a disposal that is typed.
pub fn judge_disposed(rt: &HostRuntime, last: u32, typed: &TypedDisposal) -> Result<(), Failure>
    ensures none { OnOk result (typed.now.alone.numbers.items ≡ []) }
    ensures within { OnOk result (find (is_above last) typed.now.of_volumes.items ≡ None) }
    ensures refused { IfErr result (IsRefusedIn (first_or None typed.now.alone.numbers.items)) }
{
    judge_typed(
        rt,
        last,
        typed.alone.numbers.as_slice(),
        typed.of_volumes.as_slice(),
    )
}

/// The volume of a record, which is none after the last one of an archive. `Usage` where its number is typed without one, and
/// `BadData` where there is no such volume.
pub fn volume_of_record(rt: &HostRuntime, last: u32, typed: TypedNumber<'_>) -> Result<u32, Failure>
    ensures typed { IfOk result (λ v. typed.entry.volume ≡ Some v) }
    ensures within { IfOk result (λ v. v ≤ last) }
    ensures without { typed.entry.volume ≡ None → IfErr result (IsToldAs Usage) }
    ensures above { (v : ℕ) → typed.entry.volume ≡ Some v → IfErr result (IsToldAs BadData) }
{
    let numbers = TypedNumbers::One(typed.number);
    let Some(volume) = typed.volume else {
        return Err(Failure::shown(Status::Usage, no_number_words(rt.alloc(), numbers)));
    };
    if volume <= last {
        return Ok(volume);
    }
    let numbers = VolumeNumbers { volume, numbers };
    Err(Failure::shown(Status::BadData, no_volume_words(rt.alloc(), numbers, last)))
}
