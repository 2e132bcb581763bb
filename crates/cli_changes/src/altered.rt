//! Records that are due, and whose messages are not the ones that were captured.

ghost use Rattle.std.specs.Prelude.{◌≡◌, ◌++◌, ◌==◌, false, length, IfOk, IfErr, OnOk};
ghost use Rattle.cli_changes.specs.DueLines.{altered_note, altered_words as altered_words_of, due_line as due_line_of};
ghost use Rattle.cli_changes.specs.Runs.{IsListEnd, IsRefusal, altered as altered_of, is_refused as is_disposal_refused};

use crate::runs::Run;
use cli_console::{Failure, Status, tell};
use cli_texts::{captured_words, put_number};
use record_archive::Line;
use std::alloc::{AllocError, Global};
use tool_texts::Shown;

/// What is done where the message of a record that may be destroyed is not the one that was captured.
#[derive(Clone, Copy)]
pub enum Damage {
    /// No record is destroyed.
    Refused,
    /// The record is destroyed with the others.
    Destroyed,
}

/// The numbers of the records of runs whose messages are not the ones that were captured, upwards.
pub fn altered_in(alloc: Global, runs: &[Run]) -> Result<Vec<u32>, AllocError>
    ensures { IfOk result (λ v. v.items ≡ altered_of runs.now) }
{
    let mut altered = Vec::new(alloc);
    for run in runs {
        if run.is_altered() {
            altered.extend_from_slice(run.numbers())?;
        }
    }
    Ok(altered)
}

/// That the message of a record, of a volume in an archive of volumes, is not the one that was captured.
#[tactic(auto, unfolding(crate::specs::DueLines::altered_words))]
fn altered_words(alloc: Global, volume: Option<u32>, number: u32) -> Result<Shown, AllocError>
    ensures { IfOk result (λ words. words ≡ altered_words_of volume number) }
{
    let mut words = Shown::new(alloc);
    words.words("record ")?;
    put_number(&mut words, volume, number)?;
    words.words(": its message is not the one that was captured")?;
    Ok(words)
}

/// Tells of each of these records that its message is not the one that was captured.
fn tell_altered(rt: &HostRuntime, volume: Option<u32>, altered: &[u32]) -> Result<(), AllocError> {
    for number in altered {
        tell(rt, &altered_words(rt.alloc(), volume, *number)?);
    }
    Ok(())
}

/// Adds that the message of a record is not the one that was captured, where that is so.
fn put_altered(text: &mut Shown, is_altered: bool) -> Result<(), AllocError>
    ensures { OnOk result (text.new ≡ text.old ++ altered_note is_altered) }
{
    if is_altered {
        return text.words("; its message is not the one that was captured");
    }
    Ok(())
}

/// The line of a record that is due, of a volume in an archive of volumes. It says where the message of the record is not the one that
/// was captured.
pub fn due_line(
    alloc: Global,
    volume: Option<u32>,
    line: &Line,
    is_altered: bool,
) -> Result<Shown, AllocError>
    ensures { IfOk result (λ text. text ≡ due_line_of volume line.now is_altered) }
{
    let mut text = captured_words(alloc, volume, line)?;
    put_altered(&mut text, is_altered)?;
    text.end_line()?;
    Ok(text)
}

/// Ends a list of what is due in which these records were: `BadData` where there is one, and each is told.
pub fn end_list(rt: &HostRuntime, volume: Option<u32>, altered: &[u32]) -> Result<(), Failure>
    ensures { IsListEnd (length altered.now == 0) result }
{
    if altered.is_empty() {
        return Ok(());
    }
    tell_altered(rt, volume, altered)?;
    Err(Failure::Reported(Status::BadData))
}

/// Whether no record is destroyed, of which these have messages that are not the ones that were captured.
fn is_refused(altered: &[u32], damage: Damage) -> bool
    ensures { result ≡ is_disposal_refused altered.now damage }
{
    match damage {
        Damage::Refused => !altered.is_empty(),
        Damage::Destroyed => false,
    }
}

/// Tells of each of these records that its message is not the one that was captured, before any record is destroyed. `BadData`
/// where there is one, unless damage is destroyed too.
#[tactic(auto, using(crate::proofs::RunLaws::without_memory))]
pub fn judge_altered(
    rt: &HostRuntime,
    volume: Option<u32>,
    altered: &[u32],
    damage: Damage,
) -> Result<(), Failure>
    ensures goes_on { IfOk result (λ _. is_disposal_refused altered.now damage ≡ false) }
    ensures refused { IfErr result (IsRefusal (is_disposal_refused altered.now damage)) }
{
    tell_altered(rt, volume, altered)?;
    if is_refused(altered, damage) {
        return Err(Failure::told(
            rt.alloc(),
            Status::BadData,
            "nothing is destroyed; a message that was altered may be evidence, and copy --damaged keeps it; with --damaged such records are destroyed too",
        ));
    }
    Ok(())
}
