//! `dispose`: what is due, and its destruction. Which records these are, `record_choice` decides.

ghost use Rattle.std.specs.Prelude.{◌≡◌, [], false, true, is_ok, IfOk, IfSome, OnOk};
ghost use Rattle.cli_console.specs.Sinks.{Writes};
ghost use Rattle.std.specs.List.{AllByRecursion};
ghost use Rattle.jiff.specs.Words.{epoch_day};
ghost use Rattle.cli_choice.specs.Reads.{IsReadOf};
ghost use Rattle.record_archive.specs.Archive.{Archive};
ghost use Rattle.record_choice.specs.Disposals.{asked_list};
ghost use Rattle.record_choice.specs.Reads.{OnlyReads};
ghost use Rattle.record_choice.specs.Reasons.{MayGo};
ghost use Rattle.record_ledger.specs.Ledgers.{KeptFor};
ghost use Rattle.cli_choice.specs.Disposals.{IsMeant};
ghost use Rattle.cli_changes.specs.declared.altered.Damage.TheVariants.{Refused};
ghost use Rattle.cli_changes.specs.declared.dispose.Fate.TheVariants.{Destroyed, Listed};
ghost use Rattle.cli_changes.specs.Certificates.{IsTaken};
ghost use Rattle.cli_changes.specs.Destructions.{AreApproved, DisposesAsked, DisposesUnaltered, EachOnce, HandsOverFor, IsAskedFor};
ghost use Rattle.cli_changes.specs.Destructions.{IsDisposal, IsDisposalOf, MayBegin};
ghost use Rattle.cli_changes.specs.Destructions.{IsOnlyRead, IsRead, are_any, damage_asked, fate_asked, meant_numbers, numbers_of};
ghost use Rattle.cli_changes.specs.DisposalDays.{IsDayAsked, day_asked as day_asked_of, not_yet_words as not_yet_words_of};
ghost use Rattle.cli_changes.specs.DueLines.{ListsAsked, due_line as due_line_of, due_lines};
ghost use Rattle.cli_changes.specs.Runs.{AreFilled, IsUnaltered, altered as altered_of, records_of};

use crate::altered::{Damage, altered_in, due_line, end_list, judge_altered};
use crate::certificates::{Certificates, Printer};
use crate::destroying::{destroy_numbers, refused, unread};
use crate::import::not_come_words;
use crate::passed_over::tell_passed_over;
use crate::runs::{Run, runs_of};
use class_plan::Date;
use cli_choice::{Meant, meant_of, set_of};
use cli_console::{Failure, Sink, StandardOutput, Status, is_by, today};
use cli_history::{Seals, StoreLedger};
use command_lines::archives::{Disposal, TypedNumbers};
use record_archive::Line;
use record_choice::{Repository, asked_lines};
use record_store::StoreFault;
use sqlite::Alter;
use std::alloc::{AllocError, Global};
use tool_texts::Shown;

/// Which records a disposal by a day is about.
fn meant_in<R: Repository<Fault = StoreFault>>(
    rt: &HostRuntime,
    archive: &mut R,
    volume: Option<u32>,
    typed: &[TypedNumbers],
    day: Date,
) -> Result<Meant, Failure>
    ensures reads { OnlyReads R.clean R.stands archive.old archive.new }
    ensures told { IfOk result (λ meant. IsReadOf R.clean R.stands archive.old archive.new
        (λ a. IsMeant typed.now (asked_list a (epoch_day day) []) meant)) }
{
    match asked_lines(rt.alloc(), archive, &[], day) {
        Ok(lines) => Ok(meant_of(rt.alloc(), typed, lines)?),
        Err(fault) => Err(refused(rt, volume, fault)),
    }
}

/// The same. What the disposal passes over in ranges is told.
fn meant_by<R: Repository<Fault = StoreFault>>(
    rt: &HostRuntime,
    archive: &mut R,
    volume: Option<u32>,
    typed: &[TypedNumbers],
    day: Date,
) -> Result<Meant, Failure>
    ensures reads { OnlyReads R.clean R.stands archive.old archive.new }
    ensures told { IfOk result (λ meant. IsReadOf R.clean R.stands archive.old archive.new
        (λ a. IsMeant typed.now (asked_list a (epoch_day day) []) meant)) }
{
    tell_passed_over(rt, archive, volume, typed, day)?;
    meant_in(rt, archive, volume, typed, day)
}

/// Destroys the records of a run, of which there is one at least. Each gets a certificate, and an event with the notes of the run.
fn destroy_run<S: Alter, P: Printer>(
    rt: &HostRuntime,
    archive: &mut StoreLedger<'_, S>,
    certificates: &mut Certificates<'_, P>,
    run: &Run,
    day: Date,
) -> Result<(), Failure>
    ensures falls { IsRead S.Store archive.new → IsRead S.Store archive.old }
    ensures these { HandsOverFor (IsTaken P.prints) certificates.old certificates.new
        (IsRead S.Store archive.new) (KeptFor S.Store archive.old.kept)
        (λ cs a. DisposesAsked (KeptFor S.Store archive.new.kept) (epoch_day day)
        run.now.numbers.items (is_ok result) cs a) }
{
    archive.set_notes(run.notes());
    let volume = certificates.volume;
    let done = destroy_numbers(rt, archive, certificates, volume, run.numbers(), day);
    archive.set_notes(b"");
    done
}

/// Destroys records in runs, with a certificate for each: one run after the other, up to the first record that fails.
fn destroy_runs<S: Alter, P: Printer>(
    rt: &HostRuntime,
    archive: &mut StoreLedger<'_, S>,
    certificates: &mut Certificates<'_, P>,
    runs: &[Run],
    day: Date,
) -> Result<(), Failure>
    ensures falls { IsRead S.Store archive.new → IsRead S.Store archive.old }
    ensures these { HandsOverFor (IsTaken P.prints) certificates.old certificates.new
        (IsRead S.Store archive.new) (KeptFor S.Store archive.old.kept)
        (λ cs a. AreFilled runs.now → EachOnce (records_of runs.now)
        → IsDisposal (KeptFor S.Store archive.new.kept) (epoch_day day) (records_of runs.now)
        (is_ok result) cs a) }
{
    for run in runs {
        destroy_run(rt, archive, certificates, run, day)?;
    }
    Ok(())
}

/// The records of some numbers, all that are due where there is no number.
#[derive(Drop)]
struct Asked {
    /// As the due list has them.
    lines: Vec<Line>,
    runs: Vec<Run>,
    /// The numbers of those whose messages are not the ones that were captured, upwards.
    altered: Vec<u32>,
}

/// Reads the records of some numbers, all that are due where there is no number. Fails where one of these numbers may not be
/// destroyed by the day.
fn read_asked<R: Repository<Fault = StoreFault>>(
    rt: &HostRuntime,
    archive: &mut R,
    volume: Option<u32>,
    seals: &Seals,
    numbers: &[u32],
    day: Date,
) -> Result<Asked, Failure>
    ensures reads { OnlyReads R.clean R.stands archive.old archive.new }
    ensures told { IfOk result (λ asked. IsReadOf R.clean R.stands archive.old archive.new
        (λ a. IsAskedFor seals.now a (epoch_day day) numbers.now asked)) }
    ensures filled { IfOk result (λ asked. AreFilled asked.runs.items) }
    ensures altered { IfOk result (λ asked. asked.altered.items ≡ altered_of asked.runs.items) }
{
    let lines = match asked_lines(rt.alloc(), archive, numbers, day) {
        Ok(lines) => lines,
        Err(fault) => return Err(refused(rt, volume, fault)),
    };
    let runs = match runs_of(rt.alloc(), archive, seals, lines.as_slice()) {
        Ok(runs) => runs,
        Err(fault) => return Err(unread(rt, fault)),
    };
    let altered = altered_in(rt.alloc(), runs.as_slice())?;
    Ok(Asked {
        lines,
        runs,
        altered,
    })
}

/// The same in runs, to be destroyed. Fails too where the message of one of them is not the one that was captured, which is
/// told, unless damage is destroyed too.
fn approved_runs<R: Repository<Fault = StoreFault>>(
    rt: &HostRuntime,
    archive: &mut R,
    volume: Option<u32>,
    seals: &Seals,
    damage: Damage,
    numbers: &[u32],
    day: Date,
) -> Result<Vec<Run>, Failure>
    ensures reads { OnlyReads R.clean R.stands archive.old archive.new }
    ensures these { IfOk result (λ runs. IsReadOf R.clean R.stands archive.old archive.new
        (λ a. AreApproved seals.now damage a (epoch_day day) numbers.now (records_of runs.items))) }
    ensures filled { IfOk result (λ runs. AreFilled runs.items) }
{
    let Asked { runs, altered, .. } = read_asked(rt, archive, volume, seals, numbers, day)?;
    judge_altered(rt, volume, altered.as_slice(), damage)?;
    Ok(runs)
}

/// Destroys the records of some numbers, all that are due where there is no number, with a certificate for each. None is
/// destroyed unless each of them may be. Which messages are not the ones that were captured is told before. Answers whether there
/// is a record.
fn destroy_asked<S: Alter, P: Printer>(
    rt: &HostRuntime,
    archive: &mut StoreLedger<'_, S>,
    certificates: &mut Certificates<'_, P>,
    damage: Damage,
    numbers: &[u32],
    day: Date,
) -> Result<bool, Failure>
    ensures falls { IsRead S.Store archive.new → IsRead S.Store archive.old }
    ensures any { IfOk result (λ is_any. IsRead S.Store archive.new → (a : Archive)
        → KeptFor S.Store archive.old.kept a
        → is_any ≡ are_any (numbers_of (asked_list a (epoch_day day) numbers.now))) }
    ensures these { HandsOverFor (IsTaken P.prints) certificates.old certificates.new
        (IsRead S.Store archive.new) (KeptFor S.Store archive.old.kept)
        (λ cs a. DisposesUnaltered certificates.old.seals.now damage
        (KeptFor S.Store archive.new.kept) (epoch_day day) numbers.now (is_ok result) cs a) }
{
    let seals: &Seals = certificates.seals;
    let volume = certificates.volume;
    let runs = approved_runs(rt, archive, volume, seals, damage, numbers, day)?;
    destroy_runs(rt, archive, certificates, runs.as_slice(), day)?;
    Ok(!runs.is_empty())
}

/// Writes the line of a record that is due to a sink.
fn write_line<K: Sink>(
    alloc: Global,
    volume: Option<u32>,
    line: &Line,
    is_altered: bool,
    sink: &mut K,
) -> Result<(), Failure>
    ensures { OnOk result (Writes K.written sink.old sink.new
        (due_line_of volume line.now is_altered)) }
{
    let text = due_line(alloc, volume, line, is_altered)?;
    sink.write(text.as_str().as_bytes())
}

/// Writes the lines of records that are due to a sink, in their order. They say of some of these that their messages are not the
/// ones that were captured.
fn write_lines<K: Sink>(
    alloc: Global,
    volume: Option<u32>,
    lines: &[Line],
    altered: &[u32],
    sink: &mut K,
) -> Result<(), Failure>
    ensures { OnOk result (Writes K.written sink.old sink.new
        (due_lines volume altered.now lines.now)) }
{
    let set = set_of(alloc, altered)?;
    for line in lines {
        write_line(alloc, volume, line, set.contains(&line.number), sink)?;
    }
    Ok(())
}

/// Lists the records of some numbers, all that are due where there is no number, in a sink, a line each. Answers them.
fn list_asked<R: Repository<Fault = StoreFault>, K: Sink>(
    rt: &HostRuntime,
    archive: &mut R,
    volume: Option<u32>,
    seals: &Seals,
    numbers: &[u32],
    day: Date,
    sink: &mut K,
) -> Result<Asked, Failure>
    ensures reads { OnlyReads R.clean R.stands archive.old archive.new }
    ensures told { IfOk result (λ asked. IsReadOf R.clean R.stands archive.old archive.new
        (λ a. IsAskedFor seals.now a (epoch_day day) numbers.now asked)) }
    ensures listed { OnOk result (IsReadOf R.clean R.stands archive.old archive.new
        (λ a. ListsAsked K.written volume seals.now a (epoch_day day) numbers.now sink.old
        sink.new)) }
{
    let asked = read_asked(rt, archive, volume, seals, numbers, day)?;
    write_lines(
        rt.alloc(),
        volume,
        asked.lines.as_slice(),
        asked.altered.as_slice(),
        sink,
    )?;
    Ok(asked)
}

/// Lists the same on standard output. `BadData` in the end where the message of one is not the one that was captured, which is
/// told. Answers whether there is a record.
fn write_asked<R: Repository<Fault = StoreFault>>(
    rt: &HostRuntime,
    archive: &mut R,
    volume: Option<u32>,
    seals: &Seals,
    numbers: &[u32],
    day: Date,
) -> Result<bool, Failure>
    ensures reads { OnlyReads R.clean R.stands archive.old archive.new }
    ensures any { IfOk result (λ is_any. IsReadOf R.clean R.stands archive.old archive.new
        (λ a. is_any ≡ are_any (numbers_of (asked_list a (epoch_day day) numbers.now)))) }
    ensures may_go { OnOk result (IsReadOf R.clean R.stands archive.old archive.new
        (λ a. AllByRecursion (MayGo a (epoch_day day)) numbers.now)) }
{
    let mut output = StandardOutput::new(rt);
    let asked = list_asked(rt, archive, volume, seals, numbers, day, &mut output)?;
    end_list(rt, volume, asked.altered.as_slice())?;
    Ok(!asked.lines.is_empty())
}

/// Finds that the records of some numbers may be destroyed, all that are due where there is no number, before any is. Fails where one of
/// these numbers may not be, and, unless damage is destroyed too, where a message is not the one that was captured, which is told.
fn judge_asked<R: Repository<Fault = StoreFault>>(
    rt: &HostRuntime,
    archive: &mut R,
    volume: Option<u32>,
    seals: &Seals,
    damage: Damage,
    numbers: &[u32],
    day: Date,
) -> Result<(), Failure>
    ensures reads { OnlyReads R.clean R.stands archive.old archive.new }
    ensures may_go { OnOk result (IsReadOf R.clean R.stands archive.old archive.new
        (λ a. AllByRecursion (MayGo a (epoch_day day)) numbers.now)) }
    ensures unaltered { OnOk result (IsReadOf R.clean R.stands archive.old archive.new
        (λ a. damage ≡ Refused → AllByRecursion (IsUnaltered seals.now a)
        (numbers_of (asked_list a (epoch_day day) numbers.now)))) }
{
    let Asked { altered, .. } = read_asked(rt, archive, volume, seals, numbers, day)?;
    match damage {
        Damage::Refused => judge_altered(rt, volume, altered.as_slice(), damage),
        Damage::Destroyed => Ok(()),
    }
}

/// What is done where the message of a record that is meant is not the one that was captured.
fn damage_of(asked: &Disposal) -> Damage
    ensures { result ≡ damage_asked asked.now.is_damaged }
{
    if asked.is_damaged {
        Damage::Destroyed
    } else {
        Damage::Refused
    }
}

/// What is done with records that are due.
#[derive(Clone, Copy)]
enum Fate {
    /// They are listed.
    Listed,
    /// They are destroyed.
    Destroyed(Damage),
}

/// What is done with the records that a disposal is about.
fn fate_of(asked: &Disposal) -> Fate
    ensures { result ≡ fate_asked asked.now.destroys asked.now.is_damaged }
{
    if asked.destroys {
        Fate::Destroyed(damage_of(asked))
    } else {
        Fate::Listed
    }
}

/// Lists or destroys the records of some numbers, all that are due where there is no number. Answers whether there is one.
fn dispose_of<S: Alter, P: Printer>(
    rt: &HostRuntime,
    archive: &mut StoreLedger<'_, S>,
    certificates: &mut Certificates<'_, P>,
    fate: Fate,
    numbers: &[u32],
    day: Date,
) -> Result<bool, Failure>
    ensures falls { IsRead S.Store archive.new → IsRead S.Store archive.old }
    ensures any { IfOk result (λ is_any. IsRead S.Store archive.new → (a : Archive)
        → KeptFor S.Store archive.old.kept a
        → is_any ≡ are_any (numbers_of (asked_list a (epoch_day day) numbers.now))) }
    ensures listed { fate ≡ Listed → (certificates.new ≡ certificates.old)
        × IsOnlyRead S.Store archive.old archive.new }
    ensures destroyed { (damage : Damage) → fate ≡ Destroyed damage
        → HandsOverFor (IsTaken P.prints) certificates.old certificates.new
        (IsRead S.Store archive.new) (KeptFor S.Store archive.old.kept)
        (λ cs a. DisposesUnaltered certificates.old.seals.now damage
        (KeptFor S.Store archive.new.kept) (epoch_day day) numbers.now (is_ok result) cs a) }
{
    match fate {
        Fate::Listed => {
            let seals: &Seals = certificates.seals;
            write_asked(rt, archive, certificates.volume, seals, numbers, day)
        }
        Fate::Destroyed(damage) => destroy_asked(rt, archive, certificates, damage, numbers, day),
    }
}

/// The day by which records are to be destroyed today: the one that is typed, or else today. A day that has not come yet is the error.
fn day_asked(typed: Option<Date>, today: Date) -> Result<Date, Date>
    ensures { result ≡ day_asked_of typed today }
{
    let Some(day) = typed else {
        return Ok(today);
    };
    if is_by(typed, today) {
        return Ok(day);
    }
    Err(day)
}

/// What is told of a day of a disposal that has not come yet.
#[tactic(auto, unfolding(crate::specs::DisposalDays::not_yet_words))]
fn not_yet_words(alloc: Global, day: Date) -> Result<Shown, AllocError>
    ensures { IfOk result (λ text. text ≡ not_yet_words_of day) }
{
    let mut text = not_come_words(alloc, day)?;
    text.words("; report --day shows what will be due by it")?;
    Ok(text)
}

/// The day by which records are to be destroyed: the one that is typed, or else that of the clock. `Usage` where it has not
/// come yet.
pub fn day_of_disposal(rt: &HostRuntime, asked: &Disposal) -> Result<Date, Failure>
    ensures day { IfOk result (IsDayAsked asked.now.day) }
    ensures typed { IfOk result (λ day. IfSome asked.now.day (λ typed. day ≡ typed)) }
{
    match day_asked(asked.day, today(rt)?) {
        Ok(day) => Ok(day),
        Err(day) => Err(Failure::shown(Status::Usage, not_yet_words(rt.alloc(), day))),
    }
}

/// Finds that a disposal by a day may begin in a store, before anything is destroyed in another one. It fails as the disposal does that
/// destroys. What that passes over, and what it destroys of altered messages, it tells itself.
pub fn judge_disposal<R: Repository<Fault = StoreFault>>(
    rt: &HostRuntime,
    archive: &mut R,
    volume: Option<u32>,
    seals: &Seals,
    asked: &Disposal,
    day: Date,
) -> Result<(), Failure>
    ensures reads { OnlyReads R.clean R.stands archive.old archive.new }
    ensures may_begin { OnOk result (IsReadOf R.clean R.stands archive.old archive.new
        (λ a. MayBegin seals.now asked.now a (epoch_day day))) }
{
    let damage = damage_of(asked);
    let meant = meant_in(rt, archive, volume, asked.numbers.as_slice(), day)?;
    match meant {
        Meant::All => judge_asked(rt, archive, volume, seals, damage, &[], day),
        Meant::Nothing => Ok(()),
        Meant::Numbers(numbers) => {
            judge_asked(rt, archive, volume, seals, damage, numbers.as_slice(), day)
        }
    }
}

/// Writes what is due by a day and may be destroyed, or destroys it; where numbers are typed, these records alone. A range
/// passes over what may not be destroyed, which is told; `BadData` with the reason where that is a record whose number is
/// typed by itself. Answers whether there is a record. By the seals of the history messages are judged: `BadData` where that of
/// a record is not the one that was captured, and then none is destroyed, unless damage is asked for; what is listed is listed
/// all the same.
pub fn dispose_by<S: Alter, P: Printer>(
    rt: &HostRuntime,
    archive: &mut StoreLedger<'_, S>,
    certificates: &mut Certificates<'_, P>,
    asked: &Disposal,
    day: Date,
) -> Result<bool, Failure>
    ensures falls { IsRead S.Store archive.new → IsRead S.Store archive.old }
    ensures any { IfOk result (λ is_any. IsRead S.Store archive.new → (a : Archive)
        → KeptFor S.Store archive.old.kept a
        → is_any ≡ are_any (meant_numbers a (epoch_day day) asked.now.numbers.items)) }
    // nothing is destroyed unless that is asked for
    ensures listed { asked.now.destroys ≡ false → (certificates.new ≡ certificates.old)
        × IsOnlyRead S.Store archive.old archive.new }
    // the records that are meant are destroyed and no other, each with its certificate, or none is
    ensures destroyed { asked.now.destroys ≡ true → HandsOverFor (IsTaken P.prints)
        certificates.old certificates.new (IsRead S.Store archive.new)
        (KeptFor S.Store archive.old.kept)
        (λ cs a. IsDisposalOf certificates.old.seals.now asked.now
        (KeptFor S.Store archive.new.kept) (epoch_day day) (is_ok result) cs a) }
{
    let fate = fate_of(asked);
    let volume = certificates.volume;
    let meant = meant_by(rt, archive, volume, asked.numbers.as_slice(), day)?;
    match meant {
        Meant::All => dispose_of(rt, archive, certificates, fate, &[], day),
        Meant::Nothing => Ok(false),
        Meant::Numbers(numbers) => {
            dispose_of(rt, archive, certificates, fate, numbers.as_slice(), day)
        }
    }
}
