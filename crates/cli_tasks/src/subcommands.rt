//! What each subcommand does.

ghost use Rattle.std.specs.Prelude.{◌≡◌, false, None, IfOk, OnOk};
ghost use Rattle.cli_changes.specs.Deliveries.{no_mail_in};
ghost use Rattle.cli_readings.specs.Chosen.{ShowsOf};
ghost use Rattle.cli_tasks.specs.Commands.{ChangesBy, ChangesChosenBy, DisposesAsTyped, Does, DoesAsTyped, DoesWith, IsTold, ReadsBy, ReadsChosen, ReplacesPlan, Shows, ShowsAsTyped, Surveys};
ghost use Rattle.cli_tasks.specs.Deliveries.{Delivers, DeliversTo};
ghost use Rattle.cli_tasks.specs.Places.{IsIn};
ghost use Rattle.cli_tasks.specs.Rounds.{IntakesAll, IntakesRound};
ghost use Rattle.cli_tasks.specs.Volumes.{DoesThere};
ghost use Rattle.cli_tasks.specs.Works.{IsDone, IsLent};

use crate::adopting::adopt;
use crate::archives::{Archives, Work, lend, settled};
use crate::beginnings::{accept_found, begin, require_reasons};
use crate::changes::{ChangeBy, Changing, ChosenChange, DeliverOne, TakeNew, author_of_disposal};
use crate::copy::{Paths, copy_to};
use crate::drafts::make;
use crate::histories::{CheckAll, ReadHistory};
use crate::imports::import;
use crate::rolling::{Capturing, create_volumes, place_for_capture, place_for_intake};
use crate::titles::give_titles;
use crate::volume_days::Earlier;
use crate::volume_numbers::{
    choice_in_file, disposal_in_file, history_in_file, number_in_file, numbers_in_file,
};
use crate::volumes::{execute_over, is_over_volumes};
use choice_words::TypedChoice;
use class_plan::Date;
use cli_changes::{
    Delivered, FilingRules, Intake, Round, Rounds, Timing, check_rules, day_of_disposal, logged,
    read_message, read_plan, refuse_no_mail, report_delivery, undecoded_in, with_approved,
    write_plan,
};
use cli_choice::{Change, Questions};
use cli_console::{Failure, StandardOutput, day_or_today};
use cli_history::{Author, write_cases, write_titles};
use cli_readings::{
    Captured, export_to, judge_choice, message_of_record, read_captured, write_list, write_message,
    write_report, write_twice, write_why,
};
use command_lines::archives::{
    Attribution, Choice, ChosenTask, Command, CommandLine, DisposalAsked, Filing, HistoryTask,
    Listing, RulesChecked, Target, Telling, TypedNumber, Why,
};
use desk_commands::Payload;
use record_store::Store;
use sqlite::{Alter, Connection};
use std::alloc::Global;

/// What is read of a whole archive.
#[derive(Drop)]
pub(crate) enum Survey {
    /// The plan.
    Plan,
    /// The cases, perhaps as JSON.
    Holds { is_json: bool },
    /// The records whose messages were captured twice.
    Twice(Listing),
    /// The titles of classes, perhaps as JSON.
    Titles { is_json: bool },
}

impl Survey {
    /// Reads it.
    fn perform<S: Alter>(self, rt: &HostRuntime, archive: &mut Store<S>) -> Result<(), Failure>
        ensures { OnOk result (Surveys S.Store archive.old archive.new.conn self) }
    {
        match self {
            Survey::Plan => write_plan(rt, archive.plan()),
            Survey::Holds { is_json } => write_cases(rt, archive, is_json),
            Survey::Twice(listing) => {
                let output = StandardOutput::new(rt);
                let _written = write_twice(rt, archive, listing, output)?;
                Ok(())
            }
            Survey::Titles { is_json } => write_titles(rt, archive, is_json),
        }
    }
}

impl Work for Survey {
    type Answer = ();

    ghost does = { λ S g it before done after. OnOk done (Surveys g before after it) };

    fn work<S: Alter>(
        self,
        rt: &HostRuntime,
        archive: Store<S>,
    ) -> (Connection<S>, Result<(), Failure>) {
        let mut archive = archive;
        let done = self.perform(rt, &mut archive);
        (archive.into_connection(), done)
    }
}

/// What is read of the records of a choice.
#[derive(Clone, Copy)]
enum Reading<'a> {
    List(Listing),
    Export(Target<'a>),
    Report { day: Option<Date> },
}

/// Reads the records of a choice, and of the questions that are asked of their messages.
#[derive(Drop)]
struct OnRecords<'a, 't> {
    /// The path of the store, which a report and the index of an export name.
    store: &'a str,
    choice: Choice<'a>,
    questions: Questions,
    reading: &'t Reading<'a>,
}

impl OnRecords<'_, '_> {
    /// Does it.
    fn perform<S: Alter>(&self, rt: &HostRuntime, archive: &mut Store<S>) -> Result<(), Failure>
        ensures { OnOk result (ReadsBy S.Store archive.old archive.new.conn self.now.reading.now
            self.now.choice self.now.questions) }
    {
        let (choice, questions) = (&self.choice, &self.questions);
        match self.reading {
            Reading::List(listing) => {
                let output = StandardOutput::new(rt);
                let _written = write_list(rt, archive, choice, questions, *listing, output)?;
                Ok(())
            }
            Reading::Export(target) => {
                export_to(rt, archive, self.store, choice, questions, *target)
            }
            Reading::Report { day } => {
                let day = day_or_today(rt, *day)?;
                write_report(rt, archive, self.store, day, choice, questions)
            }
        }
    }
}

impl Work for OnRecords<'_, '_> {
    type Answer = ();

    ghost does = { λ S g it before done after. OnOk done (ReadsBy g before after it.reading.now
        it.choice it.questions) };

    fn work<S: Alter>(
        self,
        rt: &HostRuntime,
        archive: Store<S>,
    ) -> (Connection<S>, Result<(), Failure>) {
        let mut archive = archive;
        let done = self.perform(rt, &mut archive);
        (archive.into_connection(), done)
    }
}

/// Reads the message of a record.
#[derive(Drop)]
struct ReadMessage<'a>(TypedNumber<'a>);

impl Work for ReadMessage<'_> {
    type Answer = Vec<u8>;

    ghost does = { λ S g it before done after. IfOk done (λ octets. ShowsOf g it.0.number
        octets.items before after) };

    fn work<S: Alter>(
        self,
        rt: &HostRuntime,
        archive: Store<S>,
    ) -> (Connection<S>, Result<Vec<u8>, Failure>) {
        let mut archive = archive;
        let message = message_of_record(rt, &mut archive, self.0);
        (archive.into_connection(), message)
    }
}

/// Reads a record as it was captured.
#[derive(Drop)]
struct ReadRecord<'a>(TypedNumber<'a>);

impl Work for ReadRecord<'_> {
    type Answer = Captured;

    fn work<S: Alter>(
        self,
        rt: &HostRuntime,
        archive: Store<S>,
    ) -> (Connection<S>, Result<Captured, Failure>) {
        let mut archive = archive;
        let captured = read_captured(rt, &mut archive, self.0);
        (archive.into_connection(), captured)
    }
}

/// Judges rules by the plan of a store.
#[derive(Drop)]
pub(crate) struct CheckRules<'a>(pub RulesChecked<'a>);

impl Work for CheckRules<'_> {
    type Answer = ();

    fn work<S: Alter>(
        self,
        rt: &HostRuntime,
        archive: Store<S>,
    ) -> (Connection<S>, Result<(), Failure>) {
        let (archive, judged) = check_rules(rt, archive, self.0);
        (archive.into_connection(), judged)
    }
}

/// Finds that a message looks like one, unless it is to be captured as it is. Else `BadData`.
fn judge_mail(alloc: Global, message: &Payload, is_as_is: bool) -> Result<(), Failure>
    ensures { OnOk result (is_as_is ≡ false → no_mail_in message.now ≡ None) }
{
    if is_as_is {
        return Ok(());
    }
    refuse_no_mail(alloc, message)
}

/// Delivers a message to the store at a path. A store that cannot be had is a reason to try again.
fn deliver_at<A: Archives>(
    rt: &HostRuntime,
    archives: &A,
    path: &str,
    work: DeliverOne<'_, '_, A>,
) -> Result<Delivered, Failure>
    ensures { IfOk result (λ d. IsDone (A.is_at archives.now path.now) (λ before after.
        Delivers A.Kept.Store (A.is_at work.entry.earlier.archives.now) A.Kept.Store
        work.entry.earlier.volumes.folder.now work.entry.earlier.volumes.last work.entry.author
        work.entry.rules work.entry.timing work.entry.message before d after)) }
{
    let (done, closed) = match archives.lend(rt, path, work) {
        Ok(lent) => lent,
        Err(failure) => return Err(failure.kept()),
    };
    settled(rt, path, done, closed)?
}

/// Where a message is captured. An archive that cannot be had is a reason to try again.
fn place_for_delivery<A: Archives>(
    rt: &HostRuntime,
    archives: &A,
    store: &str,
    told: &Attribution<'_>,
    timing: Timing,
) -> Result<Capturing, Failure>
    ensures { IfOk result (IsIn store.now) }
{
    match place_for_capture(rt, archives, store, told, timing) {
        Ok(place) => Ok(place),
        Err(failure) => Err(failure.kept()),
    }
}

/// Captures the message on standard input. What looks like no message is refused, unless it is to be captured as it is. A store
/// that cannot be had, or that may not keep the message, is a reason to try again, so that a mail server keeps it. In an archive of
/// volumes it goes into the last one, or into a next one where that is over its size.
fn deliver<'a, A: Archives>(
    rt: &HostRuntime,
    archives: &A,
    store: &str,
    filing: &Filing<'a>,
    is_as_is: bool,
    told: &Attribution<'a>,
) -> Result<(), Failure>
    ensures { OnOk result (DeliversTo A.Kept.Store (A.is_at archives.now) store.now
        (IsTold told.now) filing.now is_as_is) }
{
    let timing = Timing::new(rt, filing.moment)?;
    let message = read_message(rt)?;
    judge_mail(rt.alloc(), &message, is_as_is)?;
    let undecoded = undecoded_in(rt.alloc(), &message);
    let rules = FilingRules::read_for_delivery(rt, filing)?;
    rules.tell_unused(rt);
    let capturing = place_for_delivery(rt, archives, store, told, timing)?;
    let volume = capturing.volume;
    let author = Author::or_program(rt, told)?;
    let work = DeliverOne {
        author: author.in_volume(volume),
        rules,
        timing,
        message,
        earlier: Earlier::of(archives, store, volume),
    };
    let delivery = deliver_at(rt, archives, capturing.path.as_str(), work)?;
    report_delivery(rt, volume, &delivery, filing.limit, undecoded.as_slice())
}

/// Captures the new messages of a Maildir in a round: in a store, or in the last volume of an archive until that is full.
fn take_round<'a, A: Archives>(
    rt: &HostRuntime,
    archives: &A,
    store: &str,
    job: Intake<'a>,
    rounds: Rounds,
    told: &Attribution<'a>,
) -> Result<Round<Intake<'a>, Rounds>, Failure>
    ensures { IfOk result (IntakesRound A.Kept.Store (A.is_at archives.now) store.now
        (IsTold told.now) job.entry rounds) }
{
    let capturing = place_for_intake(rt, archives, store, told, &job)?;
    let place = capturing.place(rt, store)?;
    let author = Author::or_program(rt, told)?;
    let work = TakeNew {
        author: author.in_volume(place.volume),
        job,
        rounds,
        place,
        earlier: Earlier::of(archives, store, place.volume),
    };
    lend(rt, archives, capturing.path.as_str(), work)
}

/// Captures the new messages of a Maildir, in one volume after another where it is an archive of volumes.
fn take_from<'a, A: Archives>(
    rt: &'a HostRuntime,
    archives: &A,
    store: &str,
    maildir: &'a str,
    filing: &Filing<'a>,
    telling: Telling,
    told: &Attribution<'a>,
) -> Result<(), Failure>
    ensures { OnOk result (IntakesAll A.Kept.Store (A.is_at archives.now) store.now
        (IsTold told.now)) }
{
    let mut job = Intake::read(rt, maildir, filing, telling)?;
    let mut rounds = Rounds::none(rt.alloc());
    for _ in 0..u64::MAX {
        match take_round(rt, archives, store, job, rounds, told)? {
            Round::Done => return Ok(()),
            Round::NextVolume(rest, so_far) => {
                job = rest;
                rounds = so_far;
            }
        }
    }
    Ok(())
}

/// Captures the new messages of a Maildir. A failure is a line of its log.
fn intake<'a, A: Archives>(
    rt: &'a HostRuntime,
    archives: &A,
    store: &str,
    maildir: &'a str,
    filing: &Filing<'a>,
    telling: Telling,
    told: &Attribution<'a>,
) -> Result<(), Failure>
    ensures { OnOk result (IntakesAll A.Kept.Store (A.is_at archives.now) store.now
        (IsTold told.now)) }
{
    match take_from(rt, archives, store, maildir, filing, telling, told) {
        Ok(()) => Ok(()),
        Err(failure) => Err(logged(rt, telling.has_times, failure)),
    }
}

/// Writes the message of a record once the archive is closed, or the fields of its header.
pub(crate) fn show<A: Archives>(
    rt: &HostRuntime,
    archives: &A,
    store: &str,
    record: TypedNumber<'_>,
    fields: bool,
) -> Result<(), Failure>
    ensures { OnOk result (Shows A.Kept.Store (A.is_at archives.now store.now)
        record.entry.number) }
{
    let message = lend(rt, archives, store, ReadMessage(record))?;
    write_message(rt, message.as_slice(), fields)
}

/// The same of a number as it is typed, in a store that is one file.
fn show_typed<A: Archives>(
    rt: &HostRuntime,
    archives: &A,
    store: &str,
    typed: TypedNumber<'_>,
    fields: bool,
) -> Result<(), Failure>
    ensures { OnOk result (ShowsAsTyped A.Kept.Store (A.is_at archives.now store.now)
        typed.entry) }
{
    let record = number_in_file(rt, typed)?;
    show(rt, archives, store, record, fields)
}

/// Says why a record is in its class, once the archive is closed.
pub(crate) fn why<A: Archives>(
    rt: &HostRuntime,
    archives: &A,
    store: &str,
    asked: &Why<'_>,
) -> Result<(), Failure>
    ensures { OnOk result (IsLent (A.is_at archives.now store.now)) }
{
    let captured = lend(rt, archives, store, ReadRecord(asked.record))?;
    write_why(rt, asked, &captured)
}

/// Reads the records of a choice.
fn read_records<'a, A: Archives>(
    rt: &HostRuntime,
    archives: &A,
    store: &'a str,
    choice: Choice<'a>,
    reading: &Reading<'a>,
) -> Result<(), Failure>
    ensures { OnOk result (IsDone (A.is_at archives.now store.now) (λ before after.
        ReadsChosen A.Kept.Store before after reading.now choice.entry)) }
{
    let questions = judge_choice(rt, &choice)?;
    let work = OnRecords {
        store,
        choice,
        questions,
        reading,
    };
    lend(rt, archives, store, work)
}

/// Changes the records of a choice.
fn change_records<'a, A: Archives>(
    rt: &HostRuntime,
    archives: &A,
    store: &str,
    choice: &Choice<'a>,
    chosen: ChosenChange<'a>,
    told: &Attribution<'a>,
) -> Result<(), Failure>
    ensures { OnOk result (IsDone (A.is_at archives.now store.now) (λ before after.
        ChangesChosenBy A.Kept.Store told.now before after chosen.entry choice.now)) }
{
    let chosen = Changing::Chosen {
        change: chosen,
        choice,
        questions: judge_choice(rt, choice)?,
    };
    change(rt, archives, store, chosen, told)
}

/// Does something with the records of a choice.
#[tactic(auto, using(crate::proofs::DoneLemmas::nothing_said))]
fn on_records<'a, A: Archives>(
    rt: &HostRuntime,
    archives: &A,
    store: &'a str,
    choice: Choice<'a>,
    task: &ChosenTask<'a>,
    told: &Attribution<'a>,
) -> Result<(), Failure>
    ensures { OnOk result (DoesWith A.Kept.Store (A.is_at archives.now store.now) told.now
        choice.entry task.now) }
{
    match task {
        ChosenTask::List(listing) => {
            read_records(rt, archives, store, choice, &Reading::List(*listing))
        }
        ChosenTask::Export(target) => {
            read_records(rt, archives, store, choice, &Reading::Export(*target))
        }
        ChosenTask::Report { day } => {
            read_records(rt, archives, store, choice, &Reading::Report { day: *day })
        }
        ChosenTask::Hold(name) => {
            let hold = ChosenChange::Hold(Change::Place, *name);
            change_records(rt, archives, store, &choice, hold, told)
        }
        ChosenTask::Release(name) => {
            let release = ChosenChange::Hold(Change::End, *name);
            change_records(rt, archives, store, &choice, release, told)
        }
        ChosenTask::Refile(refiling) => {
            let refile = ChosenChange::Refile(*refiling);
            change_records(rt, archives, store, &choice, refile, told)
        }
    }
}

/// The same with a choice as it is typed, in a store that is one file.
fn on_typed<'a, A: Archives>(
    rt: &HostRuntime,
    archives: &A,
    store: &'a str,
    typed: TypedChoice<'a>,
    task: &ChosenTask<'a>,
    told: &Attribution<'a>,
) -> Result<(), Failure>
    ensures { OnOk result (DoesAsTyped A.Kept.Store (A.is_at archives.now store.now) told.now
        typed.entry task.now) }
{
    let choice = choice_in_file(rt, typed)?;
    on_records(rt, archives, store, choice, task, told)
}

/// Lists what is due and may be destroyed, or destroys it.
fn dispose<A: Archives>(
    rt: &HostRuntime,
    archives: &A,
    store: &str,
    asked: DisposalAsked<'_>,
    told: &Attribution<'_>,
) -> Result<(), Failure>
    ensures { OnOk result (IsDone (A.is_at archives.now store.now) (λ before after.
        DisposesAsTyped A.Kept.Store told.now before after asked.entry)) }
{
    let typed = with_approved(rt, asked)?;
    let asked = disposal_in_file(rt, typed)?;
    let day = day_of_disposal(rt, &asked)?;
    let author = author_of_disposal(rt, asked.destroys, told)?;
    let change = Changing::Dispose(asked, day);
    lend(rt, archives, store, ChangeBy { author, change })
}

/// Makes a store with the plan of a file, in one file or in volumes of a size, and begins its history.
fn create<A: Archives>(
    rt: &HostRuntime,
    archives: &A,
    store: &str,
    plan: &str,
    size: Option<u64>,
    told: &Attribution<'_>,
) -> Result<(), Failure> {
    let author = Author::of(rt, told)?;
    author.named(rt)?;
    let plan = read_plan(rt, plan)?;
    match size {
        Some(size) => create_volumes(rt, archives, store, size, plan, author),
        None => make(rt, archives, store, plan, author),
    }
}

/// Changes an archive.
fn change<'a, A: Archives>(
    rt: &HostRuntime,
    archives: &A,
    store: &str,
    change: Changing<'a, '_>,
    told: &Attribution<'a>,
) -> Result<(), Failure>
    ensures { OnOk result (IsDone (A.is_at archives.now store.now) (λ before after.
        ChangesBy A.Kept.Store told.now before after change.entry)) }
{
    let author = Author::of(rt, told)?;
    lend(rt, archives, store, ChangeBy { author, change })
}

/// Replaces the plan of an archive by that of the file at a path.
fn replace_plan<'a, A: Archives>(
    rt: &HostRuntime,
    archives: &A,
    store: &str,
    path: &'a str,
    is_agreed: bool,
    told: &Attribution<'a>,
) -> Result<(), Failure>
    ensures { OnOk result (IsDone (A.is_at archives.now store.now) (λ before after.
        ReplacesPlan A.Kept.Store told.now before after)) }
{
    let new_plan = Changing::ReplacePlan {
        plan: read_plan(rt, path)?,
        path,
        is_agreed,
    };
    change(rt, archives, store, new_plan, told)
}

/// Begins a history, notes whether it requires reasons or that findings are accepted, or prints it.
#[tactic(auto, using(crate::proofs::DoneLemmas::lent_as))]
fn history<A: Archives>(
    rt: &HostRuntime,
    archives: &A,
    store: &str,
    task: HistoryTask<'_>,
    told: &Attribution<'_>,
) -> Result<(), Failure>
    ensures { OnOk result (IsLent (A.is_at archives.now store.now)) }
{
    match task {
        HistoryTask::Begin => begin(rt, archives, store, Author::of(rt, told)?),
        HistoryTask::Reasons(reasons) => {
            require_reasons(rt, archives, store, Author::of(rt, told)?, reasons)
        }
        HistoryTask::AcceptFound => accept_found(rt, archives, store, Author::of(rt, told)?),
        HistoryTask::Print(typed) => {
            let asked = history_in_file(rt, typed)?;
            lend(rt, archives, store, ReadHistory::Print(asked))
        }
    }
}

/// Does what a command line asks for with the archive of the store at its path.
#[tactic(auto, using(crate::proofs::DoneLemmas::nothing_said, crate::proofs::DoneLemmas::lent_as, crate::proofs::DoneLemmas::done_as))]
fn execute_at<'a, A: Archives>(
    rt: &'a HostRuntime,
    archives: &A,
    store: &'a str,
    command: Command<'a>,
    told: &Attribution<'a>,
) -> Result<(), Failure>
    ensures { OnOk result (Does A.Kept.Store (A.is_at archives.now) store.now told.now
        command.entry) }
{
    match command {
        Command::Create { plan, size } => create(rt, archives, store, plan, size, told),
        Command::Adopt { file, size } => adopt(rt, archives, file, store, size),
        Command::WritePlan => lend(rt, archives, store, Survey::Plan),
        Command::ReplacePlan { plan, is_agreed } => {
            replace_plan(rt, archives, store, plan, is_agreed, told)
        }
        Command::Deliver { filing, is_as_is } => {
            deliver(rt, archives, store, &filing, is_as_is, told)
        }
        Command::Intake {
            maildir,
            filing,
            telling,
        } => intake(rt, archives, store, maildir, &filing, telling, told),
        Command::Import(asked) => import(rt, archives, store, &asked, told),
        Command::Show { record, fields } => show_typed(rt, archives, store, record, fields),
        Command::Copy { new, is_damaged } => copy_to(
            rt,
            archives,
            Paths { store, new },
            is_damaged,
        ),
        Command::Check { head } => lend(rt, archives, store, CheckAll { head }),
        Command::CheckRules(asked) => lend(rt, archives, store, CheckRules(asked)),
        Command::Why(asked) => {
            number_in_file(rt, asked.record)?;
            why(rt, archives, store, &asked)
        }
        Command::Dispose(asked) => dispose(rt, archives, store, asked, told),
        Command::ReleaseAll { name, is_agreed } => {
            let whole = Changing::ReleaseAll { name, is_agreed };
            change(rt, archives, store, whole, told)
        }
        Command::Holds { is_json } => lend(rt, archives, store, Survey::Holds { is_json }),
        Command::Twice(listing) => lend(rt, archives, store, Survey::Twice(listing)),
        Command::WriteTitles { is_json } => lend(rt, archives, store, Survey::Titles { is_json }),
        Command::SetTitles { titles } => {
            give_titles(rt, archives, store, titles, Author::of(rt, told)?)
        }
        Command::History(task) => history(rt, archives, store, task, told),
        Command::Certificates { numbers } => {
            let work = ReadHistory::Certificates {
                volume: None,
                numbers: numbers_in_file(rt, numbers)?,
            };
            lend(rt, archives, store, work)
        }
        Command::Chosen(typed, task) => { on_typed(rt, archives, store, typed, &task, told) }
    }
}

/// Does what a command line asks for, with the archive at its path or over the volumes of the one in the folder there.
pub fn execute<A: Archives>(
    rt: &HostRuntime,
    archives: &A,
    line: CommandLine<'_>,
) -> Result<(), Failure>
    ensures { OnOk result (DoesThere A.Kept.Store (A.is_at archives.now) line.entry.store.now
        line.entry.attribution line.entry.command) }
{
    let CommandLine {
        store,
        attribution,
        command,
    } = line;
    let is_over = is_over_volumes(rt, store, &command)?;
    if is_over {
        return execute_over(rt, archives, store, command, &attribution);
    }
    execute_at(rt, archives, store, command, &attribution)
}
