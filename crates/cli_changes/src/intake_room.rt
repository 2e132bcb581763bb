//! The room in which an intake is made: a Maildir in files, a desk over an archive, and a log.

ghost use Rattle.std.specs.Prelude.{
  ◌≡◌,
  ℕ,
  List,
  false,
  true,
  is_some,
  string_bytes,
  IfErr,
  IfOk,
};
ghost use Rattle.desk_commands.specs.Limits.{greatest_message};
ghost use Rattle.desk_commands.specs.Payloads.{IsOf};
ghost use Rattle.mail_intake.specs.declared.mailroom.Refusal.TheVariants.{Stays};
ghost use Rattle.cli_changes.specs.Deliveries.{IsDropped, IsLeft, IsLeftBy};
ghost use Rattle.cli_changes.specs.Endings.{taken_of, IsAnswer, IsGivenUp, IsOfMaildir, IsRefusal};
ghost use Rattle.cli_changes.specs.IntakeCalls.{Made};
ghost use Rattle.cli_changes.specs.Intakes.{
  BeginsAfter,
  EndsRound,
  GoesOnWith,
  IsAtPlace,
  IsDeliveredNow,
  IsHandedOver,
  IsQuiet,
  TakesOne,
  round_of,
  space_after,
};
ghost use Rattle.cli_changes.specs.Rounds.{together as tallies_together};
ghost use Rattle.cli_changes.specs.Spaces.{is_full as is_full_space};

use crate::deliver::{desk_status, undecoded_in};
use crate::fault_words::{Cause, given_up_words};
use crate::import_room::octets_at;
use crate::intake::{Intake, maildir_failure};
use crate::intake_memory::told_of;
use crate::moments::Timing;
use crate::rounds::{Round, Rounds, together};
use crate::space::Place;
use crate::time_limit::{TimeLimit, too_slow_reason};
use class_plan::Plan;
use cli_console::{Failure, Status};
use cli_sources::maildir::{NewMail, is_in_cur, move_to_cur, new_path, settle};
use desk_commands::{Capture, DeskFault, Payload};
use filing_desk::{Delivery, Desk, deliver};
use mail_intake::{Listing, Mailroom, Memory, Reason, Refusal, Taken, Tally, Told};
use record_archive::Records;
use sieve_meaning::RunFault;
use std::alloc::{AllocError, Global};
use std::io::{self, ErrorKind};
use std::mem;
use tool_texts::Shown;

/// A Maildir, the desk that captures its messages, and what is said of them.
#[derive(Drop)]
pub(crate) struct Room<'a, A> {
    pub job: Intake<'a>,
    /// Where it captures.
    place: Place,
    /// The name of the message at which the round ended, once the volume was full.
    next: Option<String>,
    /// What became of the messages of the rounds before.
    pub before: Tally,
    desk: Desk<A>,
    /// The plan of the archive; none where there is no memory for it.
    plan: Option<Plan>,
    timing: Timing,
    /// The new messages, until they are listed.
    mail: NewMail,
    /// How many messages are taken.
    taken: u64,
    /// Whether anything was said of a message.
    has_spoken: bool,
    /// Whether it was told that it cannot be remembered what was told.
    pub has_complained: bool,
    /// Which messages stay, and the words for it.
    pub told: Vec<Told>,
}

/// The reason of a message that is given up, which was just put into words, if there was memory for them.
pub(crate) fn given_up(words: Result<Shown, AllocError>) -> Reason
    ensures { IsGivenUp result }
{
    match words {
        Ok(words) => Reason::GivenUp(words.into_string()),
        Err(AllocError) => Reason::NoMemory,
    }
}

/// Why a message is unfit, in words of the program, if there is memory for them.
pub(crate) fn unfit(alloc: Global, words: &'static str) -> Reason {
    let mut text = Shown::new(alloc);
    match text.words(words) {
        Ok(()) => Reason::Unfit(text.into_string()),
        Err(AllocError) => Reason::NoMemory,
    }
}

/// Why a message stays whose file cannot be had.
pub(crate) fn unread(alloc: Global, error: &io::Error) -> Reason {
    if let ErrorKind::OutOfMemory = error.kind() {
        return Reason::NoMemory;
    }
    let mut text = Shown::new(alloc);
    match text.value(error) {
        Ok(()) => Reason::Unfit(text.into_string()),
        Err(AllocError) => Reason::NoMemory,
    }
}

/// Finds that a message can be moved to `cur`.
fn judge_name(rt: &HostRuntime, maildir: &str, name: &str) -> Result<(), Reason> {
    match is_in_cur(rt, maildir, name) {
        Ok(false) => Ok(()),
        Ok(true) => Err(unfit(rt.alloc(), "cur has a message of this name")),
        Err(error) => Err(unread(rt.alloc(), &error)),
    }
}

/// The octets of a new message.
fn octets_of(rt: &HostRuntime, maildir: &str, name: &str) -> Result<Vec<u8>, Reason> {
    judge_name(rt, maildir, name)?;
    match new_path(rt.alloc(), maildir, name) {
        Ok(path) => octets_at(rt, path.as_str()),
        Err(_) => Err(Reason::NoMemory),
    }
}

/// What is told of a message that is captured and could not be moved.
fn not_moved(alloc: Global, name: &str, error: &io::Error) -> Result<Shown, AllocError> {
    let mut text = Shown::new(alloc);
    text.named(name.as_bytes())?;
    text.words(" is captured, but still in new, where the next intake would capture it again: ")?;
    text.value(error)?;
    Ok(text)
}

/// How a message was taken, by what was answered to its capture.
fn taken_by(capture: &Capture) -> Taken
    ensures { result ≡ taken_of capture.now }
{
    if capture.lines.is_empty() {
        Taken::Discarded
    } else {
        Taken::Captured
    }
}

impl<'a, A: Records> Room<'a, A> {
    /// A room for new messages, in which nothing was done but what was done in the rounds before.
    pub fn new(
        job: Intake<'a>,
        rounds: Rounds,
        place: Place,
        desk: Desk<A>,
        plan: Option<Plan>,
        timing: Timing,
        mail: NewMail,
    ) -> Room<'a, A>
        ensures job { result.job ≡ job.entry }
        ensures place { result.place ≡ place }
        ensures desk { result.desk ≡ desk }
        ensures mail { result.mail ≡ mail }
        ensures rounds { BeginsAfter rounds result }
    {
        let Rounds {
            tally,
            told,
            has_spoken,
            has_complained,
            ..
        } = rounds;
        Room {
            job,
            place,
            next: None,
            before: tally,
            desk,
            plan,
            timing,
            mail,
            taken: tally.taken as u64,
            has_spoken,
            has_complained,
            told,
        }
    }

    /// Whether the round ended since the volume is full.
    pub fn is_full(&self) -> bool
        ensures { result ≡ is_some self.now.next }
    {
        self.next.is_some()
    }

    /// Counts the messages of a round that ended since the volume is full.
    pub fn end_round(&mut self, tally: &Tally, has_complained: bool)
        ensures { self.new ≡ record self.old {
          before = tallies_together self.old.before tally.now;
          has_complained = has_complained;
        } }
    {
        let all = together(&self.before, tally);
        self.before = all;
        self.has_complained = has_complained;
    }

    /// Gives the archive back, and says how the round ended, in an intake that began at a moment.
    pub fn into_round(self, begun: u64) -> (A, Round<Intake<'a>, Rounds>)
        ensures archive { result.0 ≡ self.entry.desk.store }
        ensures round { result.1 ≡ round_of self.entry begun self.entry.next }
    {
        let Room {
            job,
            next,
            before,
            desk,
            has_spoken,
            has_complained,
            told,
            ..
        } = self;
        let archive = desk.into_store();
        let Some(next) = next else {
            return (archive, Round::Done);
        };
        let rounds = Rounds {
            begun: Some(begun),
            tally: before,
            next: Some(next),
            told,
            has_spoken,
            has_complained,
        };
        (archive, Round::NextVolume(job, rounds))
    }

    /// Tells of scripts that are not used, before anything else is said.
    fn speak(&mut self)
        ensures { IsQuiet self.old self.new }
    {
        if !self.has_spoken {
            self.has_spoken = true;
            let job = &self.job;
            job.log.tell_unused(&job.filing);
        }
    }

    /// Delivers a message to the desk, within the time that it may take.
    fn deliver_now(&mut self, message: Payload) -> Result<Result<Delivery, DeskFault>, Failure>
        ensures delivered { IfOk result (λ done. (octets : List ℕ)
            → IsOf greatest_message message octets
            → IsDeliveredNow A.keeper self.old octets done self.new) }
        ensures undelivered { IfErr result (λ e. self.new.desk ≡ self.old.desk) }
        ensures place { IsAtPlace self.old self.new }
    {
        let rt = self.job.rt;
        let officer = self.job.filing.officer.as_bytes();
        let on_fault = self.job.filing.on_fault;
        let moment = self.timing.moment(rt)?;
        let mut time = TimeLimit::from_now(rt, self.job.filing.limit)?;
        Ok(deliver(
            &mut self.desk,
            officer,
            moment,
            message,
            on_fault,
            &mut time,
        ))
    }

    /// What is known of the fault in which the run over a message ended. The message is read once more for that.
    fn cause_of(&self, name: &str, fault: RunFault) -> Option<Cause> {
        let plan = self.plan.as_ref()?;
        let octets = octets_of(self.job.rt, self.job.maildir, name).ok()?;
        self.job
            .filing
            .cause_of_fault(self.job.rt.alloc(), plan, fault, octets.as_slice())
    }

    /// Reports a capture.
    fn report(&mut self, name: &str, capture: &Capture, undecoded: &[Shown])
        ensures { IsQuiet self.old self.new }
    {
        self.speak();
        let cause = match capture.fault {
            Some(fault) => self.cause_of(name, fault),
            None => None,
        };
        let volume = self.place.volume;
        self.job
            .log
            .report(name, volume, capture, undecoded, cause.as_ref());
    }

    /// Why a message stays whose run ended in a fault.
    fn faulty(&self, name: &str, fault: RunFault) -> Reason
        ensures { IsGivenUp result }
    {
        let cause = self.cause_of(name, fault);
        given_up(given_up_words(self.job.rt.alloc(), fault, cause.as_ref()))
    }

    /// That a message stays. Its capture is dropped.
    fn refused(&mut self, reason: Reason) -> Refusal<Failure>
        ensures reason { result ≡ Stays reason }
        ensures dropped { IsDropped A.keeper self.old.desk self.new.desk }
        ensures place { IsAtPlace self.old self.new }
    {
        self.desk.drop_flights();
        Refusal::Stays(reason)
    }

    /// Why a message was not captured.
    fn refusal_of(&mut self, name: &str, fault: DeskFault) -> Refusal<Failure>
        ensures refusal { IsRefusal fault result }
        ensures left { IsLeftBy A.keeper result self.old.desk self.new.desk }
        ensures place { IsAtPlace self.old self.new }
    {
        match desk_status(fault) {
            None => self.refused(Reason::NoMemory),
            Some(status) => {
                let number = fault.refusal().number;
                Refusal::Ends(Failure::numbered(self.job.rt.alloc(), status, name, number))
            }
        }
    }

    /// What is answered of a message, by what the desk answered, with what is told of its undecoded words.
    fn answer_to(
        &mut self,
        name: &str,
        done: Result<Delivery, DeskFault>,
        undecoded: &[Shown],
    ) -> Result<Taken, Refusal<Failure>>
        ensures answer { IsAnswer taken_of done result }
        ensures left { IsLeft A.keeper result self.old.desk self.new.desk }
        ensures place { IsAtPlace self.old self.new }
    {
        match done {
            Ok(Delivery::Captured(capture)) => {
                self.report(name, &capture, undecoded);
                Ok(taken_by(&capture))
            }
            Ok(Delivery::GivenUp(fault)) => {
                let reason = self.faulty(name, fault);
                Err(self.refused(reason))
            }
            Ok(Delivery::OutOfTime) => {
                let reason = given_up(too_slow_reason(self.job.rt.alloc(), self.job.filing.limit));
                Err(self.refused(reason))
            }
            Err(fault) => Err(self.refusal_of(name, fault)),
        }
    }

    /// Hands a message to the desk.
    fn hand_over(&mut self, name: &str, octets: Vec<u8>) -> Result<Taken, Refusal<Failure>>
        ensures handed_over { IsHandedOver A.keeper self.old octets.items result self.new }
        ensures place { IsAtPlace self.old self.new }
    {
        let message = Payload::Whole(octets);
        let undecoded = undecoded_in(self.job.rt.alloc(), &message);
        match self.deliver_now(message) {
            Ok(done) => self.answer_to(name, done, undecoded.as_slice()),
            Err(failure) => Err(Refusal::Ends(failure)),
        }
    }

    /// Makes the moves so far last over a power cut. The failure is that of the Maildir.
    fn settle_moves(&self) -> Result<(), Failure>
        ensures { IfErr result IsOfMaildir }
    {
        match settle(self.job.rt, self.job.maildir) {
            Ok(()) => Ok(()),
            Err(error) => Err(maildir_failure(self.job.rt, self.job.maildir, error)),
        }
    }

    /// The name of a message with which the next round is to begin, once the moves so far last.
    fn settled_before(&self, name: &str) -> Result<String, Failure>
        ensures name { IfOk result (λ next. string_bytes next ≡ name.now) }
        ensures failed { IfErr result IsOfMaildir }
    {
        self.settle_moves()?;
        Ok(String::from_str(self.job.rt.alloc(), name)?)
    }

    /// Ends the round at the message of a name, with which the next one begins. What is answered is told only where that fails.
    fn end_before(&mut self, name: &str) -> Failure
        ensures desk { self.new.desk ≡ self.old.desk }
        ensures next { GoesOnWith name.now result self.new.next }
    {
        match self.settled_before(name) {
            Ok(next) => {
                self.next = Some(next);
                Failure::Reported(Status::TryAgain)
            }
            Err(failure) => {
                self.next = None;
                failure
            }
        }
    }

    /// Counts a message of so many octets where it was captured.
    fn count(&mut self, octets: usize, answer: &Result<Taken, Refusal<Failure>>)
        ensures desk { self.new.desk ≡ self.old.desk }
        ensures space { self.new.place.space ≡
            space_after answer.now octets self.old.place.space }
        ensures next { self.new.next ≡ self.old.next }
    {
        match answer {
            Ok(Taken::Captured) => self.place.space.count(octets),
            Ok(Taken::Discarded) | Err(_) => {}
        }
    }

    /// Hands a message to the desk while there is space in the volume. Else the round ends at it.
    fn capture_while_space(
        &mut self,
        name: &str,
        octets: Vec<u8>,
    ) -> Result<Taken, Refusal<Failure>>
        ensures full { is_full_space self.old.place.space ≡ true
            → EndsRound self.old name.now result self.new }
        ensures taken { is_full_space self.old.place.space ≡ false
            → TakesOne A.keeper self.old octets.items result self.new }
    {
        if self.place.space.is_full() {
            return Err(Refusal::Ends(self.end_before(name)));
        }
        let length = octets.len();
        let answer = self.hand_over(name, octets);
        self.count(length, &answer);
        answer
    }

    /// Hears that messages stay whose names are no UTF-8, once no message is left for a next round. It is told how many, unless that was told
    /// on this day.
    pub fn hear_nameless(&mut self, count: usize, memory: &Memory, day: u64)
        ensures { IsQuiet self.old self.new }
    {
        if count == 0 || self.is_full() {
            return;
        }
        let number = count.to_string(self.job.rt.alloc());
        let words = match &number {
            Ok(number) => number.as_str(),
            Err(_) => "",
        };
        if memory.is_to_be_told(&[], words.as_bytes(), day) {
            self.job.log.tell_nameless(count);
        }
        if let Ok(told) = told_of(self.job.rt.alloc(), "", words) {
            let _ = self.told.push(told);
        }
    }
}

impl<'a, A: Records> Mailroom for Room<'a, A> {
    type Fault = Failure;

    ghost made = { Made A.keeper };

    // What the system's files have, no contract says.
    ghost has = { λ _ _. ⊥ };

    fn list(&mut self) -> Result<Listing, Failure> {
        let none = NewMail {
            names: Vec::new(self.job.rt.alloc()),
            nameless: 0,
        };
        let mail = mem::replace(&mut self.mail, none);
        Ok(Listing {
            names: mail.names,
            nameless: mail.nameless,
        })
    }

    fn read(&mut self, name: &str) -> Result<Vec<u8>, Reason> {
        octets_of(self.job.rt, self.job.maildir, name)
    }

    fn capture(&mut self, name: &str, octets: Vec<u8>) -> Result<Taken, Refusal<Failure>> {
        self.capture_while_space(name, octets)
    }

    fn file_away(&mut self, name: &str) -> Result<(), Failure> {
        match move_to_cur(self.job.rt, self.job.maildir, name) {
            Ok(()) => {
                self.taken = self.taken.saturating_add(1);
                self.job.log.show_progress(self.taken);
                Ok(())
            }
            Err(error) => {
                let text = not_moved(self.job.rt.alloc(), name, &error);
                Err(Failure::shown(Status::TryAgain, text))
            }
        }
    }

    fn tell(&mut self, name: &str, reason: &Reason) {
        self.speak();
        self.job.log.name_one(name, reason.words());
    }

    fn remember(&mut self, name: &str, reason: Reason) {
        if let Ok(told) = told_of(self.job.rt.alloc(), name, reason.words()) {
            let _ = self.told.push(told);
        }
    }

    fn settle(&mut self) -> Result<(), Failure> {
        self.settle_moves()
    }
}
