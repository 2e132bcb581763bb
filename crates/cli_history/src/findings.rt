//! What a program that keeps no history has left, as the events of a history tell it, and whether a person has accepted it.

ghost use Rattle.std.specs.Prelude.{◌≡◌, ◌&&◌, List, []};
ghost use Rattle.record_history.specs.Events.{Event as PlainEvent};
ghost use Rattle.record_history.specs.Views.{deed_view, event_view};
ghost use Rattle.cli_console.specs.Failures.{IsToldAs};
ghost use Rattle.cli_history.specs.Reasons.{ends};
ghost use Rattle.cli_history.specs.Findings.{bearing as bearing_in, is_blocked as is_blocked_by, is_open_at, is_unaccepted, is_unknown as is_unknown_name, stage_after, stage_behind as stage_after_it, stage_of, stage_step};

use crate::differences::GOES_ON;
use crate::opening::Purpose;
use crate::seals::after_blank;
use cli_console::{Failure, Status};
use record_history::{Deed, Event};
use std::alloc::{AllocError, Global};
use std::str;
use tool_texts::{Shown, put};

/// Who stands for a program that keeps no history.
pub const UNKNOWN: &[u8] = b"unknown";

/// What a deed says of findings.
#[derive(Clone, Copy)]
pub(crate) enum Bearing {
    /// A plan was found, which is what comes first.
    Plan,
    /// A message, a record or a hold was found.
    Detail,
    /// A person accepts what was found.
    Acceptance,
    /// Nothing.
    Neither,
}

/// How far a history is, for what was found.
#[derive(Clone, Copy)]
pub(crate) enum Stage {
    /// No event was met.
    Unbegun,
    /// All was found by the person who began the history.
    Beginning,
    /// The beginning is over, and nothing that was found since is without a person's acceptance.
    Settled,
    /// Something is.
    Unaccepted,
}

/// What a deed says of findings.
fn bearing_of(deed: &Deed<'_>) -> Bearing
    ensures { result ≡ bearing_in (deed_view deed.now) }
{
    match deed {
        Deed::FoundPlan(_) => Bearing::Plan,
        Deed::FoundMessage { .. } | Deed::FoundRecord { .. } | Deed::FoundHold { .. } => {
            Bearing::Detail
        }
        Deed::FindingsAccepted => Bearing::Acceptance,
        Deed::Captured { .. }
        | Deed::Held { .. }
        | Deed::Released { .. }
        | Deed::Refiled { .. }
        | Deed::Destroyed { .. }
        | Deed::ClassAdded { .. }
        | Deed::PlanReplaced(_)
        | Deed::Titled { .. }
        | Deed::ReasonsRequired
        | Deed::ReasonsOptional => Bearing::Neither,
    }
}

/// Whether a name stands for a program that keeps no history.
pub(crate) fn is_unknown(who: &[u8]) -> bool
    ensures { result ≡ is_unknown_name who.now }
{
    who == UNKNOWN
}

/// The stage after an event behind the beginning, by whether something is without acceptance before it.
fn stage_behind(is_open: bool, bearing: Bearing) -> Stage
    ensures { result ≡ stage_after_it is_open bearing }
{
    match bearing {
        Bearing::Plan | Bearing::Detail => Stage::Unaccepted,
        Bearing::Acceptance => Stage::Settled,
        Bearing::Neither if is_open => Stage::Unaccepted,
        Bearing::Neither => Stage::Settled,
    }
}

/// The stage after an event, by whether its author is unknown.
fn stage_by(stage: Stage, is_unknown: bool, bearing: Bearing) -> Stage
    ensures { result ≡ stage_step stage is_unknown bearing }
{
    match (stage, bearing) {
        (Stage::Unbegun, Bearing::Plan) if !is_unknown => Stage::Beginning,
        (Stage::Beginning, Bearing::Detail) => Stage::Beginning,
        (Stage::Unaccepted, _) => stage_behind(true, bearing),
        (Stage::Unbegun | Stage::Beginning | Stage::Settled, _) => stage_behind(false, bearing),
    }
}

/// Whether the history is at a stage at which what is done for a purpose is refused.
fn is_blocked(purpose: Purpose, stage: Stage) -> bool
    ensures { result ≡ ends purpose && is_open_at stage }
{
    purpose.ends() && matches!(stage, Stage::Unaccepted)
}

/// Who has accepted findings, and in which event.
#[derive(Drop)]
struct Accepted {
    event: u32,
    who: Vec<u8>,
}

/// Findings that stand one behind the other: what was there after a program that keeps no history.
#[derive(Drop)]
struct Group {
    /// The number of its first event.
    first: u32,
    /// The number of its last event.
    last: u32,
    /// That of its first event, with those in which it goes on.
    reason: Vec<u8>,
}

impl Group {
    /// Adds the numbers of its events, in words.
    fn put_numbers(&self, text: &mut Shown) -> Result<(), AllocError> {
        if self.first == self.last {
            return put!(text; "event " value(&self.first));
        }
        put!(text; "events " value(&self.first) " to " value(&self.last))
    }

    /// Adds an event behind the others. Where the summary of what was done goes on in its reason, that is added too, without who
    /// notes it.
    fn extend(&mut self, number: u32, reason: &[u8]) -> Result<(), AllocError> {
        self.last = number;
        if !self.reason.ends_with(GOES_ON.as_bytes()) {
            return Ok(());
        }
        let kept = self.reason.len().saturating_sub(GOES_ON.len());
        self.reason.truncate(kept);
        self.reason.extend_from_slice(b"; ")?;
        let done = after_blank(after_blank(after_blank(reason)));
        self.reason.extend_from_slice(done)
    }

    /// Who has accepted it first, of those who have accepted findings, in the order of their events.
    fn acceptance<'f>(&self, accepted: &'f [Accepted]) -> Option<&'f Accepted> {
        for acceptance in accepted {
            if acceptance.event > self.last {
                return Some(acceptance);
            }
        }
        None
    }
}

/// Adds a text that is shown as it is, where no character of it is hidden.
fn put_told(text: &mut Shown, octets: &[u8]) -> Result<(), AllocError> {
    match str::from_utf8(octets) {
        Ok(told) => text.value(&told),
        Err(_) => text.escaped(octets),
    }
}

/// The line of a group: its events, whether it was accepted, and what its reason says.
fn group_line(
    alloc: Global,
    group: &Group,
    acceptance: Option<&Accepted>,
) -> Result<Shown, AllocError> {
    let mut line = Shown::new(alloc);
    group.put_numbers(&mut line)?;
    line.words(": found, left by a program without a history; ")?;
    match acceptance {
        Some(acceptance) => {
            put!(line; "accepted in event " value(&acceptance.event) " by ")?;
            put_told(&mut line, acceptance.who.as_slice())?;
        }
        None => line.words("not accepted")?,
    }
    if !group.reason.is_empty() {
        line.words(" : ")?;
        put_told(&mut line, group.reason.as_slice())?;
    }
    line.end_line()?;
    Ok(line)
}

/// The groups of findings behind the beginning of a history, and what was accepted.
struct Groups {
    alloc: Global,
    groups: Vec<Group>,
    /// In the order of their events.
    accepted: Vec<Accepted>,
}

impl Drop for Groups {
    fn drop(self) {
        let Groups {
            alloc: _,
            groups: _,
            accepted: _,
        } = self;
    }
}

/// The greatest number of groups that a failure names.
const MAX_NAMED: usize = 5;

impl Groups {
    /// Adds a group that begins with an event.
    fn begin(&mut self, number: u32, reason: &[u8]) -> Result<(), AllocError> {
        let group = Group {
            first: number,
            last: number,
            reason: Vec::from_slice(self.alloc, reason)?,
        };
        Ok(self.groups.push(group)?)
    }

    /// Adds an event to the last group where it comes directly behind it; else it begins one.
    fn extend(&mut self, number: u32, reason: &[u8]) -> Result<(), AllocError> {
        if let Some(group) = self.groups.last_mut() {
            if group.last.checked_add(1) == Some(number) {
                return group.extend(number, reason);
            }
        }
        self.begin(number, reason)
    }

    /// Adds an event that accepts all groups before it.
    fn accept(&mut self, number: u32, who: &[u8]) -> Result<(), AllocError> {
        let accepted = Accepted {
            event: number,
            who: Vec::from_slice(self.alloc, who)?,
        };
        Ok(self.accepted.push(accepted)?)
    }

    /// Takes an event after which the history is at a stage.
    fn take(
        &mut self,
        number: u32,
        event: &Event<'_>,
        bearing: Bearing,
        stage: Stage,
    ) -> Result<(), AllocError> {
        match (bearing, stage) {
            (Bearing::Plan, Stage::Unaccepted) => self.begin(number, event.reason),
            (Bearing::Detail, Stage::Unaccepted) => self.extend(number, event.reason),
            (Bearing::Acceptance, _) => self.accept(number, event.who),
            _ => Ok(()),
        }
    }

    /// The lines of all groups, accepted or not.
    fn lines(&self) -> Result<Vec<Shown>, AllocError> {
        let mut lines = Vec::new(self.alloc);
        for group in &self.groups {
            let acceptance = group.acceptance(self.accepted.as_slice());
            lines.push(group_line(self.alloc, group, acceptance)?)?;
        }
        Ok(lines)
    }

    /// Adds the numbers of the events that are not accepted, of the first groups of them.
    fn put_unaccepted(&self, text: &mut Shown) -> Result<(), AllocError> {
        let mut named: usize = 0;
        for group in &self.groups {
            if group.acceptance(self.accepted.as_slice()).is_some() {
                continue;
            }
            if named == MAX_NAMED {
                return text.words(" and more");
            }
            if named > 0 {
                text.words(", ")?;
            }
            group.put_numbers(text)?;
            named = named.saturating_add(1);
        }
        Ok(())
    }

    /// That what was found is not accepted, and how it is.
    fn unaccepted_words(&self) -> Result<Shown, AllocError> {
        let mut text = Shown::new(self.alloc);
        self.put_unaccepted(&mut text)?;
        text.words(
            ": left by a program without a history, and not accepted; look at it, and accept it by history --accept-found --by NAME --reason TEXT",
        )?;
        Ok(text)
    }
}

/// What was found behind the beginning of a history.
#[derive(Drop)]
pub struct Findings {
    stage: Stage,
    groups: Groups,
}

impl Findings {
    /// Those of no event.
    pub fn none(alloc: Global) -> Findings
        ensures { result.stage ≡ stage_of [] }
    {
        Findings {
            stage: Stage::Unbegun,
            groups: Groups {
                alloc,
                groups: Vec::new(alloc),
                accepted: Vec::new(alloc),
            },
        }
    }

    /// Takes the next event of a history, which has this number. The only refusal is no memory.
    pub fn take(&mut self, number: u32, event: &Event<'_>) -> Result<(), AllocError>
        ensures { self.new.stage ≡ stage_after self.old.stage (event_view event.now) }
    {
        let bearing = bearing_of(&event.deed);
        let stage = stage_by(self.stage, is_unknown(event.who), bearing);
        self.stage = stage;
        self.groups.take(number, event, bearing, stage)
    }

    /// Whether something that was found is not accepted.
    pub fn is_unaccepted(&self) -> bool
        ensures { result ≡ is_open_at self.now.stage }
    {
        matches!(self.stage, Stage::Unaccepted)
    }

    /// Whether what is done for a purpose is refused, since it can end the keeping of records, and something that was found
    /// is not accepted.
    pub fn blocks(&self, purpose: Purpose) -> bool
        ensures told { (es : List PlainEvent) → self.now.stage ≡ stage_of es
            → result ≡ is_blocked_by purpose es }
        ensures stage { result ≡ ends purpose && is_open_at self.now.stage }
    {
        is_blocked(purpose, self.stage)
    }

    /// The lines of all groups of findings, accepted or not.
    pub fn lines(&self) -> Result<Vec<Shown>, AllocError> {
        self.groups.lines()
    }

    /// That something is not accepted, with the numbers of its events.
    pub fn unaccepted_words(&self) -> Result<Shown, AllocError> {
        self.groups.unaccepted_words()
    }

    /// The failure of what may not be done until findings are accepted: `BadData`, with the numbers of their events.
    pub fn failure(&self) -> Failure
        ensures { IsToldAs Status.BadData result }
    {
        Failure::shown(Status::BadData, self.groups.unaccepted_words())
    }
}

/// The law of the stages: what is not accepted of any events is what the last stage says. The function does nothing.
pub fn findings_are_told()
    ensures { (es : List PlainEvent) → is_open_at (stage_of es) ≡ is_unaccepted es }
{}
