//! A history that is done again, before its archive is changed.

ghost use Rattle.std.specs.Prelude.{◌≡◌, ◌++◌, ◌∷◌, [], ℕ, None, List, map, IfOk, IfSome, OnOk, is_some};
ghost use Rattle.record_history.specs.Views.{deed_view};
ghost use Rattle.cli_console.specs.Failures.{IsToldAs};
ghost use Rattle.cli_history.specs.Reasons.{are_required, ends};
ghost use Rattle.cli_history.specs.Replays.{Replays};
ghost use Rattle.cli_history.specs.Seals.{KeepsSeal, known};
ghost use Rattle.cli_history.specs.Walks.{ForArchive, Looks};
ghost use Rattle.cli_history.specs.declared.opening.Purpose.{Purpose};

use crate::findings::Findings;
use crate::flaws::failure_of;
use crate::opening::Purpose;
use crate::pages::{Events, judged_event_of};
use crate::seals::Seals;
use cli_console::{Failure, Status};
use record_history::{Deed, Event, LineFault, read_line};
use record_judge::{Judge, SealedArchive};
use record_noted::NotedStore;
use record_store::EventRow;
use sqlite::Alter;
use std::alloc::{AllocError, Global};

/// What a history makes, and what it asks of those who decide.
pub struct Replayed {
    judge: Judge,
    requires_reasons: bool,
    findings: Findings,
    /// The seals that it tells of messages, where records may be destroyed.
    seals: Option<Seals>,
}

impl Drop for Replayed {
    fn drop(self) {
        let Replayed {
            judge: _,
            requires_reasons: _,
            findings: _,
            seals: _,
        } = self;
    }
}

/// Whether reasons are required after a deed, by whether they were before it.
fn requires_after(is_before: bool, deed: &Deed<'_>) -> bool
    ensures { result ≡ are_required is_before (deed_view deed.now) }
{
    match deed {
        Deed::ReasonsRequired => true,
        Deed::ReasonsOptional => false,
        Deed::Captured { .. }
        | Deed::Held { .. }
        | Deed::Released { .. }
        | Deed::Refiled { .. }
        | Deed::Destroyed { .. }
        | Deed::ClassAdded { .. }
        | Deed::PlanReplaced(_)
        | Deed::Titled { .. }
        | Deed::FindingsAccepted
        | Deed::FoundPlan(_)
        | Deed::FoundMessage { .. }
        | Deed::FoundRecord { .. }
        | Deed::FoundHold { .. } => is_before,
    }
}

/// No seals where they are kept: for what can end the keeping of records.
fn seals_for(alloc: Global, purpose: Purpose) -> Option<Seals>
    ensures kept { is_some result ≡ ends purpose }
    ensures none { IfSome result (λ s. (n : ℕ) → known s n ≡ None) }
{
    if purpose.ends() {
        return Some(Seals::none(alloc));
    }
    None
}

/// Why a line of what was found is not read: it is none of an event, or there is no memory.
fn unread_failure(alloc: Global, fault: LineFault) -> Failure
    ensures memory { fault ≡ LineFault.NoMemory → result ≡ Failure.NoMemory }
    ensures line { fault ≡ LineFault.NotALine → IsToldAs Status.BadData result }
{
    match fault {
        LineFault::NoMemory => Failure::NoMemory,
        LineFault::NotALine => Failure::told(
            alloc,
            Status::BadData,
            "a line of what is found would be none of an event",
        ),
    }
}

impl Replayed {
    /// No event, done again for a purpose.
    fn new(alloc: Global, purpose: Purpose) -> Result<Replayed, AllocError>
        ensures { IfOk result (λ r. Replays purpose r []) }
    {
        Ok(Replayed {
            judge: Judge::new(alloc)?,
            requires_reasons: false,
            findings: Findings::none(alloc),
            seals: seals_for(alloc, purpose),
        })
    }

    /// Keeps the seal that a deed tells, if seals are kept.
    fn keep_seal(&mut self, number: u32, deed: Deed<'_>) -> Result<(), AllocError>
        ensures rest { self.new ≡ record self.old { seals = self.new.seals } }
        ensures seals { OnOk result (KeepsSeal number (deed_view deed.entry)
            self.old.seals self.new.seals) }
    {
        match &mut self.seals {
            Some(seals) => seals.take(number, deed),
            None => Ok(()),
        }
    }

    /// Does an event again.
    fn take(&mut self, alloc: Global, row: &EventRow) -> Result<(), Failure>
        ensures { (purpose : Purpose) → (ls : List (List ℕ)) → Replays purpose self.old ls
            → OnOk result (Replays purpose self.new (ls ++ row.now.line.items ∷ [])) }
    {
        let taken = self
            .judge
            .take(row.number, row.line.as_slice(), row.mark.as_slice());
        if let Err(flaw) = taken {
            return Err(failure_of(alloc, row.number, flaw));
        }
        let event = judged_event_of(alloc, row)?;
        self.requires_reasons = requires_after(self.requires_reasons, &event.deed);
        self.findings.take(row.number, &event)?;
        let Event { deed, .. } = event;
        Ok(self.keep_seal(row.number, deed)?)
    }

    /// Does the events of a page again.
    #[tactic(auto, using(crate::proofs::ReplayLemmas::page_laws))]
    fn take_page(&mut self, alloc: Global, page: &[EventRow]) -> Result<(), Failure>
        ensures { (purpose : Purpose) → (ls : List (List ℕ)) → Replays purpose self.old ls
            → OnOk result (Replays purpose self.new (ls ++ map (λ r. r.line.items) page.now)) }
    {
        for row in page {
            self.take(alloc, row)?;
        }
        Ok(())
    }

    /// A history, done again for a purpose: all of its events, each of them once and in order. `BadData` where something
    /// stands against an event, which the words name.
    pub fn of<S: Alter>(
        rt: &HostRuntime,
        noted: &mut NotedStore<S>,
        purpose: Purpose,
    ) -> Result<Replayed, Failure>
        ensures looks { Looks S.Store noted.old noted.new }
        ensures replays { IfOk result (λ r.
            ForArchive S.Store noted.old noted.new (λ a ls. Replays purpose r ls)) }
    {
        let mut replayed = Replayed::new(rt.alloc(), purpose)?;
        let mut events = Events::all();
        for _ in 0..u64::MAX {
            let Some(page) = events.next_page(rt, noted)? else {
                return Ok(replayed);
            };
            replayed.take_page(rt.alloc(), page.as_slice())?;
        }
        Ok(replayed)
    }

    /// Takes lines that come behind its events, and tell what was found. `BadData` where one is none of an event.
    pub fn take_found(&mut self, alloc: Global, lines: &[Vec<u8>]) -> Result<(), Failure> {
        for line in lines {
            let (number, event) = match read_line(alloc, line.as_slice()) {
                Ok(read) => read,
                Err(fault) => return Err(unread_failure(alloc, fault)),
            };
            let number = u32::try_from(number).unwrap_or(u32::MAX);
            self.findings.take(number, &event)?;
        }
        Ok(())
    }

    /// What was found behind its beginning.
    pub fn findings(&self) -> &Findings
        ensures { result.now ≡ self.now.findings }
    {
        &self.findings
    }

    /// The seals that it tells of messages; none where no record may be destroyed.
    pub fn into_seals(self, alloc: Global) -> Seals
        ensures { IfSome self.seals (λ s. result ≡ s) }
    {
        let Replayed {
            judge: _,
            requires_reasons: _,
            findings: _,
            seals,
        } = self;
        match seals {
            Some(seals) => seals,
            None => Seals::none(alloc),
        }
    }

    /// What it makes of an archive.
    pub fn archive(&self) -> &SealedArchive
        ensures { result.now ≡ self.now.judge.archive }
    {
        self.judge.archive()
    }

    /// Whether a reason is required of those who decide which records are kept, and how long.
    pub fn requires_reasons(&self) -> bool
        ensures { result ≡ self.now.requires_reasons }
    {
        self.requires_reasons
    }
}
