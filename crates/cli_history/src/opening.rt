//! The ledger of an archive.

ghost use Rattle.std.specs.Prelude.{◌≡◌, IfErr, IfOk, IfSome};
ghost use Rattle.record_archive.specs.Archive.{Archive};
ghost use Rattle.record_ledger.specs.Ledgers.{store_of as store_in};
ghost use Rattle.record_noted.specs.Openings.{Opens, OpensHistory};
ghost use Rattle.record_store.specs.Stores.{StandsFor};
ghost use Rattle.cli_history.specs.Authors.{IsOccasion, IsOccasionOf};
ghost use Rattle.cli_history.specs.Openings.{OpensFor};
ghost use Rattle.record_store.specs.declared.store.Store.{Store};
ghost use Rattle.cli_history.specs.declared.seals.Seals.{Seals};
ghost use Rattle.cli_history.specs.Reasons.{changes as is_changed_for, decides as is_decided_for, ends as is_ended_for};

use crate::author::Author;
use crate::restating::{Ready, prepared};
use crate::seals::Seals;
use cli_console::{Failure, Status, now};
use record_history::Filing;
use record_ledger::{Ledger, Occasion};
use record_noted::{NotedStore, OpenFault, Opened};
use record_store::Store;
use sqlite::Alter;
use std::alloc::Global;

/// The ledger of a store, by the clock of the system.
pub type StoreLedger<'a, S> = Ledger<'a, S, HostRuntime>;

/// The failure of a history that is not opened.
fn open_failure(alloc: Global, fault: OpenFault) -> Failure {
    match fault {
        OpenFault::NoHistory => Failure::told(
            alloc,
            Status::BadData,
            "the table event of the store is no history, or its last event is damaged",
        ),
        OpenFault::Store(fault) => Failure::of_store(alloc, "the history", fault),
    }
}

/// For what a ledger is opened.
#[derive(Clone, Copy)]
pub enum Purpose {
    /// To list what is due. Nothing is changed.
    Listing,
    /// To capture mail, for which no reason is required.
    Capturing,
    /// To keep records from destruction. A history may require a reason for that.
    Keeping,
    /// To do what can end the keeping of records. A history may require a reason for that, and it is refused while something
    /// that was found is not accepted.
    Ending,
}

impl Purpose {
    /// Whether the archive is changed.
    fn changes(self) -> bool
        ensures { result ≡ is_changed_for self }
    {
        matches!(
            self,
            Purpose::Capturing | Purpose::Keeping | Purpose::Ending
        )
    }

    /// Whether a history may require a reason.
    pub fn decides(self) -> bool
        ensures { result ≡ is_decided_for self }
    {
        matches!(self, Purpose::Keeping | Purpose::Ending)
    }

    /// Whether the keeping of records can end.
    pub fn ends(self) -> bool
        ensures { result ≡ is_ended_for self }
    {
        matches!(self, Purpose::Ending)
    }
}

/// The occasion of what is noted under a name for a reason. It begins at the moment of the clock, and has no notes. `TryAgain`
/// where there is no clock.
pub fn occasion_by<'a>(
    rt: &'a HostRuntime,
    who: &'a [u8],
    reason: &'a str,
    filing: Option<Filing<'a>>,
) -> Result<Occasion<'a, HostRuntime>, Failure>
    ensures { IfOk result (IsOccasion who.now reason.now filing.entry) }
{
    Ok(Occasion {
        clock: rt,
        begun: now(rt)?,
        who,
        reason: reason.as_bytes(),
        notes: b"",
        filing,
    })
}

/// The occasion of an author's changes. `TryAgain` where there is no clock.
pub fn occasion_of<'a>(
    rt: &'a HostRuntime,
    author: &'a Author<'_>,
    filing: Option<Filing<'a>>,
) -> Result<Occasion<'a, HostRuntime>, Failure>
    ensures { IfOk result (IsOccasionOf author.now filing.entry) }
{
    let who = author.name().unwrap_or("").as_bytes();
    occasion_by(rt, who, author.reason(), filing)
}

/// Opens the history of a store, or the store as it is where it keeps none. `BadData` where the history is damaged. A failure
/// hands the store back.
pub fn open_history<S: Alter>(
    rt: &HostRuntime,
    archive: Store<S>,
) -> Result<Opened<S>, (Store<S>, Failure)>
    ensures ok { IfOk result (Opens S.Store archive) }
    ensures err { IfErr result (λ e. (a : Archive) → StandsFor S.Store archive a
        → StandsFor S.Store e.0 a) }
{
    match NotedStore::open(rt.alloc(), archive) {
        Ok(opened) => Ok(opened),
        Err((fault, archive)) => Err((archive, open_failure(rt.alloc(), fault))),
    }
}

/// Opens the history of a store. `BadData` where it is damaged, or where the store keeps none. A failure hands the store back.
pub fn open_noted<S: Alter>(
    rt: &HostRuntime,
    archive: Store<S>,
) -> Result<NotedStore<S>, (Store<S>, Failure)>
    ensures ok { IfOk result (OpensHistory S.Store archive) }
    ensures err { IfErr result (λ e. (a : Archive) → StandsFor S.Store archive a
        → StandsFor S.Store e.0 a) }
{
    match open_history(rt, archive) {
        Ok(Opened::Noted(noted)) => Ok(noted),
        Ok(Opened::Plain(archive)) => {
            let failure = Failure::told(
                rt.alloc(),
                Status::BadData,
                "the store has no history; history --begin begins one",
            );
            Err((archive, failure))
        }
        Err(refusal) => Err(refusal),
    }
}

/// A store that is open for a change, and the seals that its history tells.
#[derive(Drop)]
struct Open<S: Alter> {
    opened: Opened<S>,
    seals: Seals,
}

/// Prepares a history that was opened for a change, and takes its seals. A failure is that of `open_ledger`.
fn open_for_change<S: Alter>(
    rt: &HostRuntime,
    noted: NotedStore<S>,
    author: &Author<'_>,
    purpose: Purpose,
) -> Result<Open<S>, (Store<S>, Failure)>
    ensures { (store : Store S) → OpensHistory S.Store store noted
        → IfOk result (λ o. OpensFor S.Store purpose author.now store o.seals o.opened) }
{
    match prepared(rt, noted, author, purpose) {
        Ok(prepared) => Ok(open_of(rt.alloc(), prepared)),
        Err(refusal) => Err(refusal),
    }
}

/// Opens the history of a store for a purpose, or the store as it is where it keeps none. A failure is that of `open_ledger`.
fn open_for<S: Alter>(
    rt: &HostRuntime,
    archive: Store<S>,
    author: &Author<'_>,
    purpose: Purpose,
) -> Result<Open<S>, (Store<S>, Failure)>
    ensures { IfOk result (λ o. OpensFor S.Store purpose author.now archive o.seals o.opened) }
{
    let opened = match open_history(rt, archive) {
        Ok(opened) => opened,
        Err(refusal) => return Err(refusal),
    };
    let seals = Seals::none(rt.alloc());
    if !purpose.changes() {
        return Ok(Open { opened, seals });
    }
    match opened {
        Opened::Noted(noted) => open_for_change(rt, noted, author, purpose),
        Opened::Plain(archive) => Ok(Open {
            opened: Opened::Plain(archive),
            seals,
        }),
    }
}

/// The store of a history that is ready for a change.
fn open_of<S: Alter>(alloc: Global, prepared: Ready<S>) -> Open<S>
    ensures noted { result.opened ≡ Opened.Noted prepared.noted }
    ensures seals { IfSome prepared.replayed.seals (λ s. result.seals ≡ s) }
{
    let Ready {
        noted,
        replayed,
        ..
    } = prepared;
    Open {
        opened: Opened::Noted(noted),
        seals: replayed.into_seals(alloc),
    }
}

/// The store that was opened.
fn store_of<S: Alter>(opened: Opened<S>) -> Store<S>
    ensures { result ≡ store_in opened }
{
    match opened {
        Opened::Noted(noted) => noted.into_store(),
        Opened::Plain(archive) => archive,
    }
}

/// Opens the ledger of a store for an author's purpose, with the rules by which messages are filed, and answers beside it the
/// seals of messages that its history tells, where the purpose can end the keeping of records. Its changes are noted under the
/// author's name, and for the author's reason. Where the store keeps a history and is to be changed, the history is done again
/// first: what another program has changed is told, and all that is there is noted as found.
///
/// `Usage` where it is not known then who changes the archive, or where the history requires a reason and none is given;
/// `BadData` where the history is damaged, or where the purpose can end the keeping of records while something that was found
/// is not accepted. A failure hands the store back.
pub fn open_with_seals<'a, S: Alter>(
    rt: &'a HostRuntime,
    archive: Store<S>,
    author: &'a Author<'_>,
    filing: Option<Filing<'a>>,
    purpose: Purpose,
) -> Result<(StoreLedger<'a, S>, Seals), (Store<S>, Failure)>
    ensures opens { IfOk result (λ x.
        OpensFor S.Store purpose author.now archive x.1 x.0.kept) }
    ensures occasion { IfOk result (λ x. IsOccasionOf author.now filing.entry x.0.occasion) }
{
    let Open { opened, seals } = match open_for(rt, archive, author, purpose) {
        Ok(open) => open,
        Err(refusal) => return Err(refusal),
    };
    match occasion_of(rt, author, filing) {
        Ok(occasion) => Ok((Ledger::of(rt.alloc(), opened, occasion), seals)),
        Err(failure) => Err((store_of(opened), failure)),
    }
}

/// The same ledger alone.
pub fn open_ledger<'a, S: Alter>(
    rt: &'a HostRuntime,
    archive: Store<S>,
    author: &'a Author<'_>,
    filing: Option<Filing<'a>>,
    purpose: Purpose,
) -> Result<StoreLedger<'a, S>, (Store<S>, Failure)>
    ensures opens { IfOk result (λ ledger. (seals : Seals)
        × OpensFor S.Store purpose author.now archive seals ledger.kept) }
    ensures occasion { IfOk result (λ l. IsOccasionOf author.now filing.entry l.occasion) }
{
    match open_with_seals(rt, archive, author, filing, purpose) {
        Ok((ledger, _)) => Ok(ledger),
        Err(refusal) => Err(refusal),
    }
}
