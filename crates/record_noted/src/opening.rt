//! A history that is there is opened.

ghost use Rattle.std.specs.Prelude.{◌≡◌, true, option_map, IfOk, IfErr};
ghost use Rattle.record_reads.specs.Events.{event_of};
ghost use Rattle.record_store.specs.Faults.{is_own};
ghost use Rattle.record_noted.specs.Openings.{Opens, OpensHistory, RefusesToOpen, end_after};

use crate::store::NotedStore;
use record_store::{Cause, EventLayout, EventRow, Store, StoreFault};
use sqlite::Alter;
use std::alloc::Global;

/// A store that is opened with its history, or without one where it has none.
#[derive(Drop)]
pub enum Opened<S: Alter> {
    /// A history is kept beside the archive.
    Noted(NotedStore<S>),
    /// The database has no table of events.
    Plain(Store<S>),
}

/// Why a history is not opened.
#[derive(Clone, Copy)]
pub enum OpenFault {
    /// The table `event` is none of events, or its last row is none of a history.
    NoHistory,
    /// The database refuses (89), or memory runs out (99).
    Store(StoreFault),
}

/// The number of the next event, and the mark of the last one. `None` where no number is left.
fn end_of(alloc: Global, last: Option<EventRow>) -> Option<(u32, Vec<u8>)>
    ensures { option_map (λ x. (x.0, x.1.items)) result ≡ end_after (option_map event_of last) }
{
    let Some(last) = last else {
        return Some((1, Vec::new(alloc)));
    };
    let next = last.number.checked_add(1)?;
    Some((next, last.mark))
}

fn refusal_of(fault: StoreFault) -> OpenFault
    ensures none { result ≡ OpenFault.NoHistory → is_own fault ≡ true }
{
    match fault {
        StoreFault::Database(Cause::Lost) => OpenFault::NoHistory,
        other => OpenFault::Store(other),
    }
}

impl<S: Alter> NotedStore<S> {
    /// Opens the history of a database with a table of events.
    fn open_events(
        alloc: Global,
        mut store: Store<S>,
    ) -> Result<NotedStore<S>, (OpenFault, Store<S>)>
        ensures ok { IfOk result (OpensHistory S.Store store) }
        ensures err { IfErr result (λ e. RefusesToOpen S.Store store e.0 e.1) }
    {
        let last = match store.last_event() {
            Ok(last) => last,
            Err(fault) => return Err((refusal_of(fault), store)),
        };
        match end_of(alloc, last) {
            Some((next, mark)) => Ok(NotedStore {
                alloc,
                store,
                next,
                mark,
            }),
            None => Err((OpenFault::NoHistory, store)),
        }
    }

    /// Opens the history of a store, by its last event alone; or the store as it is where its database has no table of
    /// events.
    ///
    /// Refused as `NoHistory` where the table `event` is none of events, or its last row is none of a history; with 89
    /// (`sqlite`) or with 99 (no memory). A refusal returns the store, which stands for the archive that it stood for.
    /// Whether the lines explain the archive is not read here.
    #[tactic(auto, using(crate::proofs::OpeningLemmas::refused_layout))]
    pub fn open(alloc: Global, store: Store<S>) -> Result<Opened<S>, (OpenFault, Store<S>)>
        ensures ok { IfOk result (Opens S.Store store) }
        ensures err { IfErr result (λ e. RefusesToOpen S.Store store e.0 e.1) }
    {
        match store.event_layout() {
            EventLayout::Absent => Ok(Opened::Plain(store)),
            EventLayout::Present => match NotedStore::open_events(alloc, store) {
                Ok(noted) => Ok(Opened::Noted(noted)),
                Err(refusal) => Err(refusal),
            },
            EventLayout::Other => Err((OpenFault::NoHistory, store)),
        }
    }
}
