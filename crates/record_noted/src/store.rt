//! The store with its history, and the history's beginning.

ghost use Rattle.std.specs.Prelude.{◌≡◌, ◌<◌, ℕ, List, [], map, IfOk, IfErr, OnOk};
ghost use Rattle.record_history.specs.Chain.{mark_after};
ghost use Rattle.record_history.specs.Laws.{Told};
ghost use Rattle.record_archive.specs.Archive.{Archive, empty_archive};
ghost use Rattle.record_store.specs.Stores.{StandsFor};
ghost use Rattle.record_noted.specs.Histories.{IsTrouble, StandsWith, StandsTold};

use crate::founding::lay_history;
use crate::rows::number_after;
use record_history::{commands_are_told, next_mark};
use record_store::{Store, StoreFault};
use sqlite::Alter;
use std::alloc::Global;

/// A store, and the end of its history.
pub struct NotedStore<S: Alter> {
    pub(crate) alloc: Global,
    pub(crate) store: Store<S>,
    /// The number of the next event.
    pub(crate) next: u32,
    /// The mark of the last event; empty where there is none.
    pub(crate) mark: Vec<u8>,
}

impl<S: Alter + Drop> Drop for NotedStore<S> {
    fn drop(self) {
        let NotedStore {
            alloc: _,
            store: _,
            next: _,
            mark: _,
        } = self;
    }
}

impl<S: Alter> NotedStore<S> {
    /// Begins the history of a store, without an event: the table of events is created.
    ///
    /// Refused with 89 (`sqlite`), as where there is a table `event`, or with 99 (no memory). A refusal returns the
    /// store, which stands for the archive that it stood for.
    pub fn begin(alloc: Global, store: Store<S>) -> Result<NotedStore<S>, (StoreFault, Store<S>)>
        ensures ok { IfOk result (λ s. (a : Archive) → StandsFor S.Store store a →
            StandsWith S.Store s a []) }
        ensures told { IfOk result (λ s. StandsFor S.Store store empty_archive →
            StandsTold S.Store s empty_archive) }
        ensures err { IfErr result (λ e. (a : Archive) → StandsFor S.Store store a →
            StandsFor S.Store e.1 a) }
    {
        commands_are_told();
        NotedStore::begin_with(alloc, store, &[])
    }

    /// Begins the history of a store with lines, in one transaction.
    ///
    /// Refused with 89 (`sqlite`, as where there is a table `event`, or more than 4,294,967,294 lines) or with 99 (no memory).
    /// A refusal returns the store, which stands for the archive that it stood for.
    pub fn begin_with(
        alloc: Global,
        mut store: Store<S>,
        lines: &[Vec<u8>],
    ) -> Result<NotedStore<S>, (StoreFault, Store<S>)>
        ensures ok { IfOk result (λ s. (a : Archive) → StandsFor S.Store store a →
            StandsWith S.Store s a (map (λ l. l.items) lines.now)) }
        ensures told { IfOk result (λ s. (a : Archive) → StandsFor S.Store store a →
            Told a (map (λ l. l.items) lines.now) → StandsTold S.Store s a) }
        ensures err { IfErr result (λ e. (a : Archive) → StandsFor S.Store store a →
            StandsFor S.Store e.1 a) }
    {
        match lay_history(alloc, &mut store, lines) {
            Ok((next, mark)) => Ok(NotedStore {
                alloc,
                store,
                next,
                mark,
            }),
            Err(fault) => Err((fault, store)),
        }
    }

    /// The number of the next event, which its line begins with.
    pub fn next(&self) -> u32
        ensures { result ≡ self.now.next }
    {
        self.next
    }

    /// The mark of the last event: 64 hexadecimal digits, or none where there is no event.
    pub fn mark(&self) -> &[u8]
        ensures { result.now ≡ self.now.mark.items }
    {
        self.mark.as_slice()
    }

    /// The mark of the next event, which has this line. Refused with 89 after 4,294,967,294 events (`NoRowid`), or with
    /// 99 (no memory).
    pub(crate) fn mark_of(&self, line: &[u8]) -> Result<Vec<u8>, StoreFault>
        ensures mark { IfOk result (λ m. m.items ≡
            mark_after self.now.mark.items line.now) }
        ensures room { OnOk result (self.now.next < 4294967295) }
        ensures trouble { IsTrouble result }
    {
        number_after(self.next)?;
        let mark = next_mark(self.alloc, self.mark.as_slice(), line)?;
        Ok(mark.into_bytes())
    }

    /// The store, to look at.
    pub fn store(&self) -> &Store<S>
        ensures { result.now ≡ self.now.store }
    {
        &self.store
    }

    /// Ends the history that is kept beside the connection, and returns the store.
    pub fn into_store(self) -> Store<S>
        ensures { result ≡ self.store }
    {
        let NotedStore {
            alloc: _,
            store,
            next: _,
            mark: _,
        } = self;
        store
    }
}
