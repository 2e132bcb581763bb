//! The events of a history, as they are read.

ghost use Rattle.std.specs.Prelude.{◌≡◌, ◌-◌, ℕ, List, map, take, drop, IfOk};
ghost use Rattle.sqlite.specs.State.{HasCleanDisk};
ghost use Rattle.sqlite.specs.Held.{state};
ghost use Rattle.record_reads.specs.Events.{event_of, events_from};
ghost use Rattle.record_tables.specs.Events.{Event as Row, StoresEvents};
ghost use Rattle.record_tables.specs.Steps.{Learns};
ghost use Rattle.record_archive.specs.Archive.{Archive};
ghost use Rattle.record_store.specs.Events.{LosesMisfits, ReadsBeside};
ghost use Rattle.record_noted.specs.Histories.{StandsWith, rows_of};

use crate::store::NotedStore;
use record_store::{EventRow, StoreFault};
use sqlite::Alter;

impl<S: Alter> NotedStore<S> {
    /// The events from a number on, in the order of their numbers, at most `most` of them, each with its line and its mark.
    /// Only these rows are read, so a walk in pages takes the memory of one page.
    ///
    /// The only refusals are 89 (`sqlite`, or a row that is no event) and 99 (no memory).
    pub fn events(&mut self, from: u32, most: u32) -> Result<Vec<EventRow>, StoreFault>
        ensures stored { Learns S.Store self.old.store.conn self.new.store.conn result
            (λ db all. (es : List Row) → StoresEvents db es →
            map event_of all.items ≡ take most (events_from from es)) }
        ensures page { (a : Archive) → (ls : List (List ℕ)) → StandsWith S.Store self.old a ls →
            HasCleanDisk (state S.Store self.new.store.conn) → IfOk result
            (λ all. map event_of all.items ≡ take most (drop (from - 1) (rows_of ls))) }
        ensures lost { LosesMisfits S.Store self.old.store self.new.store result }
        ensures stands { (a : Archive) → (ls : List (List ℕ)) →
            StandsWith S.Store self.old a ls → StandsWith S.Store self.new a ls }
        ensures beside { ReadsBeside S.Store self.old.store self.new.store result }
    {
        self.store.events_from(from, most)
    }
}
