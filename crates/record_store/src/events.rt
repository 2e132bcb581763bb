//! The table of events beside the archive's own, as it is read.

ghost use Rattle.std.specs.Prelude.{◌≡◌, List, map, take, option_map};
ghost use Rattle.sqlite.specs.Held.{state};
ghost use Rattle.record_tables.specs.EventLayouts.{IsEventLayout};
ghost use Rattle.record_tables.specs.Events.{Event, StoresEvents, event_table};
ghost use Rattle.record_tables.specs.Steps.{Learns};
ghost use Rattle.record_tables.specs.Tables.{Stands};
ghost use Rattle.record_reads.specs.Events.{event_of, events_from as from_number, last_of};
ghost use Rattle.record_store.specs.Events.{LosesMisfits, ReadsBeside};

use crate::fault::{StoreFault, lost_or};
use crate::store::Store;
use record_reads::events::{EventRow, events_from, last_event};
use record_tables::event_layout::{EventLayout, event_layout_of};
use sqlite::Alter;

impl<S: Alter> Store<S> {
    /// Whether the database has a table of events.
    pub fn event_layout(&self) -> EventLayout
        ensures is { IsEventLayout (state S.Store self.now.conn).now.schema result }
        ensures present { Stands (state S.Store self.now.conn).now.schema event_table →
            result ≡ EventLayout.Present }
    {
        event_layout_of(self.conn.schema())
    }

    /// The event with the greatest number, in a database with a table of events; `None` where there is no event. The only
    /// refusals are 89 (`sqlite`, or a row that is no event) and 99 (no memory).
    pub fn last_event(&mut self) -> Result<Option<EventRow>, StoreFault>
        ensures last { Learns S.Store self.old.conn self.new.conn result
            (λ db r. (es : List Event) → StoresEvents db es → option_map event_of r ≡ last_of es) }
        ensures lost { LosesMisfits S.Store self.old self.new result }
        ensures beside { ReadsBeside S.Store self.old self.new result }
    {
        match last_event(self.alloc, &mut self.conn) {
            Ok(event) => Ok(event),
            Err(fault) => Err(lost_or(fault)),
        }
    }

    /// The events from a number on, in the order of their numbers, at most `most` of them, in a database with a table of
    /// events. The only refusals are 89 (`sqlite`, or a row that is no event) and 99 (no memory).
    pub fn events_from(&mut self, from: u32, most: u32) -> Result<Vec<EventRow>, StoreFault>
        ensures all { Learns S.Store self.old.conn self.new.conn result
            (λ db all. (es : List Event) → StoresEvents db es →
            map event_of all.items ≡ take most (from_number from es)) }
        ensures lost { LosesMisfits S.Store self.old self.new result }
        ensures beside { ReadsBeside S.Store self.old self.new result }
    {
        match events_from(self.alloc, &mut self.conn, from, most) {
            Ok(events) => Ok(events),
            Err(fault) => Err(lost_or(fault)),
        }
    }
}
