//! Lines that are noted beside no change of the archive.

ghost use Rattle.std.specs.Prelude.{map};
ghost use Rattle.record_reads.specs.Events.{event_of};
ghost use Rattle.record_noted.specs.Additions.{NotesLines};
ghost use Rattle.record_noted.specs.Rows.{Awaits, NotesEvents};

use crate::rows::{Addition, insert_rows, rows_of_lines};
use crate::store::NotedStore;
use record_store::{EventRow, StoreFault};
use record_tables::companions::Companion;
use sqlite::{Alter, Error, Transaction};

/// Rows that are added behind those of the table of events.
#[derive(Drop)]
pub(crate) struct Following<'a> {
    pub(crate) rows: &'a [EventRow],
}

impl Companion for Following<'_> {
    ghost needs = { λ c. Awaits (map event_of c.rows.now) };

    ghost brings = { λ c. NotesEvents (map event_of c.rows.now) };

    fn make<S: Alter>(self, tx: &mut Transaction<'_, S>) -> Result<(), Error> {
        insert_rows(tx, self.rows)
    }
}

impl<S: Alter> NotedStore<S> {
    /// Notes lines behind the others, in their order and in one transaction, and changes nothing of the archive. So what
    /// programs that keep no history have done is restated before the next change, and an event that changes nothing is
    /// noted. Without a line, nothing is changed.
    ///
    /// Refused with 89 (`sqlite`, or where there would be more than 4,294,967,294 events) or 99 (no memory). A refusal notes
    /// none of the lines.
    pub fn note_all(&mut self, lines: &[Vec<u8>]) -> Result<(), StoreFault>
        ensures { NotesLines S.Store self.old self.new result
            (map (λ l. l.items) lines.now) }
    {
        let Addition { rows, next, mark } = rows_of_lines(
            self.alloc,
            self.next,
            self.mark.as_slice(),
            lines,
        )?;
        let following = Following {
            rows: rows.as_slice(),
        };
        self.store.do_beside(following)?;
        self.next = next;
        self.mark = mark;
        Ok(())
    }
}
