//! The messages of records.

ghost use Rattle.std.specs.Prelude.{◌≡◌, option_map, Ok, Err, Some, None, IsTrue, OnOk};
ghost use Rattle.sqlite.specs.State.{HasCleanDisk};
ghost use Rattle.sqlite.specs.Held.{state};
ghost use Rattle.record_archive.specs.Archive as archive;
ghost use Rattle.record_archive.specs.Archive.{Archive};
ghost use Rattle.record_store.specs.Messages.{body_in};
ghost use Rattle.record_store.specs.Stores.{StaysStill, StandsFor, Tells, Behaves, LeavesAll, Falls, IsNeverOwn};

use crate::fault::{LOST, StoreFault, lost_or};
use crate::store::Store;
use record_archive::ArchiveRefusal;
use record_reads::live_bodies::live_body;
use sqlite::Alter;

impl<S: Alter> Store<S> {
    /// The octets of a live record's message; `None` where there is no such record, or no such message.
    fn live_body(&mut self, number: u32) -> Result<Option<Vec<u8>>, StoreFault>
        ensures tells { Tells S.Store self.old self.new result (λ a b. option_map (λ v. v.items) b ≡
            body_in (archive.message a number)) (λ a f. ⊥) }
        ensures still { StaysStill S.Store self.old self.new }
        ensures behaves { Behaves S.Store self.old self.new result }
        ensures crash { LeavesAll S.Store self.old self.new }
    {
        match live_body(self.alloc, &mut self.conn, number) {
            Ok(body) => Ok(body),
            Err(fault) => Err(lost_or(fault)),
        }
    }

    /// The octets of a record's message.
    ///
    /// Refused with 80 where there is no such record, 84 where it is destroyed, 89 (`sqlite`) or 99 (no memory).
    pub fn message(&mut self, number: u32) -> Result<Vec<u8>, StoreFault>
        ensures tells { Tells S.Store self.old self.new result (λ a body. archive.message a number ≡
            Ok (Some body.items)) (λ a f. archive.message a number ≡ Err f) }
        ensures still { StaysStill S.Store self.old self.new }
        ensures falls { Falls S.Store self.old self.new }
        ensures cause { IsNeverOwn S.Store self.old self.new result }
        ensures crash { LeavesAll S.Store self.old self.new }
    {
        if let Some(body) = self.live_body(number)? {
            return Ok(body);
        }
        let record = self.record_at(number)?;
        if record.destroyed {
            return Err(StoreFault::Refused(ArchiveRefusal::Destroyed));
        }
        Err(LOST)
    }
}
