//! The lines of what is found where a history begins.

ghost use Rattle.std.specs.Prelude.{IfOk};
ghost use Rattle.record_history.specs.Events.{FoundHold, FoundMessage, FoundPlan, FoundRecord};
ghost use Rattle.record_history.specs.Replay.{seal};
ghost use Rattle.record_ledger.specs.Notes.{TellsOf, found_record};

use crate::deeds::number_since_1970;
use crate::occasion::Occasion;
use class_plan::Plan;
use record_choice::RecordEntry;
use record_history::{Deed, Listing, seal_of};
use std::alloc::{AllocError, Global};
use std::time::Clock;

impl<K: Clock> Occasion<'_, K> {
    /// The line of the event that a plan was found. The only refusal is no memory (99).
    pub fn plan_found(&self, alloc: Global, number: u32, plan: &Plan) -> Result<Vec<u8>, AllocError>
        ensures { IfOk result (λ v. TellsOf self.now number (FoundPlan plan.now) v.items) }
    {
        let listing = Listing::of(alloc, plan)?;
        self.line_of(alloc, number, Deed::FoundPlan(listing))
    }

    /// The line of the event that a message was found. The only refusal is no memory (99).
    pub fn message_found(
        &self,
        alloc: Global,
        number: u32,
        message: u32,
        body: &[u8],
    ) -> Result<Vec<u8>, AllocError>
        ensures { IfOk result (λ v.
            TellsOf self.now number (FoundMessage message (seal body.now)) v.items) }
    {
        let seal = seal_of(alloc, body)?;
        let deed = Deed::FoundMessage {
            number: message,
            seal,
        };
        self.line_of(alloc, number, deed)
    }

    /// The line of the event that a record was found. A day of capture before 1970-01-01, which no
    /// record of an archive has, is told as 1970-01-01. The only refusal is no memory (99).
    pub fn record_found(
        &self,
        alloc: Global,
        number: u32,
        entry: &RecordEntry,
    ) -> Result<Vec<u8>, AllocError>
        ensures { IfOk result (λ v.
            TellsOf self.now number (FoundRecord (found_record entry.now)) v.items) }
    {
        let deed = Deed::FoundRecord {
            number: entry.number,
            message: entry.message,
            path: entry.path.as_slice(),
            day: number_since_1970(entry.day),
            destroyed: entry.destroyed,
        };
        self.line_of(alloc, number, deed)
    }

    /// The line of the event that a hold of a name on a record was found. The only refusal is no
    /// memory (99).
    pub fn hold_found(
        &self,
        alloc: Global,
        number: u32,
        name: &[u8],
        on: u32,
    ) -> Result<Vec<u8>, AllocError>
        ensures { IfOk result (λ v. TellsOf self.now number (FoundHold name.now on) v.items) }
    {
        let deed = Deed::FoundHold { name, number: on };
        self.line_of(alloc, number, deed)
    }
}
