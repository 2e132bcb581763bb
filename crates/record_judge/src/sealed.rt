//! Archives with the seal of each message in its place. One takes memory for each record, message and hold, and none for the
//! octets of messages.

ghost use Rattle.std.specs.Prelude.{◌≡◌, IfOk};
ghost use Rattle.record_archive.specs.Archive.{empty_archive};
ghost use Rattle.record_judge.specs.Sealed.{IsKept, archive_view};

use crate::hold_index::HoldIndex;
use crate::message_index::MessageIndex;
use crate::record_index::RecordIndex;
use class_plan::Plan;
use record_history::Seal;
use std::alloc::{AllocError, Global};

/// A message by its seal.
#[derive(Drop)]
pub struct SealedMessage {
    pub number: u32,
    pub seal: Seal,
}

/// A record of a message, live or destroyed.
#[derive(Drop)]
pub struct SealedRecord {
    pub number: u32,
    /// The number of its message.
    pub message: u32,
    /// The path of its class.
    pub path: Vec<u8>,
    /// The day of its capture, in days since 1970-01-01.
    pub day: u32,
    pub destroyed: bool,
}

/// A hold of that name on the record with that number.
#[derive(Drop)]
pub struct NamedHold {
    pub name: Vec<u8>,
    pub number: u32,
}

/// An archive with the seal of each message in its place.
pub struct SealedArchive {
    pub(crate) alloc: Global,
    pub(crate) plan: Plan,
    pub(crate) messages: Vec<SealedMessage>,
    pub(crate) message_index: MessageIndex,
    pub(crate) records: Vec<SealedRecord>,
    pub(crate) record_index: RecordIndex,
    /// In the order in which they were placed.
    pub(crate) holds: Vec<NamedHold>,
    pub(crate) hold_index: HoldIndex,
    /// The number of the next record.
    pub(crate) next: u64,
}

impl Drop for SealedArchive {
    fn drop(self) {
        let SealedArchive {
            alloc: _,
            plan: _,
            messages: _,
            message_index: _,
            records: _,
            record_index: _,
            holds: _,
            hold_index: _,
            next: _,
        } = self;
    }
}

impl SealedArchive {
    /// The archive in which nothing was captured. The only refusal is no memory (99).
    #[tactic(auto, using(crate::proofs::SealedLemmas::kept_new))]
    pub fn new(alloc: Global) -> Result<SealedArchive, AllocError>
        ensures empty { IfOk result (λ s. archive_view s ≡ empty_archive) }
        ensures kept { IfOk result IsKept }
    {
        Ok(SealedArchive {
            alloc,
            plan: Plan::new(alloc)?,
            messages: Vec::new(alloc),
            message_index: MessageIndex::new(alloc),
            records: Vec::new(alloc),
            record_index: RecordIndex::new(alloc),
            holds: Vec::new(alloc),
            hold_index: HoldIndex::new(alloc),
            next: 1,
        })
    }
}
