//! How much an archive keeps, and whether two archives are the same.

use crate::altered::Altered;
use class_plan::day_number;
use cli_console::{Failure, Walk, message_of};
use cli_history::{Fidelity, Seals};
use cli_texts::plan_text;
use record_choice::{Choice, Repository};
use record_store::{RecordEntry, StoreFault};
use sha2::{Digest, Sha256};
use std::alloc::AllocError;
use std::collections::BTreeMap;

/// What is counted and summed of an archive.
#[derive(Drop)]
struct Summing<'s> {
    /// The seals of the messages, where they are to be judged.
    seals: &'s Seals,
    hasher: Sha256,
    records: u64,
    messages: u64,
    octets: u64,
    /// The messages that were added, and what each is beside the one that was captured.
    added: BTreeMap<u32, Fidelity>,
    /// The live records whose messages are not the ones that were captured.
    altered: Altered,
    /// How many of the messages have no seal.
    unsealed: u64,
}

/// How much an archive keeps, and a sum over all of it. Archives with the same sum are the same.
#[derive(Clone, Copy)]
pub struct Summary {
    /// How many records it has, destroyed ones too.
    pub records: u64,
    /// How many messages it has.
    pub messages: u64,
    /// How many octets these messages have.
    pub octets: u64,
    /// The SHA-256 of the plan, the records with their holds, and the messages.
    pub sum: [u8; 32],
}

/// How much an archive keeps, and which of its messages are not the ones that were captured.
#[derive(Drop)]
pub struct Judged {
    pub summary: Summary,
    /// The live records with these messages.
    pub altered: Altered,
    /// How many messages have no seal, so that nothing is known of them.
    pub unsealed: u64,
}

impl<'s> Summing<'s> {
    /// Nothing yet.
    fn new(rt: &HostRuntime, seals: &'s Seals) -> Summing<'s> {
        Summing {
            seals,
            hasher: Sha256::new(),
            records: 0,
            messages: 0,
            octets: 0,
            added: BTreeMap::new(rt.alloc()),
            altered: Altered::none(rt.alloc()),
            unsealed: 0,
        }
    }

    fn add_number(&mut self, number: i64) {
        self.hasher.update(number.to_le_bytes().as_slice());
    }

    /// Adds octets, and before them how many they are.
    fn add_octets(&mut self, octets: &[u8]) {
        self.hasher
            .update((octets.len() as u64).to_le_bytes().as_slice());
        self.hasher.update(octets);
    }

    /// Adds a record with its holds.
    fn add_record(&mut self, entry: &RecordEntry) {
        self.records = self.records.saturating_add(1);
        self.add_number(i64::from(entry.number));
        self.add_number(i64::from(entry.message));
        self.add_number(i64::from(entry.destroyed));
        self.add_number(day_number(entry.day));
        self.add_octets(entry.path.as_slice());
        self.hasher
            .update((entry.holds.len() as u64).to_le_bytes().as_slice());
        for name in entry.holds.iter() {
            self.add_octets(name.as_slice());
        }
    }

    /// Adds a message that was not added before, and answers what it is beside the one that was captured.
    fn add_new(
        &mut self,
        rt: &HostRuntime,
        message: u32,
        octets: &[u8],
    ) -> Result<Fidelity, AllocError> {
        self.messages = self.messages.saturating_add(1);
        self.octets = self.octets.saturating_add(octets.len() as u64);
        self.add_octets(octets);
        let fidelity = self.seals.is_captured(rt.alloc(), message, octets)?;
        self.added.insert(message, fidelity)?;
        if let Fidelity::Unsealed = fidelity {
            self.unsealed = self.unsealed.saturating_add(1);
        }
        Ok(fidelity)
    }

    /// Adds the message of a live record, unless that of a record before was the same, and notes the record where it is not
    /// the one that was captured.
    fn add_message<R: Repository<Fault = StoreFault>>(
        &mut self,
        rt: &HostRuntime,
        archive: &mut R,
        entry: &RecordEntry,
    ) -> Result<(), Failure> {
        if entry.destroyed {
            return Ok(());
        }
        let known = self.added.get(&entry.message).copied();
        let fidelity = match known {
            Some(fidelity) => fidelity,
            None => {
                let octets = message_of(rt, archive, entry)?;
                self.add_new(rt, entry.message, octets.as_slice())?
            }
        };
        if let Fidelity::Altered(_) = fidelity {
            self.altered.add(entry.number)?;
        }
        Ok(())
    }

    /// Adds all records and their messages.
    fn add_all<R: Repository<Fault = StoreFault>>(
        &mut self,
        rt: &HostRuntime,
        archive: &mut R,
    ) -> Result<(), Failure> {
        let every = Choice::every();
        let mut walk = Walk::from(&every, 1);
        for _ in 0..u64::MAX {
            let Some(page) = walk.next_page(rt, archive)? else {
                break;
            };
            for entry in page.iter() {
                self.add_record(entry);
                self.add_message(rt, archive, entry)?;
            }
        }
        Ok(())
    }
}

/// Reads a whole archive: its plan, its records with their holds, and its messages, each of which is judged by its seal. A
/// failure is that of the store.
pub fn judged_summary<R: Repository<Fault = StoreFault>>(
    rt: &HostRuntime,
    archive: &mut R,
    seals: &Seals,
) -> Result<Judged, Failure> {
    let mut summing = Summing::new(rt, seals);
    let plan = plan_text(rt.alloc(), archive.plan())?;
    summing.add_octets(plan.as_bytes());
    summing.add_all(rt, archive)?;
    let Summing {
        hasher,
        records,
        messages,
        octets,
        altered,
        unsealed,
        ..
    } = summing;
    let summary = Summary {
        records,
        messages,
        octets,
        sum: hasher.finalize(),
    };
    Ok(Judged {
        summary,
        altered,
        unsealed,
    })
}

/// Reads a whole archive: its plan, its records with their holds, and its messages. A failure is that of the store.
pub fn summary_of<R: Repository<Fault = StoreFault>>(
    rt: &HostRuntime,
    archive: &mut R,
) -> Result<Summary, Failure> {
    let Judged { summary, .. } = judged_summary(rt, archive, &Seals::none(rt.alloc()))?;
    Ok(summary)
}
