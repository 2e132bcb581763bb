//! The messages that are captured for an officer, by their seals.

ghost use Rattle.std.specs.Prelude.{◌≡◌, None, Some, OnOk, if◌then◌else◌, option_map};
ghost use Rattle.record_history.specs.Views.{deed_view, filing_view};
ghost use Rattle.record_known.specs.Known.{Key, captured_for, is_filed_for, is_key, later, record_of};

use record_history::{Deed, Filing, Seal};
use std::alloc::{AllocError, Global};
use std::collections::BTreeMap;

/// The SHA-256 of a message, in hexadecimal digits, and how many octets it has.
pub type SealKey = (Vec<u8>, u64);

/// The seal of a message, as messages are looked for by it.
pub fn key_of(seal: Seal) -> SealKey
    ensures sum { result.0.items ≡ seal.sum.items }
    ensures octets { result.1 ≡ seal.octets }
{
    let Seal { octets, sum } = seal;
    (sum, octets)
}

/// Whether an officer's rules filed a message.
fn is_filed_for(filing: Option<Filing<'_>>, officer: &[u8]) -> bool
    ensures { result ≡ is_filed_for officer.now (option_map filing_view filing.entry) }
{
    match filing {
        Some(filing) => filing.officer == officer,
        None => false,
    }
}

/// The messages that are captured for an officer, each with the number of its first record. Of several captures of one message
/// the last one counts.
#[derive(Drop)]
pub struct Known {
    records: BTreeMap<SealKey, u32>,
}

impl Known {
    /// No messages.
    pub fn none(alloc: Global) -> Known
        ensures { (k : Key) → record_of result k ≡ None }
    {
        Known {
            records: BTreeMap::new(alloc),
        }
    }

    /// The number of the first record of a message with this seal; none where none is captured.
    pub fn first_record(&self, key: &SealKey) -> Option<u32>
        ensures { result ≡ record_of self.now key.now }
    {
        match self.records.get(key) {
            Some(first) => Some(*first),
            None => None,
        }
    }

    /// Notes that a message with this seal is captured, and the number of its first record. The only refusal is no memory (99).
    pub fn note(&mut self, key: SealKey, first: u32) -> Result<(), AllocError>
        ensures { OnOk result ((k : Key) → record_of self.new k ≡
            (if is_key key k then Some first else record_of self.old k)) }
    {
        self.records.insert(key, first)?;
        Ok(())
    }

    /// Notes the message that a deed captured for an officer, if it did. The only refusal is no memory (99).
    #[tactic(auto, using(crate::proofs::KeyLemmas::kept_or_new))]
    pub fn take(&mut self, deed: Deed<'_>, officer: &[u8]) -> Result<(), AllocError>
        ensures { OnOk result ((k : Key) → record_of self.new k ≡
            later (captured_for officer.now (deed_view deed.entry) k) (record_of self.old k)) }
    {
        match deed {
            Deed::Captured {
                first,
                seal,
                filing,
                ..
            } => {
                if is_filed_for(filing, officer) {
                    self.note(key_of(seal), first)
                } else {
                    Ok(())
                }
            }
            _ => Ok(()),
        }
    }
}
