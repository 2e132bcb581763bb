//! Findings, which restate what is there.

ghost use Rattle.std.specs.Prelude.{◌≡◌, ◌++◌, IfOk, OnOk, map};
ghost use Rattle.record_history.specs.Views.{deed_view};
ghost use Rattle.record_judge.specs.Findings.{FindingsRestate, findings_of, found_hold, found_message, found_record};

use crate::sealed::{NamedHold, SealedArchive, SealedMessage, SealedRecord};
use record_history::{Deed, Listing, Seal};
use std::alloc::{AllocError, Global};

fn push_messages<'a>(
    alloc: Global,
    deeds: &mut Vec<Deed<'a>>,
    messages: &'a [SealedMessage],
) -> Result<(), AllocError>
    ensures { OnOk result (map deed_view deeds.new.items
        ≡ map deed_view deeds.old.items ++ map found_message messages.now) }
{
    for message in messages {
        let sum = Vec::from_slice(alloc, message.seal.sum.as_slice())?;
        let octets = message.seal.octets;
        deeds.push(Deed::FoundMessage {
            number: message.number,
            seal: Seal { octets, sum },
        })?;
    }
    Ok(())
}

fn push_records<'a>(
    deeds: &mut Vec<Deed<'a>>,
    records: &'a [SealedRecord],
) -> Result<(), AllocError>
    ensures { OnOk result (map deed_view deeds.new.items
        ≡ map deed_view deeds.old.items ++ map found_record records.now) }
{
    for row in records {
        deeds.push(Deed::FoundRecord {
            number: row.number,
            message: row.message,
            path: row.path.as_slice(),
            day: row.day,
            destroyed: row.destroyed,
        })?;
    }
    Ok(())
}

fn push_holds<'a>(deeds: &mut Vec<Deed<'a>>, holds: &'a [NamedHold]) -> Result<(), AllocError>
    ensures { OnOk result (map deed_view deeds.new.items
        ≡ map deed_view deeds.old.items ++ map found_hold holds.now) }
{
    for hold in holds {
        deeds.push(Deed::FoundHold {
            name: hold.name.as_slice(),
            number: hold.number,
        })?;
    }
    Ok(())
}

impl SealedArchive {
    /// The findings that restate the archive, in order: its plan, and then each message, each record and each hold. The only
    /// refusal is no memory (99).
    pub fn findings(&self) -> Result<Vec<Deed<'_>>, AllocError>
        ensures { IfOk result (λ v. map deed_view v.items ≡ findings_of self.now) }
    {
        let mut deeds = Vec::new(self.alloc);
        deeds.push(Deed::FoundPlan(Listing::of(self.alloc, &self.plan)?))?;
        push_messages(self.alloc, &mut deeds, self.messages.as_slice())?;
        push_records(&mut deeds, self.records.as_slice())?;
        push_holds(&mut deeds, self.holds.as_slice())?;
        Ok(deeds)
    }
}

/// The law `FindingsRestate` of the definitions: whatever the archive was, the findings make of it the one that they restate.
/// The function does nothing.
pub fn findings_restate()
    ensures { FindingsRestate }
{}
