//! Deeds that are done again to a sealed archive.

ghost use Rattle.std.specs.Prelude.{◌≡◌, OnOk, IfOk, IfErr, option_map, slice_get};
ghost use Rattle.record_archive.specs.Archive as archive;
ghost use Rattle.record_history.specs.Events as plain;
ghost use Rattle.record_history.specs.Views.{listing_view};
ghost use Rattle.record_judge.specs.Sealed.{IsDone, IsKept, StaysKept, archive_view, record_view};

use crate::faults::Misdeed;
use crate::hold_counts::hold_key;
use crate::hold_index::{HoldIndex, remove_holds};
use crate::listings::plan_of;
use crate::message_index::MessageIndex;
use crate::record_index::RecordIndex;
use crate::sealed::{NamedHold, SealedArchive, SealedRecord};
use class_plan::PlanFault;
use record_history::Listing;
use std::alloc::AllocError;

fn row_at(rows: &[SealedRecord], place: usize) -> Option<&SealedRecord>
    ensures { option_map (λ r. r.now) result ≡ slice_get rows.now place }
{
    rows.get(place)
}

impl SealedArchive {
    #[tactic(auto, using(crate::proofs::SealedLemmas::record_nowhere, crate::proofs::SealedLemmas::record_there))]
    pub(crate) fn record_at(&self, number: u32) -> Option<&SealedRecord>
        ensures { IsKept self.now → option_map (λ r. record_view r.now) result
            ≡ archive.record_at (archive_view self.now) number }
    {
        match self.record_index.first.get(&number) {
            Some(place) => row_at(self.records.as_slice(), *place),
            None => None,
        }
    }

    #[tactic(auto, using(crate::proofs::SealedLemmas::held_by_name))]
    fn is_held_by(&self, name: &[u8], number: u32) -> Result<bool, AllocError>
        ensures { IfOk result (λ b. IsKept self.now →
            b ≡ archive.is_held_by (archive_view self.now) name.now number) }
    {
        let key = hold_key(self.alloc, name, number)?;
        Ok(self.hold_index.names.count(&key) > 0)
    }

    #[tactic(auto, using(crate::proofs::SealedLemmas::held_by_any))]
    pub(crate) fn is_held(&self, number: u32) -> bool
        ensures { IsKept self.now → result ≡ archive.is_held (archive_view self.now) number }
    {
        self.hold_index.records.count(number) > 0
    }

    #[tactic(auto, using(crate::proofs::DeedLemmas::hold_laws))]
    pub(crate) fn hold(&mut self, name: &[u8], number: u32) -> Result<(), Misdeed>
        ensures done { IsKept self.old → IsDone (plain.Held name.now number)
            (archive_view self.old) (archive_view self.new) result }
        ensures kept { OnOk result (StaysKept self.old self.new) }
    {
        let Some(record) = self.record_at(number) else {
            return Err(Misdeed::Refused);
        };
        if record.destroyed {
            return Err(Misdeed::Refused);
        }
        if self.is_held_by(name, number)? {
            return Err(Misdeed::Refused);
        }
        self.find_hold(name, number)
    }

    /// Puts a hold behind the others.
    #[tactic(auto, using(crate::proofs::SealedLemmas::hold_more))]
    pub(crate) fn find_hold(&mut self, name: &[u8], number: u32) -> Result<(), Misdeed>
        ensures done { IsDone (plain.FoundHold name.now number)
            (archive_view self.old) (archive_view self.new) result }
        ensures kept { OnOk result (StaysKept self.old self.new) }
        ensures cause { IfErr result (λ m. m ≡ Misdeed.NoMemory) }
    {
        let key = hold_key(self.alloc, name, number)?;
        let copy = hold_key(self.alloc, name, number)?;
        self.hold_index.note(key, copy)?;
        let name = Vec::from_slice(self.alloc, name)?;
        self.holds.push(NamedHold { name, number })?;
        Ok(())
    }

    #[tactic(auto, using(crate::proofs::DeedLemmas::released_nowhere, crate::proofs::DeedLemmas::released_free, crate::proofs::SealedLemmas::kept_released))]
    pub(crate) fn release(&mut self, name: &[u8], number: u32) -> Result<(), Misdeed>
        ensures done { IsKept self.old → IsDone (plain.Released name.now number)
            (archive_view self.old) (archive_view self.new) result }
        ensures kept { StaysKept self.old self.new }
    {
        let Some(_) = self.record_at(number) else {
            return Err(Misdeed::Refused);
        };
        if !self.is_held_by(name, number)? {
            return Err(Misdeed::Refused);
        }
        let key = hold_key(self.alloc, name, number)?;
        remove_holds(&mut self.holds, &mut self.hold_index, &key);
        Ok(())
    }

    #[tactic(auto, using(crate::proofs::DeedLemmas::class_added, crate::proofs::DeedLemmas::class_refused))]
    pub(crate) fn add_class(&mut self, path: &[u8]) -> Result<(), Misdeed>
        ensures done { IsDone (plain.ClassAdded path.now)
            (archive_view self.old) (archive_view self.new) result }
        ensures kept { StaysKept self.old self.new }
    {
        match self.plan.add(path) {
            Ok(()) => Ok(()),
            Err(PlanFault::NoMemory) => Err(Misdeed::NoMemory),
            Err(_) => Err(Misdeed::Refused),
        }
    }

    #[tactic(auto, using(crate::proofs::DeedLemmas::plan_replaced, crate::proofs::DeedLemmas::plan_kept, crate::proofs::DeedLemmas::plan_missing))]
    pub(crate) fn replace_plan(&mut self, listing: &Listing<'_>) -> Result<(), Misdeed>
        ensures done { IsDone (plain.PlanReplaced (listing_view listing.now))
            (archive_view self.old) (archive_view self.new) result }
        ensures kept { StaysKept self.old self.new }
    {
        let plan = plan_of(self.alloc, listing)?;
        match self.plan.revise(plan) {
            Ok(()) => Ok(()),
            Err(_) => Err(Misdeed::Refused),
        }
    }

    /// Begins anew with a plan.
    #[tactic(auto, using(crate::proofs::DeedLemmas::plan_unfound, crate::proofs::SealedLemmas::kept_new))]
    pub(crate) fn find_plan(&mut self, listing: &Listing<'_>) -> Result<(), Misdeed>
        ensures done { IsDone (plain.FoundPlan (listing_view listing.now))
            (archive_view self.old) (archive_view self.new) result }
        ensures kept { OnOk result (IsKept self.new) }
    {
        self.plan = plan_of(self.alloc, listing)?;
        self.messages.clear();
        self.message_index = MessageIndex::new(self.alloc);
        self.records.clear();
        self.record_index = RecordIndex::new(self.alloc);
        self.holds.clear();
        self.hold_index = HoldIndex::new(self.alloc);
        self.next = 1;
        Ok(())
    }
}
