//! What a sealed archive has.

ghost use Rattle.std.specs.Prelude.{◌≡◌};

use crate::sealed::{NamedHold, SealedArchive, SealedMessage, SealedRecord};
use class_plan::Plan;

impl SealedArchive {
    /// Its plan.
    pub fn plan(&self) -> &Plan
        ensures { result.now ≡ self.now.plan }
    {
        &self.plan
    }

    /// Its messages, each by its seal, in the order in which they came.
    pub fn messages(&self) -> &[SealedMessage]
        ensures { result.now ≡ self.now.messages.items }
    {
        self.messages.as_slice()
    }

    /// Its records, in the order in which they came.
    pub fn records(&self) -> &[SealedRecord]
        ensures { result.now ≡ self.now.records.items }
    {
        self.records.as_slice()
    }

    /// Its holds, in the order in which they were placed.
    pub fn holds(&self) -> &[NamedHold]
        ensures { result.now ≡ self.now.holds.items }
    {
        self.holds.as_slice()
    }
}
