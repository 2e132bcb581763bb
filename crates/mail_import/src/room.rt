//! The calls that an import makes.

ghost use Rattle.std.specs.Prelude.{◌≡◌, ◌∷◌, [], ◌++◌, ℕ, List, Option, IfOk, OnOk};
ghost use Rattle.mail_import.specs.Calls as call;
ghost use Rattle.mail_import.specs.Calls.{Call, IsNext, answer_of, look_of};
ghost use Rattle.mail_import.specs.Fates.{why_of};
ghost use Rattle.mail_import.specs.Sources.{AreLines, IsBeside, IsListing, Mail, OnlyMakes};

use crate::fate::Stay;
use crate::known::FirstRecord;
use mail_boxes::{BoxMessage, UndatedLines};
use mail_intake::{Reason, Refusal};
use mail_sources::{MailFiles, PassedOver, Source};
use std::alloc::AllocError;

/// Files with old mail, an archive that captures it, and the log that says which messages stay. An import reaches them by these
/// calls alone, so that its contract can say which it makes, and in which order.
pub trait OldMailroom {
    /// Why an import cannot go on.
    type Fault: Drop + From<AllocError>;

    /// An mbox whose messages are read, one after the other.
    type Mbox: Drop;

    /// From one moment to another these calls were made, in this order, with these answers, and no others.
    ghost goes: { Self → List Call → Self → Type 0 };

    /// The files have this mail.
    ghost has: { Self → Mail → Type 0 };

    /// The mbox is the one at this path, and these of its messages are to come.
    ghost left: { Self.Mbox → List ℕ → List (Option (List ℕ)) → Type 0 };

    /// Opens the mbox at a path.
    fn open(&self, path: &str) -> Result<Self::Mbox, Self::Fault>
        ensures opened { IfOk result (λ mbox. (m : Mail) → has self.now m
            → left mbox path.now (m.messages path.now)) };

    /// The number of the first message that an mbox which was opened at a path gives. It is 1, unless those before it are taken.
    fn first_number(&self, mbox: &Self::Mbox, path: &str) -> u64
        ensures { (m : Mail) → has self.now m → result ≡ m.first path.now };

    /// The next message of the mbox that was opened at a path; none at its end.
    fn next_message(
        &self,
        mbox: &mut Self::Mbox,
        path: &str,
    ) -> Result<Option<BoxMessage>, Self::Fault>
        ensures next { IfOk result (λ found. (messages : List (Option (List ℕ)))
            → left mbox.old path.now messages
            → IsNext found messages (left mbox.new path.now)) };

    /// Which lines of the mbox that was opened at a path look like separators and have no date. They are asked for at its end.
    fn undated(&self, mbox: &Self::Mbox, path: &str) -> UndatedLines
        ensures lines { (m : Mail) → has self.now m → left mbox.now path.now []
            → AreLines (m.undated path.now) result };

    /// The files of a folder or a Maildir that have a message each.
    fn files(&self, source: Source<'_>) -> Result<MailFiles, Self::Fault>
        ensures listed { IfOk result (λ files. (m : Mail) → has self.now m
            → IsListing m source.entry files) };

    /// What lies beside the messages of a source.
    fn beside(&self, source: Source<'_>) -> Result<PassedOver, Self::Fault>
        ensures counted { IfOk result (λ passed. (m : Mail) → has self.now m
            → IsBeside m source.entry passed) };

    /// The octets of the file at a path, or why it stays.
    fn read(&mut self, path: &str) -> Result<Vec<u8>, Reason>
        ensures call { OnlyMakes goes has self.old self.new
            (call.read path.now (look_of result) ∷ []) }
        ensures found { IfOk result (λ v. (m : Mail) → has self.old m
            → v.items ≡ m.octets path.now) };

    /// Hands a message to the archive, to be captured at a moment, in seconds since 1970. Answers its first record; none where its
    /// rules discarded it.
    fn capture(
        &mut self,
        name: &str,
        moment: u64,
        octets: Vec<u8>,
    ) -> Result<Option<FirstRecord>, Refusal<Self::Fault>>
        ensures call { OnlyMakes goes has self.old self.new
            (call.capture name.now moment octets.items (answer_of result) ∷ []) };

    /// Tells that a message stays, and why.
    fn tell(&mut self, name: &str, why: &Stay)
        ensures call { OnlyMakes goes has self.old self.new
            (call.tell name.now (why_of why.now) ∷ []) };

    /// Tells that a message is captured already, and its first record.
    fn tell_known(&mut self, name: &str, first: FirstRecord)
        ensures call { OnlyMakes goes has self.old self.new
            (call.tell_known name.now first ∷ []) };

    /// Tells how many messages of a folder stay since their names are no UTF-8.
    fn tell_nameless(&mut self, count: usize)
        ensures call { OnlyMakes goes has self.old self.new (call.tell_nameless count ∷ []) };

    /// Tells that the folder at a path has no message.
    fn tell_empty(&mut self, path: &str)
        ensures call { OnlyMakes goes has self.old self.new (call.tell_empty path.now ∷ []) };

    /// Tells that lines of the mbox at a path look like separators and have no date: the number of the first one, counted from
    /// 1, and how many there are.
    fn tell_undated(&mut self, path: &str, first: u64, count: u64)
        ensures call { OnlyMakes goes has self.old self.new
            (call.tell_undated path.now first count ∷ []) };

    /// No call was made from a moment to the same.
    ghost goes_none: { (a : Self) → goes a [] a };

    /// Calls, and then others.
    ghost goes_then: { (a b c : Self) (xs ys : List Call) → goes a xs b → goes b ys c
        → goes a (xs ++ ys) c };
}
