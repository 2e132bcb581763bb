//! The calls that an intake makes.

ghost use Rattle.std.specs.Prelude.{◌≡◌, ◌∷◌, [], List, map, string_bytes, IfOk, OnOk, OnErr};
ghost use Rattle.mail_intake.specs.Calls.{Call, Makes, answer_of, cause_of, is_done, look_of};
ghost use Rattle.mail_intake.specs.Calls as call;
ghost use Rattle.mail_intake.specs.Folders.{Folders, HasNew, Mail, OnlyMakes, moved};

use crate::reason::Reason;

/// The new messages of a Maildir.
#[derive(Drop)]
pub struct Listing {
    /// Their names, in the order in which they are to be captured.
    pub names: Vec<String>,
    /// How many more there are that have no name by which they could be read.
    pub nameless: usize,
}

/// How a message was taken by the archive.
#[derive(Clone, Copy)]
pub enum Taken {
    /// It has records now.
    Captured,
    /// Its rules discarded it, so it has none.
    Discarded,
}

/// Why a message was not taken by the archive.
#[derive(Drop)]
pub enum Refusal<F> {
    /// It stays for this reason, and others may be captured.
    Stays(Reason),
    /// Nothing more can be captured.
    Ends(F),
}

/// A Maildir, an archive that captures its messages, and the log that says which ones stay. An intake reaches them by these
/// calls alone, so that its contract can say which it makes, and in which order.
pub trait Mailroom {
    /// Why an intake cannot go on.
    type Fault: Drop;

    /// These calls have been made, in this order, with these answers.
    ghost made: { Self → List Call → Type 0 };

    /// The folders of the Maildir have these messages.
    ghost has: { Self → Folders → Type 0 };

    /// The new messages.
    fn list(&mut self) -> Result<Listing, Self::Fault>
        ensures made { IfOk result (λ l.
            Makes made self.old self.new (call.list (map string_bytes l.names.items) ∷ [])) }
        ensures listed { IfOk result (λ l. (f : Folders) → has self.old f
            → map string_bytes l.names.items ≡ map (λ (m : Mail). m.name) f.fresh) }
        ensures kept { (f : Folders) → has self.old f → has self.new f };

    /// The octets of a new message, or why it stays.
    fn read(&mut self, name: &str) -> Result<Vec<u8>, Reason>
        ensures call { OnlyMakes made has self.old self.new
            (call.read name.now (look_of result) ∷ []) }
        ensures found { IfOk result (λ v. (f : Folders) → has self.old f
            → HasNew name.now v.items f) };

    /// Hands a message to the archive.
    fn capture(&mut self, name: &str, octets: Vec<u8>) -> Result<Taken, Refusal<Self::Fault>>
        ensures call { OnlyMakes made has self.old self.new
            (call.capture name.now octets.items (answer_of result) ∷ []) };

    /// Moves a message from `new` to `cur`. A refusal moves nothing.
    fn file_away(&mut self, name: &str) -> Result<(), Self::Fault>
        ensures made { Makes made self.old self.new
            (call.move name.now (is_done result) ∷ []) }
        ensures moved { OnOk result ((f : Folders) → has self.old f
            → has self.new (moved name.now f)) }
        ensures kept { OnErr result ((f : Folders) → has self.old f → has self.new f) };

    /// Tells that a message stays, and why.
    fn tell(&mut self, name: &str, reason: &Reason)
        ensures call { OnlyMakes made has self.old self.new
            (call.tell name.now (cause_of reason.now) ∷ []) };

    /// Remembers that a message stays, and why, for the next intake.
    fn remember(&mut self, name: &str, reason: Reason)
        ensures call { OnlyMakes made has self.old self.new
            (call.remember name.now (cause_of reason) ∷ []) };

    /// Makes the moves so far last over a power cut.
    fn settle(&mut self) -> Result<(), Self::Fault>
        ensures call { OnlyMakes made has self.old self.new
            (call.settle (is_done result) ∷ []) };
}
