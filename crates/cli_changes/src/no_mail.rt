//! What looks like no message, though any octets could be one.

ghost use Rattle.std.specs.Prelude.{◌≡◌, None, IsSome, MatchResult};
ghost use Rattle.cli_console.specs.Failures.{IsToldAs};
ghost use Rattle.mail_boxes.specs.NoMail.{no_mail};
ghost use Rattle.cli_changes.specs.Deliveries.{no_mail_in};

use cli_console::{Failure, Status};
use desk_commands::Payload;
use mail_boxes::{NoMail, judge_message};
use std::alloc::Global;

/// What is said of a delivery of such octets.
fn delivered_words(why: NoMail) -> &'static str {
    match why {
        NoMail::Empty => "the message has no octets; --as-is captures it all the same",
        NoMail::Mbox => {
            "the message is an mbox; use import for the messages in it, or --as-is to capture it as it is"
        }
        NoMail::NoField => "the message has no field of a header; --as-is captures it as it is",
    }
}

/// What is said of a file or of a part of an mbox that has such octets.
pub(crate) fn imported_words(why: NoMail) -> &'static str {
    match why {
        NoMail::Empty => "it has no octets",
        NoMail::Mbox => "it is an mbox, whose messages are imported by its own name",
        NoMail::NoField => "it has no field of a header",
    }
}

/// Refuses octets that look like no message.
fn refuse_octets(alloc: Global, octets: &[u8]) -> Result<(), Failure>
    ensures { MatchResult result (λ done. no_mail octets.now ≡ None)
        (λ failure. IsSome (no_mail octets.now) × IsToldAs Status.BadData failure) }
{
    match judge_message(octets) {
        Ok(()) => Ok(()),
        Err(why) => Err(Failure::told(alloc, Status::BadData, delivered_words(why))),
    }
}

/// Refuses a message that looks like none: `BadData` where it has no octets, where it is an mbox of two messages or more, and
/// where it has no field of a header.
pub fn refuse_no_mail(alloc: Global, message: &Payload) -> Result<(), Failure>
    ensures { MatchResult result (λ done. no_mail_in message.now ≡ None)
        (λ failure. IsSome (no_mail_in message.now) × IsToldAs Status.BadData failure) }
{
    match message {
        Payload::Whole(octets) => refuse_octets(alloc, octets.as_slice()),
        Payload::TooLong | Payload::NoMemory => Ok(()),
    }
}
