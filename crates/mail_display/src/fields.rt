//! The fields that a list of messages has.

ghost use Rattle.std.specs.Prelude.{◌≡◌, codes, IfOk, MatchOption, None, Some};
ghost use Rattle.std.specs.Option.{option_or};
ghost use Rattle.mail_head.specs.Fields.{fields_of};
ghost use Rattle.mail_display.specs.Fields.{body_called, IsShownOf};

use crate::groups::is_called;
use crate::showing::{DisplayText, display};
use mail_head::first_field;
use std::alloc::{AllocError, Global};

/// The body of a message's first field of a name, in any case of its letters.
fn body_called<'a>(message: &'a [u8], name: &[u8]) -> Option<&'a [u8]>
    ensures { MatchOption result (body_called name.now (fields_of message.now) ≡ None)
        (λ body. body_called name.now (fields_of message.now) ≡ Some body.now) }
{
    let mut rest = message;
    while let Some(found) = first_field(rest) {
        if is_called(found.field.name(), name) {
            return Some(found.field.raw());
        }
        rest = found.after;
    }
    None
}

/// What is shown of the body of a message's first field of a name, if it has one.
fn shown(alloc: Global, message: &[u8], name: &[u8]) -> Result<Option<DisplayText>, AllocError>
    ensures { IfOk result (IsShownOf (body_called name.now (fields_of message.now))) }
{
    match body_called(message, name) {
        Some(body) => Ok(Some(display(alloc, body)?)),
        None => Ok(None),
    }
}

/// The first From of a message as people read it, or else its first Sender.
pub fn sender(alloc: Global, message: &[u8]) -> Result<Option<DisplayText>, AllocError>
    ensures { IfOk result (IsShownOf (option_or (body_called (codes "from") (fields_of message.now))
        (body_called (codes "sender") (fields_of message.now)))) }
{
    match shown(alloc, message, b"from")? {
        Some(text) => Ok(Some(text)),
        None => shown(alloc, message, b"sender"),
    }
}

/// The first Subject of a message as people read it.
pub fn subject(alloc: Global, message: &[u8]) -> Result<Option<DisplayText>, AllocError>
    ensures { IfOk result (IsShownOf (body_called (codes "subject") (fields_of message.now))) }
{
    shown(alloc, message, b"subject")
}

/// The first Date of a message as people read it. It need not be a date.
pub fn date(alloc: Global, message: &[u8]) -> Result<Option<DisplayText>, AllocError>
    ensures { IfOk result (IsShownOf (body_called (codes "date") (fields_of message.now))) }
{
    shown(alloc, message, b"date")
}
