//! The troubles of readers and writers, as a session counts them.

ghost use Rattle.std.specs.Prelude.{◌≡◌, ◌↔◌, true};
ghost use Rattle.std.specs.IoError.{error_kind};

use crate::stream::Trouble;
use std::io::{self, ErrorKind};

/// Whether an error of this kind is an interruption.
pub fn is_interruption(kind: ErrorKind) -> bool
    ensures { (result ≡ true) ↔ (kind ≡ ErrorKind.Interrupted) }
{
    match kind {
        ErrorKind::Interrupted => true,
        _ => false,
    }
}

/// The trouble that an error is: an interruption exactly where its kind is `Interrupted`, and a failure otherwise.
pub fn trouble_of(error: &io::Error) -> Trouble
    ensures { (result ≡ Trouble.Interrupted) ↔ (error_kind error.now ≡ ErrorKind.Interrupted) }
{
    match error.kind() {
        ErrorKind::Interrupted => Trouble::Interrupted,
        _ => Trouble::Failed,
    }
}
