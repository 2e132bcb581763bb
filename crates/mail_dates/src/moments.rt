//! The moment that a text gives (RFC 5322, sections 3.3 and 4.3).

ghost use Rattle.std.specs.Prelude.{◌≡◌, IfOk, true};
ghost use Rattle.jiff_fmt.specs.Rfc2822.{timestamp};
ghost use Rattle.mail_dates.specs.Moments.{moment_of, second_of, since_1970};

use crate::comments::without_comments;
use jiff_fmt::rfc2822::DateTimeParser;
use std::alloc::{AllocError, Global};

/// A number of seconds since 1970; none before that.
fn since_1970(seconds: i64) -> Option<u64>
    ensures { result ≡ since_1970 seconds }
{
    if seconds < 0 {
        None
    } else {
        Some(seconds.unsigned_abs())
    }
}

/// The moment of a text without comments.
fn moment_of_plain(text: &[u8]) -> Option<u64>
    ensures { result ≡ second_of (timestamp true text.now) }
{
    let parser = DateTimeParser::new().relaxed_weekday(true);
    match parser.parse_timestamp(text) {
        Ok(timestamp) => since_1970(timestamp.floor_second()),
        Err(_) => None,
    }
}

/// The moment of a text, in seconds since 1970 and without leap seconds; none where the text is no date, or one before 1970.
///
/// The date is one of RFC 5322, section 3.3, or of section 4.3: comments, a year of two or three digits, and names of zones,
/// of which one that the RFC does not name is UTC. A second of 60 is the one before it. The day of the week is not judged. The
/// one error is out of memory.
pub fn moment_of(alloc: Global, text: &[u8]) -> Result<Option<u64>, AllocError>
    ensures { IfOk result (λ moment. moment ≡ moment_of text.now) }
{
    match without_comments(alloc, text)? {
        Some(plain) => Ok(moment_of_plain(plain.as_slice())),
        None => Ok(None),
    }
}
