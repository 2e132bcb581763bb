//! What becomes of a message of old mail.

ghost use Rattle.std.specs.Prelude.{◌≡◌, IfOk};
ghost use Rattle.record_history.specs.Replay.{seal};
ghost use Rattle.mail_import.specs.Fates.{FirstRecords, Knows, decided, fate_by, seal_in};

use crate::known::{AllKnown, FirstRecord};
use crate::message::Terms;
use mail_boxes::{NoMail, judge_message};
use mail_dates::{Dated, date_message};
use mail_intake::Reason;
use record_history::seal_of;
use record_known::{SealKey, key_of};
use std::alloc::{AllocError, Global};

/// Why a message stays.
#[derive(Drop)]
pub enum Stay {
    /// Its octets are none of a message.
    NoMail(NoMail),
    /// It has no moment.
    Undated(Dated),
    /// It has more than 8,388,608 octets.
    TooLong,
    /// It could not be read, or the archive did not take it.
    For(Reason),
}

/// What becomes of a message.
#[derive(Drop)]
pub(crate) enum Fate {
    /// It is captured already, and this is its first record.
    Known(FirstRecord),
    /// It stays, since its octets are none of a message.
    NoMail(NoMail),
    /// It stays, since it has no moment.
    Undated(Dated),
    /// It is captured at a moment, in seconds since 1970.
    Taken(u64),
}

/// What becomes of a message that is captured already as the record `first`, or not yet, and has this moment or none. One that is
/// captured already is passed over, unless it is to be captured again.
fn fate_by(first: Option<FirstRecord>, is_again: bool, dated: Dated) -> Fate
    ensures { result ≡ fate_by first is_again dated }
{
    match first {
        Some(first) if !is_again => Fate::Known(first),
        _ => match dated {
            Dated::Moment(moment) => Fate::Taken(moment),
            Dated::NoField | Dated::NoDate | Dated::ToCome(_) => Fate::Undated(dated),
        },
    }
}

/// The seal of a message, as messages are looked for by it.
fn key_in(alloc: Global, octets: &[u8]) -> Result<SealKey, AllocError>
    ensures { IfOk result (λ k. seal_in k ≡ seal octets.now) }
{
    Ok(key_of(seal_of(alloc, octets)?))
}

/// The seal of a message, and what becomes of it. The only error is out of memory.
pub(crate) fn judge(
    alloc: Global,
    terms: &Terms,
    known: &AllKnown,
    octets: &[u8],
) -> Result<(SealKey, Fate), AllocError>
    ensures seal { IfOk result (λ found. seal_in found.0 ≡ seal octets.now) }
    ensures fate { IfOk result (λ found. (first : FirstRecords) → Knows known.now first
        → found.1 ≡ decided terms.now first octets.now) }
{
    let key = key_in(alloc, octets)?;
    if let Err(why) = judge_message(octets) {
        return Ok((key, Fate::NoMail(why)));
    }
    let dated = date_message(alloc, octets, terms.dating, terms.clock)?;
    let fate = fate_by(known.first_record(&key), terms.is_again, dated);
    Ok((key, fate))
}
