//! Occasions of changes.

ghost use Rattle.std.specs.Prelude.{IfOk};
ghost use Rattle.record_history.specs.Spelled.{IsMoment, IsSpelledDeed};
ghost use Rattle.record_history.specs.Views.{deed_view};
ghost use Rattle.record_ledger.specs.Notes.{TellsOf};

use record_history::{Deed, Event, Filing, LAST_MOMENT, event_line};
use std::alloc::{AllocError, Global};
use std::time::{Clock, SystemTime, UNIX_EPOCH};

/// Who changes an archive, for what reason, and by which clock.
#[derive(Drop)]
pub struct Occasion<'a, K: Clock> {
    /// The clock that shows when.
    pub clock: &'a K,
    /// The moment at which the occasion began, in seconds since 1970-01-01T00:00:00Z. It stands for
    /// that of a change where the clock cannot be read any more.
    pub begun: u64,
    /// 1 to 64 octets from 33 to 126.
    pub who: &'a [u8],
    /// At most 500 octets without a control; empty where no reason is told.
    pub reason: &'a [u8],
    /// More that is told of a change, `key=value` joined by `;`: one word of 1 to 64 octets from 33
    /// to 126 that doesn't begin with a colon; empty where nothing more is told.
    pub notes: &'a [u8],
    /// By which rules messages are filed; none where their classes are given.
    pub filing: Option<Filing<'a>>,
}

/// The moment that a clock shows, in seconds since 1970-01-01T00:00:00Z; none where it cannot be
/// read, or is before that.
fn moment_of<K: Clock>(clock: &K) -> Option<u64> {
    let time = SystemTime::now(clock).ok()?;
    let since = time.duration_since(UNIX_EPOCH).ok()?;
    Some(since.as_secs())
}

impl<K: Clock> Occasion<'_, K> {
    /// The moment of a change that is made now, at most 9999-12-31T23:59:59Z.
    fn moment(&self) -> u64
        ensures { IsMoment result }
    {
        moment_of(self.clock).unwrap_or(self.begun).min(LAST_MOMENT)
    }

    /// The line of an event of a deed with a number, on this occasion. The only refusal is no
    /// memory (99).
    pub(crate) fn line_of(
        &self,
        alloc: Global,
        number: u32,
        deed: Deed<'_>,
    ) -> Result<Vec<u8>, AllocError>
        requires { IsSpelledDeed (deed_view deed) }
        ensures { IfOk result (λ v. TellsOf self.now number (deed_view deed.entry) v.items) }
    {
        let event = Event {
            moment: self.moment(),
            who: self.who,
            deed,
            notes: self.notes,
            reason: self.reason,
        };
        event_line(alloc, u64::from(number), &event)
    }
}
