//! Days and moments of words.

ghost use Rattle.std.specs.Prelude.{◌≡◌, ◌+◌, ◌<◌, ◌≤◌, length, IfOk};
ghost use Rattle.record_history.specs.Reading.{Gives, day_at as day_at_of, day_of as day_of_word, moment_of as moment_of_word, real_day as real_day_of, two_at as two_at_of};
ghost use Rattle.record_history.specs.Spelled.{IsDay, IsMoment};

use crate::faults::LineFault;
use crate::lines::LAST_MOMENT;
use crate::words::word;
use class_plan::{Date, day_number};

/// How many octets a date has.
const DATE_OCTETS: usize = 10;

/// How many octets a moment has.
const MOMENT_OCTETS: usize = 20;

/// The number of two digits at a place.
fn two_at(text: &[u8], at: usize) -> u32
    requires { at + 1 < length text.now }
    ensures value { result ≡ two_at_of text.now at }
    ensures small { result ≤ 2277 }
{
    let tens = u32::from(text[at].saturating_sub(b'0'));
    let ones = u32::from(text[at + 1].saturating_sub(b'0'));
    tens * 10 + ones
}

/// The day of a year, a month and a day, where the calendar has it and the year is from 1970 to 9999.
fn real_day(year: u32, month: u32, day: u32) -> Result<u32, LineFault>
    ensures day { Gives (λ n. n) result
        (real_day_of (record { year = year; month = month; day = day })) }
    ensures within { IfOk result IsDay }
{
    if year < 1970 || year > 9999 || month > 12 || day > 31 {
        return Err(LineFault::NotALine);
    }
    match Date::new(year as i16, month as i8, day as i8) {
        Ok(date) => Ok(day_number(date) as u32),
        Err(_) => Err(LineFault::NotALine),
    }
}

/// The day of a word as `2031-01-01`.
#[tactic(auto, unfolding(crate::specs::Reading::day_of))]
fn day_of(text: &[u8]) -> Result<u32, LineFault>
    ensures day { Gives (λ n. n) result (day_of_word text.now) }
    ensures within { IfOk result IsDay }
{
    if text.len() != DATE_OCTETS {
        return Err(LineFault::NotALine);
    }
    let year = two_at(text, 0) * 100 + two_at(text, 2);
    real_day(year, two_at(text, 5), two_at(text, 8))
}

/// The day of the next word.
#[tactic(auto, unfolding(crate::specs::Reading::day_at))]
pub(crate) fn day_at(text: &[u8]) -> Result<(u32, &[u8]), LineFault>
    ensures day { Gives (λ x. (x.0, x.1.now)) result (day_at_of text.now) }
    ensures within { IfOk result (λ x. IsDay x.0) }
{
    let (date, rest) = word(text);
    let day = day_of(date)?;
    Ok((day, rest))
}

/// The moment of a word as `2031-01-01T09:30:00Z`.
#[tactic(auto, unfolding(crate::specs::Reading::moment_of))]
pub(crate) fn moment_of(text: &[u8]) -> Result<u64, LineFault>
    ensures moment { Gives (λ n. n) result (moment_of_word text.now) }
    ensures within { IfOk result IsMoment }
{
    if text.len() != MOMENT_OCTETS {
        return Err(LineFault::NotALine);
    }
    let day = u64::from(day_of(&text[..DATE_OCTETS])?);
    let hours = u64::from(two_at(text, 11));
    let minutes = u64::from(two_at(text, 14));
    let seconds = u64::from(two_at(text, 17));
    let moment = day * 86_400 + hours * 3_600 + minutes * 60 + seconds;
    if moment > LAST_MOMENT {
        return Err(LineFault::NotALine);
    }
    Ok(moment)
}
