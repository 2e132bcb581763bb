//! Dates as words of a command line: the full-date of RFC 3339, section 5.6.

ghost use Rattle.std.specs.Prelude.{◌≡◌, ◌≤◌, Some, option_map, IfSome, IsTrue, length};
ghost use Rattle.class_plan.specs.Calendar.{number_of_day};
ghost use Rattle.session_protocol.specs.Dates.{has_dashes as has_dashes_of, civil_from, day_of, real_day};

use crate::day::Day;
use class_plan::Date;
use session_words::read_digits;

/// How many octets a date has.
const DATE_OCTETS: usize = 10;

/// The first year of a day that a session may name.
const FIRST_YEAR: u64 = 1970;

/// Whether a word has ten octets, of which the fifth and the eighth are dashes.
fn has_dashes(word: &[u8]) -> bool
    ensures value { result ≡ has_dashes_of word.now }
    ensures length { IsTrue result → length word.now ≡ 10 }
{
    word.len() == DATE_OCTETS && word[4] == b'-' && word[7] == b'-'
}

/// The day of a year, a month and a day, where the calendar has it and the year is 1970 or after it.
fn real_date(year: u64, month: u64, day: u64) -> Option<Day>
    requires year { year ≤ 9999 }
    requires month { month ≤ 12 }
    requires day { day ≤ 31 }
    ensures { option_map (λ d. number_of_day d.date) result
        ≡ real_day (Some (record { year = year; month = month; day = day })) }
{
    if year < FIRST_YEAR {
        return None;
    }
    match Date::new(year as i16, month as i8, day as i8) {
        Ok(date) => Some(Day { date }),
        Err(_) => None,
    }
}

/// The day of a year, a month and a day, where there are all three.
fn day_from(year: Option<u64>, month: Option<u64>, day: Option<u64>) -> Option<Day>
    requires year { IfSome year (λ n. n ≤ 9999) }
    requires month { IfSome month (λ n. n ≤ 12) }
    requires day { IfSome day (λ n. n ≤ 31) }
    ensures { option_map (λ d. number_of_day d.date) result ≡ real_day (civil_from year month day) }
{
    match (year, month, day) {
        (Some(year), Some(month), Some(day)) => real_date(year, month, day),
        _ => None,
    }
}

/// The day of a word `YYYY-MM-DD`: a date that the calendar has, in the years 1970 to 9999. None for any other word.
pub fn read_day(word: &[u8]) -> Option<Day>
    ensures { option_map (λ d. number_of_day d.date) result ≡ day_of word.now }
{
    if !has_dashes(word) {
        return None;
    }
    let year = read_digits(&word[..4], 9999);
    let month = read_digits(&word[5..7], 12);
    let day = read_digits(&word[8..10], 31);
    day_from(year, month, day)
}
