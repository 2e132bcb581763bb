//! Days as they are typed: `YYYY-MM-DD`.

ghost use Rattle.std.specs.Prelude.{◌≡◌, ◌≤◌, Some, option_map, IfSome, IsTrue, length};
ghost use Rattle.command_lines.specs.Days.{day_typed, has_hyphens as has_hyphens_of, named, parts_from, real_day};

use jiff::civil::Date;
use session_words::read_digits;

/// How many octets a day has.
const DAY_OCTETS: usize = 10;

/// The first year of a day.
const FIRST_YEAR: u64 = 1970;

/// Whether a word has ten octets, of which the fifth and the eighth are hyphens.
fn has_hyphens(word: &[u8]) -> bool
    ensures value { result ≡ has_hyphens_of word.now }
    ensures length { IsTrue result → length word.now ≡ 10 }
{
    word.len() == DAY_OCTETS && word[4] == b'-' && word[7] == b'-'
}

/// The day of a year, a month and a day of the month, where the calendar has it and the year is 1970 or a later one.
fn real_day(year: u64, month: u64, day: u64) -> Option<Date>
    requires year { year ≤ 9999 }
    requires month { month ≤ 12 }
    requires day { day ≤ 31 }
    ensures { option_map named result
        ≡ real_day (Some (record { year = year; month = month; day = day })) }
{
    if year < FIRST_YEAR {
        return None;
    }
    Date::new(year as i16, month as i8, day as i8).ok()
}

/// The day of a year, a month and a day of the month, where there are all three.
fn day_from(year: Option<u64>, month: Option<u64>, day: Option<u64>) -> Option<Date>
    requires year { IfSome year (λ n. n ≤ 9999) }
    requires month { IfSome month (λ n. n ≤ 12) }
    requires day { IfSome day (λ n. n ≤ 31) }
    ensures { option_map named result ≡ real_day (parts_from year month day) }
{
    match (year, month, day) {
        (Some(year), Some(month), Some(day)) => real_day(year, month, day),
        _ => None,
    }
}

/// The day of a word `YYYY-MM-DD`, of 1970 to 9999; none for any other word.
fn read_day(word: &[u8]) -> Option<Date>
    ensures { option_map named result ≡ day_typed word.now }
{
    if !has_hyphens(word) {
        return None;
    }
    let year = read_digits(&word[..4], 9999);
    let month = read_digits(&word[5..7], 12);
    let day = read_digits(&word[8..10], 31);
    day_from(year, month, day)
}

/// The day of a text.
pub fn day_of(text: &str) -> Option<Date>
    ensures { option_map named result ≡ day_typed text.now }
{
    read_day(text.as_bytes())
}
