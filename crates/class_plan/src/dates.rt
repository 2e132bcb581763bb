//! Capture days and due dates, by the proleptic Gregorian calendar of the crate `jiff`.
ghost use Rattle.std.specs.Prelude.{◌≡◌, ℕ, pos, ◌/◌, ◌≤◌, ◌<◌, ◌+ℤ◌, ◌<ℤ◌, ◌≤ℤ◌, Option, Some, option_map, MatchOption, IfSome};
ghost use Rattle.jiff.specs.Words.{epoch_day, IsBetween};
ghost use Rattle.jiff_core.specs.declared.civil.date.Date.{Date};
ghost use Rattle.class_plan.specs.Schedules.{most, IsInRange};
ghost use Rattle.class_plan.specs.Calendar.{number_of_day, due_by};
ghost use Rattle.class_plan.specs.Dates.{IsCaptureDay, IsDue, IsEarlier, IsLater, IsMonthsAfter, IsPeriodAfter, IsSameDay};

use crate::schedules::{Schedule, Unit};
use jiff::ToSpan;
use jiff::civil::{Date, date};

const DAY_SECONDS: u64 = 86_400;

/// The last moment of 2199, in seconds since 1970-01-01T00:00:00Z.
const LAST_MOMENT: u64 = 7_258_118_399;

/// The day number of 9999-12-31.
const LAST_DAY: i64 = 2_932_896;

fn days_after(day: Date, count: u32) -> Date
    requires day { IsCaptureDay day }
    requires count { count ≤ 366000 }
    ensures { epoch_day result ≡ epoch_day day +ℤ pos count }
{
    day.saturating_add((count as i64).days())
}

/// The date a number of months later, with the day cut to the month's last.
fn months_after(day: Date, count: u32) -> Date
    requires day { IsCaptureDay day }
    requires count { count ≤ 12000 }
    ensures { IsMonthsAfter day count result }
{
    day.saturating_add((count as i64).months())
}

fn period_after(day: Date, count: u32, unit: Unit) -> Date
    requires day { IsCaptureDay day }
    requires count { count ≤ most unit }
    ensures { IsPeriodAfter day count unit result }
{
    match unit {
        Unit::Days => days_after(day, count),
        Unit::Months => months_after(day, count),
        Unit::Years => months_after(day, count * 12),
    }
}

/// The UTC date of a moment in seconds since 1970-01-01T00:00:00Z, or `None` for a moment after
/// 2199-12-31T23:59:59Z.
pub fn day_of(moment: u64) -> Option<Date>
    ensures capture { IfSome result (λ d. IsCaptureDay d) }
    ensures date { MatchOption result (7258118399 < moment) (λ d. (moment ≤ 7258118399) ×
        (epoch_day d ≡ pos (moment / 86400))) }
{
    if moment > LAST_MOMENT {
        return None;
    }
    let days = (moment / DAY_SECONDS) as i64;
    Some(date(1970, 1, 1).saturating_add(days.days()))
}

/// The due date, by a schedule, of a record that was captured on a day. The schedule's days, months
/// or years are added to that day; in a shorter month the day is cut to the month's last. Where the
/// schedule names the year's end, the due date is 31 December of the year reached. `None` for a
/// permanent schedule. A due date comes after the capture day.
///
/// The caller gives a day of 1970 to 2199 and a count in its unit's range.
pub fn due_date(day: Date, schedule: Schedule) -> Option<Date>
    requires day { IsCaptureDay day }
    requires range { IsInRange schedule }
    ensures due { IsDue day schedule result }
    ensures number { option_map number_of_day result ≡ due_by (number_of_day day) schedule }
    ensures only { (r : Option Date) → IsDue day schedule r → IsSameDay r result }
    ensures later { IfSome result (λ e. IsLater day e) }
{
    match schedule {
        Schedule::Permanent => None,
        Schedule::After {
            count,
            unit,
            year_end,
            ..
        } => {
            let date = period_after(day, count, unit);
            Some(if year_end { date.last_of_year() } else { date })
        }
    }
}

/// The day number of a date, in days since 1970-01-01.
///
/// An earlier date, by year, month and day, has a smaller number.
pub fn day_number(day: Date) -> i64
    ensures capture { IsCaptureDay day → IsBetween (pos 0) (pos 84005) result }
    ensures number { result ≡ epoch_day day }
    ensures ordered { (e : Date) → (IsEarlier day e → result <ℤ epoch_day e) ×
        (result <ℤ epoch_day e → IsEarlier day e) }
{
    date(1970, 1, 1).duration_until(day).as_hours() / 24
}

/// The date with a day number, in days since 1970-01-01. `None` for a number below 0 or above
/// 2,932,896, which is 9999-12-31. No other date has that number.
pub fn date_of(number: i64) -> Option<Date>
    ensures capture { IfSome result (λ d. number ≤ℤ pos 84005 → IsCaptureDay d) }
    ensures date { MatchOption result (¬ (IsBetween (pos 0) (pos 2932896) number))
        (λ d. IsBetween (pos 0) (pos 2932896) number × (epoch_day d ≡ number)) }
    ensures only { (e : Date) → epoch_day e ≡ number → IsBetween (pos 0) (pos 2932896) number →
        IsSameDay (Some e) result }
{
    if number < 0 || number > LAST_DAY {
        return None;
    }
    Some(date(1970, 1, 1).saturating_add(number.days()))
}
