//! The texts of days and moments: the full-date and the date-time of RFC 3339, section 5.6.

ghost use Rattle.std.specs.Prelude.{◌≡◌, ◌<◌, ◌/◌, ◌%◌, ◌++◌, codes, IfOk, OnOk};
ghost use Rattle.record_history.specs.Civil.{civil_of as civil_parts};
ghost use Rattle.record_history.specs.Lines.{civil_text, day_text as day_text_of, moment_text as moment_text_of, two_digits};
ghost use Rattle.record_history.specs.Spelled.{IsDay, IsMoment};

use class_plan::date_of;
use std::alloc::{AllocError, Global};

const DAY_SECONDS: u64 = 86_400;

/// Writes a number below 100 in two digits.
fn push_two(text: &mut Vec<u8>, number: u16) -> Result<(), AllocError>
    requires { number < 100 }
    ensures { OnOk result (text.new.items ≡ text.old.items ++ two_digits number) }
{
    text.push(b'0' + (number / 10) as u8)?;
    text.push(b'0' + (number % 10) as u8)?;
    Ok(())
}

/// Writes a year, a month and a day.
fn civil_digits(alloc: Global, year: u16, month: u16, day: u16) -> Result<Vec<u8>, AllocError>
    requires year { year < 10000 }
    requires month { month < 100 }
    requires day { day < 100 }
    ensures { IfOk result
        (λ v. v.items ≡ civil_text (record { year = year; month = month; day = day })) }
{
    let mut text = Vec::new(alloc);
    push_two(&mut text, year / 100)?;
    push_two(&mut text, year % 100)?;
    text.push(b'-')?;
    push_two(&mut text, month)?;
    text.push(b'-')?;
    push_two(&mut text, day)?;
    Ok(text)
}

/// The year, the month and the day of a day number.
fn civil_of(day: u64) -> (u16, u16, u16)
    requires { IsDay day }
    ensures civil { civil_parts day ≡ record { year = result.0; month = result.1; day = result.2 } }
    ensures digits { (result.0 < 10000) × (result.1 < 100) × (result.2 < 100) }
{
    let date = date_of(day as i64).unwrap();
    let year = date.year().unsigned_abs();
    let month = date.month().unsigned_abs();
    let day = date.day().unsigned_abs();
    (year, u16::from(month), u16::from(day))
}

/// A day of the years 1970 to 9999, as `2031-01-01`.
pub(crate) fn day_text(alloc: Global, day: u32) -> Result<Vec<u8>, AllocError>
    requires { IsDay day }
    ensures { IfOk result (λ v. v.items ≡ day_text_of day) }
{
    let (year, month, day) = civil_of(u64::from(day));
    civil_digits(alloc, year, month, day)
}

/// Writes a time of day, in seconds since midnight.
fn push_time(text: &mut Vec<u8>, seconds: u32) -> Result<(), AllocError>
    requires { seconds < 86400 }
    ensures { OnOk result (text.new.items ≡ text.old.items ++ (codes "T" ++
        two_digits (seconds / 3600) ++ codes ":" ++ two_digits (seconds % 3600 / 60) ++ codes ":" ++
        two_digits (seconds % 60) ++ codes "Z")) }
{
    text.push(b'T')?;
    push_two(text, (seconds / 3600) as u16)?;
    text.push(b':')?;
    push_two(text, (seconds % 3600 / 60) as u16)?;
    text.push(b':')?;
    push_two(text, (seconds % 60) as u16)?;
    text.push(b'Z')?;
    Ok(())
}

/// A moment of the years 1970 to 9999 in UTC, as `2031-01-01T09:30:00Z`.
pub(crate) fn moment_text(alloc: Global, moment: u64) -> Result<Vec<u8>, AllocError>
    requires { IsMoment moment }
    ensures { IfOk result (λ v. v.items ≡ moment_text_of moment) }
{
    let (year, month, day) = civil_of(moment / DAY_SECONDS);
    let mut text = civil_digits(alloc, year, month, day)?;
    push_time(&mut text, (moment % DAY_SECONDS) as u32)?;
    Ok(text)
}
