//! The time and the day.

ghost use Rattle.std.specs.Prelude.{◌≡◌, Ok, IfSome, int_le};
ghost use Rattle.jiff.specs.Words.{epoch_day};
ghost use Rattle.cli_console.specs.Days.{is_by as is_due_by};

use crate::failure::{Failure, Status};
use class_plan::{Date, day_number, day_of};
use std::time::{SystemTime, UNIX_EPOCH};
use tool_texts::{Shown, put};

/// The failure of a clock.
fn no_time(rt: &HostRuntime, words: &'static str) -> Failure {
    Failure::told(rt.alloc(), Status::TryAgain, words)
}

/// The time of the clock, in seconds since 1970-01-01T00:00:00Z. `TryAgain` where there is no clock, or it is before
/// 1970.
pub fn now(rt: &HostRuntime) -> Result<u64, Failure> {
    let time = SystemTime::now(rt).map_err(|_| no_time(rt, "no clock"))?;
    let since = time
        .duration_since(UNIX_EPOCH)
        .map_err(|_| no_time(rt, "the clock is before 1970"))?;
    Ok(since.as_secs())
}

/// The day of the clock, in UTC. `TryAgain` also where that is after 2199.
pub fn today(rt: &HostRuntime) -> Result<Date, Failure> {
    day_of(now(rt)?).ok_or_else(|| no_time(rt, "the clock is after 2199"))
}

/// A day that is asked for, or else today.
pub fn day_or_today(rt: &HostRuntime, asked: Option<Date>) -> Result<Date, Failure>
    ensures { IfSome asked (λ day. result ≡ Ok day) }
{
    match asked {
        Some(day) => Ok(day),
        None => today(rt),
    }
}

/// Whether a day has come by another.
fn has_come(day: Date, today: Date) -> bool
    ensures { result ≡ int_le (epoch_day day) (epoch_day today) }
{
    day_number(day) <= day_number(today)
}

/// Finds that a day has come. `Usage` where it is later than today: nothing is due by it yet.
pub fn judge_day(rt: &HostRuntime, day: Date) -> Result<(), Failure> {
    if has_come(day, today(rt)?) {
        return Ok(());
    }
    let mut text = Shown::new(rt.alloc());
    put!(text; value(&day)
        ": this day has not come yet; report --day shows what will be due by it")?;
    Err(Failure::Told(Status::Usage, text))
}

/// Whether there is a due day that is not later than a day.
pub fn is_by(due: Option<Date>, day: Date) -> bool
    ensures { result ≡ is_due_by due day }
{
    match due {
        Some(due) => has_come(due, day),
        None => false,
    }
}
