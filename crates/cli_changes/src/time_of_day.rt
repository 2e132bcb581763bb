//! The time of day, in UTC, as a log has it.

ghost use Rattle.std.specs.Prelude.{◌≡◌, ◌++◌, [], true, IfOk, OnOk};
ghost use Rattle.cli_console.specs.Failures.{IsTheSame};
ghost use Rattle.cli_changes.specs.Times.{IsLogged, time_words, two_digits};

use cli_console::{Failure, now};
use std::alloc::AllocError;
use tool_texts::Shown;

/// The seconds of a day, of an hour and of a minute.
const DAY: u64 = 86_400;

const HOUR: u64 = 3_600;

const MINUTE: u64 = 60;

/// Adds a number of two digits.
fn push_two(text: &mut Shown, number: u64) -> Result<(), AllocError>
    ensures { OnOk result (text.new ≡ text.old ++ two_digits number) }
{
    text.value(&(number / 10))?;
    text.value(&(number % 10))
}

/// Adds the time of day of a moment in seconds since 1970, as `09:00:03`.
#[tactic(auto, unfolding(crate::specs::Times::time_words))]
pub fn put_time(text: &mut Shown, moment: u64) -> Result<(), AllocError>
    ensures { OnOk result (text.new ≡ text.old ++ time_words moment) }
{
    let second = moment % DAY;
    push_two(text, second / HOUR)?;
    text.words(":")?;
    push_two(text, second % HOUR / MINUTE)?;
    text.words(":")?;
    push_two(text, second % MINUTE)
}

/// Adds the time of day, where there is a clock.
fn put_clock(rt: &HostRuntime, line: &mut Shown) -> Result<(), AllocError>
    ensures { OnOk result (IsLogged true [] line.old line.new) }
{
    let Ok(moment) = now(rt) else {
        return Ok(());
    };
    put_time(line, moment)?;
    line.words(" ")
}

/// Adds what a line of a log begins with: the time of day, where that is asked for and there is a clock.
pub fn put_start(rt: &HostRuntime, line: &mut Shown, has_times: bool) -> Result<(), AllocError>
    ensures { OnOk result (IsLogged has_times [] line.old line.new) }
{
    if has_times {
        return put_clock(rt, line);
    }
    Ok(())
}

/// A text as a line of a log.
pub fn as_line(rt: &HostRuntime, has_times: bool, text: &Shown) -> Result<Shown, AllocError>
    ensures { IfOk result (λ line. IsLogged has_times text.now [] line) }
{
    let mut line = Shown::new(rt.alloc());
    put_start(rt, &mut line, has_times)?;
    line.text(text)?;
    Ok(line)
}

/// A failure that is reported as a line of a log.
pub fn logged(rt: &HostRuntime, has_times: bool, failure: Failure) -> Failure
    ensures { IsTheSame failure result }
{
    match failure {
        Failure::Told(status, text) => Failure::shown(status, as_line(rt, has_times, &text)),
        other => other,
    }
}
