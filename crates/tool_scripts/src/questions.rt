//! What `why` is asked about: a message, a plan and a moment.

use class_plan::{Date, day_number, day_of};
use command_lines::tools::{NO_DAY, Why};
use tool_checks::{NamedPlan, Refusals, read_plan};
use tool_console::{Failure, now, read_file};
use tool_texts::Payload;

/// The seconds of a day.
const DAY: u64 = 86_400;

/// What is asked, with what is read for it.
#[derive(Drop)]
pub struct Question<'a> {
    pub asked: &'a Why<'a>,
    pub plan: NamedPlan,
    pub message: Vec<u8>,
    /// The moment of the capture, in seconds since 1970-01-01.
    pub moment: u64,
}

/// The first second of a day, counted from 1970-01-01; none for an earlier day.
fn start_of(day: Date) -> Option<u64> {
    u64::try_from(day_number(day)).ok()?.checked_mul(DAY)
}

/// The first second of the day that is asked for, or the clock's moment.
fn moment_of(rt: &HostRuntime, day: Option<Date>) -> Result<u64, Failure> {
    let moment = match day {
        Some(day) => start_of(day),
        None => Some(now(rt)?),
    };
    match moment {
        Some(moment) if day_of(moment).is_some() => Ok(moment),
        _ => Err(Failure::told(rt.alloc(), NO_DAY)),
    }
}

/// What is asked about; none where the plan is refused, which is added to what is found. Without a plan's file the only
/// class is `unfiled`. A failure where the day is none of 1970 to 2199.
pub fn read_question<'a>(
    rt: &HostRuntime,
    refusals: &mut Refusals,
    asked: &'a Why<'a>,
) -> Result<Option<Question<'a>>, Failure> {
    let moment = moment_of(rt, asked.day)?;
    let Some(plan) = read_plan(rt, refusals, asked.plan)? else {
        return Ok(None);
    };
    let message = read_file(rt, asked.message, Payload::Message.limit())?;
    Ok(Some(Question {
        asked,
        plan,
        message,
        moment,
    }))
}
