//! A plan that is read from a file.

use class_plan::{Plan, PlanFault};
use cli_console::{Failure, Status, refusal_words};
use cli_sources::payload_of_file;
use desk_commands::{MAX_PLAN_OCTETS, Payload};
use std::alloc::AllocError;
use std::io::ErrorKind;
use tool_texts::{Shown, put};

/// What the name of a file ends with that `mailfile-tool check` judges as a plan.
const PLAN_ENDING: &str = ".toml";

/// The number of a plan's text that is too long.
const TOO_LONG: u8 = 58;

/// Adds what is said of a plan that is refused by a number.
fn put_refused(text: &mut Shown, path: &str, number: u8) -> Result<(), AllocError> {
    put!(text; named(path.as_bytes()) ": " value(&number) ": " words(refusal_words(number)))?;
    if !path.ends_with(PLAN_ENDING) {
        return text.words("; mailfile-tool check says where, once the name ends with .toml");
    }
    text.words("; mailfile-tool check ")?;
    text.named(path.as_bytes())?;
    text.words(" says where")
}

/// The failure of a plan that is refused by a number.
fn plan_refused(rt: &HostRuntime, path: &str, number: u8) -> Failure {
    let mut text = Shown::new(rt.alloc());
    match put_refused(&mut text, path, number) {
        Ok(()) => Failure::Told(Status::BadData, text),
        Err(AllocError) => Failure::NoMemory,
    }
}

/// The text of a plan's file.
fn read_text(rt: &HostRuntime, path: &str) -> Result<Vec<u8>, Failure> {
    match payload_of_file(rt, path, MAX_PLAN_OCTETS) {
        Ok(Payload::Whole(text)) => Ok(text),
        Ok(Payload::TooLong) => Err(plan_refused(rt, path, TOO_LONG)),
        Ok(Payload::NoMemory) => Err(Failure::NoMemory),
        Err(error) if error.kind() == ErrorKind::OutOfMemory => Err(Failure::NoMemory),
        Err(error) if error.kind() == ErrorKind::NotFound => {
            Err(Failure::at(rt.alloc(), Status::NoInput, path, &"no such file"))
        }
        Err(error) => Err(Failure::at(rt.alloc(), Status::NoInput, path, &error)),
    }
}

/// The plan of a file. `NoInput` where the file cannot be read, and `BadData` with the number where its text is no plan.
pub fn read_plan(rt: &HostRuntime, path: &str) -> Result<Plan, Failure> {
    let text = read_text(rt, path)?;
    match Plan::from_toml(rt.alloc(), text.as_slice()) {
        Ok(plan) => Ok(plan),
        Err(PlanFault::NoMemory) => Err(Failure::NoMemory),
        Err(fault) => Err(plan_refused(rt, path, fault.number())),
    }
}
