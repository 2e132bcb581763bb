//! What each command does, once its payloads are read. The program's registry is the desk: its calls are in `registry`
//! of `filing_desk`.

ghost use Rattle.std.specs.Prelude.{◌≡◌, None};
ghost use Rattle.desk_commands.specs.Answers.{refused as refused_answer};
ghost use Rattle.desk_commands.specs.Calls.{Calls, CallsWith, CallsWithTwo};
ghost use Rattle.desk_commands.specs.Faults.{refused_by};
ghost use Rattle.desk_commands.specs.CallAnswers.{answer_of_done, answer_of_outcome};
ghost use Rattle.session_protocol.specs.Commands.{command_of, one_command, one_limit, two_command, two_limits};
ghost use Rattle.session_protocol.specs.Replies.{answer_of};

use crate::reply::Reply;
use crate::requests::{NoPayload, OnePayload, TwoPayloads};
use desk_commands::{
    DeskFault, MAX_IMAGE_OCTETS, MAX_MESSAGE_OCTETS, MAX_PLAN_OCTETS, MAX_SCRIPT_OCTETS, Payload,
    Refusal, Registry,
};
use sieve_meaning::Outcome;

/// A refusal that has no offset.
pub fn refused(number: u8) -> Reply
    ensures { answer_of result ≡ refused_answer number None }
{
    Reply::Refused(Refusal {
        number,
        offset: None,
    })
}

/// The reply to a call that is refused.
fn reply_of_fault(fault: DeskFault) -> Reply
    ensures { answer_of result ≡ refused_by fault }
{
    Reply::Refused(fault.refusal())
}

/// The reply to a call that answers nothing but success.
fn reply_of_done(done: Result<(), DeskFault>) -> Reply
    ensures { answer_of result ≡ answer_of_done done }
{
    match done {
        Ok(()) => Reply::Done,
        Err(fault) => reply_of_fault(fault),
    }
}

/// The reply to a dry run, `FILE` or `TRY`.
fn reply_of_outcome(outcome: Result<Outcome, DeskFault>) -> Reply
    ensures { answer_of result ≡ answer_of_outcome outcome }
{
    match outcome {
        Ok(outcome) => Reply::DryRun(outcome),
        Err(fault) => reply_of_fault(fault),
    }
}

/// Executes a command without a payload.
pub fn do_alone<R: Registry>(registry: &mut R, command: &NoPayload<'_>) -> Reply
    ensures { Calls R.keeper registry.old (command_of command.now) (answer_of result) registry.new }
{
    match command {
        NoPayload::AddClass(path) => reply_of_done(registry.add_class(path)),
        NoPayload::Activate { officer, name } => reply_of_done(registry.activate(officer, name)),
        NoPayload::Deactivate(officer) => {
            registry.deactivate(officer);
            Reply::Done
        }
        NoPayload::Turn { ticket, count } => match registry.turn(*ticket, *count) {
            Ok(turn) => Reply::Turned(turn),
            Err(fault) => reply_of_fault(fault),
        },
        NoPayload::Finish(ticket) => match registry.finish(*ticket) {
            Ok(capture) => Reply::Captured(capture),
            Err(fault) => reply_of_fault(fault),
        },
        NoPayload::Hold { name, number } => reply_of_done(registry.hold(name, *number)),
        NoPayload::Release { name, number } => reply_of_done(registry.release(name, *number)),
        NoPayload::Due(day) => match registry.due(day.date) {
            Ok(lines) => Reply::Listed(lines),
            Err(fault) => reply_of_fault(fault),
        },
        NoPayload::Destroy { number, day } => reply_of_done(registry.destroy(*number, day.date)),
    }
}

/// The limit of a command's payload, in octets.
pub fn limit_of_one(command: OnePayload<'_>) -> usize
    ensures { result ≡ one_limit command.entry }
{
    match command {
        OnePayload::SetPlan => MAX_PLAN_OCTETS,
        OnePayload::SetScript { .. } | OnePayload::SetGlobal(_) => MAX_SCRIPT_OCTETS,
        OnePayload::SetImage(_) => MAX_IMAGE_OCTETS,
        OnePayload::Begin { .. } => MAX_MESSAGE_OCTETS,
    }
}

/// The limits of a command's two payloads, in octets.
pub fn limits_of_two(command: TwoPayloads) -> (usize, usize)
    ensures { result ≡ two_limits command }
{
    match command {
        TwoPayloads::File => (MAX_SCRIPT_OCTETS, MAX_MESSAGE_OCTETS),
        TwoPayloads::Try => (MAX_IMAGE_OCTETS, MAX_MESSAGE_OCTETS),
    }
}

/// Executes a command with one payload. A message is moved into the call, and not copied.
pub fn do_one<R: Registry>(registry: &mut R, command: OnePayload<'_>, payload: Payload) -> Reply
    ensures { CallsWith R.keeper registry.old (one_limit command.entry) payload
        (one_command command.entry) (answer_of result) registry.new }
{
    match command {
        OnePayload::SetPlan => reply_of_done(registry.set_plan(&payload)),
        OnePayload::SetScript { officer, name } => {
            reply_of_done(registry.set_script(officer, name, &payload))
        }
        OnePayload::SetGlobal(name) => reply_of_done(registry.set_global(name, &payload)),
        OnePayload::SetImage(officer) => reply_of_done(registry.set_image(officer, &payload)),
        OnePayload::Begin { officer, moment } => match registry.begin(officer, moment, payload) {
            Ok((ticket, budget)) => Reply::Begun { ticket, budget },
            Err(fault) => reply_of_fault(fault),
        },
    }
}

/// Executes a command with two payloads.
pub fn do_two<R: Registry>(
    registry: &mut R,
    command: TwoPayloads,
    first: &Payload,
    second: &Payload,
) -> Reply
    ensures { CallsWithTwo R.keeper registry.old (two_limits command) first.now second.now
        (two_command command) (answer_of result) registry.new }
{
    match command {
        TwoPayloads::File => reply_of_outcome(registry.file(first, second)),
        TwoPayloads::Try => reply_of_outcome(registry.try_image(first, second)),
    }
}
