//! An item of a session: one line with its payloads, which is read and executed.

ghost use Rattle.desk_commands.specs.Calls.{Calls};
ghost use Rattle.session_protocol.specs.Commands.{one_command, two_command};
ghost use Rattle.session_protocol.specs.ItemAnswers.{Reacts, SaysEnd};
ghost use Rattle.session_protocol.specs.Session.{start_of, start_by_request, with_payload, with_payloads};
ghost use Rattle.session_protocol.specs.Told.{TellsReads};
ghost use Rattle.session_protocol.specs.LineRequests.{request_view};

use crate::commands::{do_alone, do_one, do_two, limit_of_one, limits_of_two, refused};
use crate::lines::{LineBuffer, LineEnd, read_line};
use crate::payload::{read_payload, read_two};
use crate::reply::Reply;
use crate::requests::{OnePayload, Request, TwoPayloads, read_request};
use crate::stream::{ReadFault, Source};
use desk_commands::Registry;
use std::alloc::Global;

/// How a session ends.
#[derive(Clone, Copy)]
pub enum SessionEnd {
    /// By `QUIT`.
    Quit,
    /// The input ended between commands.
    Ended,
    /// The input ended inside a line or a payload (72).
    CutShort,
    /// A line is too long (73).
    LongLine,
    /// After the last command that a session may have.
    Limit,
}

/// What a line with its payloads leads to.
#[derive(Drop)]
pub enum Reaction {
    /// A reply, and the session goes on.
    Reply(Reply),
    /// The session ends.
    End(SessionEnd),
}

/// Reads the payload of a command that has one, and executes the command.
fn answer_one<S: Source, R: Registry>(
    alloc: Global,
    source: &mut S,
    registry: &mut R,
    command: OnePayload<'_>,
    size: usize,
) -> Result<Reaction, ReadFault>
    ensures reaction { Reacts S.tells (Calls R.keeper) registry.old
        (with_payload size (one_command command.entry) (S.left source.old))
        result registry.new (S.left source.new) }
    ensures told { TellsReads S.Source (SaysEnd result) result source.old source.new }
{
    let Some(payload) = read_payload(alloc, source, size, limit_of_one(command))? else {
        return Ok(Reaction::End(SessionEnd::CutShort));
    };
    Ok(Reaction::Reply(do_one(registry, command, payload)))
}

/// Reads the payloads of a command that has two, and executes the command. Both are read before anything is judged.
fn answer_two<S: Source, R: Registry>(
    alloc: Global,
    source: &mut S,
    registry: &mut R,
    command: TwoPayloads,
    sizes: (usize, usize),
) -> Result<Reaction, ReadFault>
    ensures reaction { Reacts S.tells (Calls R.keeper) registry.old
        (with_payloads sizes.0 sizes.1 (two_command command) (S.left source.old))
        result registry.new (S.left source.new) }
    ensures told { TellsReads S.Source (SaysEnd result) result source.old source.new }
{
    let limits = limits_of_two(command);
    let Some((first, second)) = read_two(alloc, source, sizes, limits)? else {
        return Ok(Reaction::End(SessionEnd::CutShort));
    };
    Ok(Reaction::Reply(do_two(registry, command, &first, &second)))
}

/// Reads the payloads that a line announces, and executes what it asks.
fn answer<S: Source, R: Registry>(
    alloc: Global,
    source: &mut S,
    registry: &mut R,
    request: &Request<'_>,
) -> Result<Reaction, ReadFault>
    ensures reaction { Reacts S.tells (Calls R.keeper) registry.old
        (start_by_request (request_view request.now) (S.left source.old))
        result registry.new (S.left source.new) }
    ensures told { TellsReads S.Source (SaysEnd result) result source.old source.new }
{
    match request {
        Request::Alone(command) => Ok(Reaction::Reply(do_alone(registry, command))),
        Request::One(command, size) => answer_one(alloc, source, registry, *command, *size),
        Request::Two(command, first, second) => {
            answer_two(alloc, source, registry, *command, (*first, *second))
        }
        Request::Quit => Ok(Reaction::End(SessionEnd::Quit)),
        Request::Unknown => Ok(Reaction::Reply(refused(70))),
        Request::BadWord => Ok(Reaction::Reply(refused(71))),
    }
}

/// Reads a line with its payloads, and executes what it asks. A line that is no command is refused with 70 or 71. Input
/// that ends inside a line or payload (72) and a line that is too long (73) end the session.
pub fn next<S: Source, R: Registry>(
    alloc: Global,
    source: &mut S,
    registry: &mut R,
    line: &mut LineBuffer,
) -> Result<Reaction, ReadFault>
    ensures reaction { Reacts S.tells (Calls R.keeper) registry.old
        (start_of (S.left source.old)) result registry.new (S.left source.new) }
    ensures told { TellsReads S.Source (SaysEnd result) result source.old source.new }
{
    match read_line(source, line)? {
        LineEnd::Whole => answer(alloc, source, registry, &read_request(line.as_slice())),
        LineEnd::TooLong => Ok(Reaction::End(SessionEnd::LongLine)),
        LineEnd::Cut => Ok(Reaction::End(SessionEnd::CutShort)),
        LineEnd::Nothing => Ok(Reaction::End(SessionEnd::Ended)),
    }
}
