//! Replies, and how they are written.

ghost use Rattle.std.specs.Prelude.{◌≡◌, ◌++◌, ℕ, [], codes, flat_map, map, OnOk};
ghost use Rattle.record_archive.specs.Lines.{line_view};
ghost use Rattle.session_protocol.specs.Replies.{answer_of, reply_octets, classes_octets, class_octets, refused_octets, outcome_octets, fault_octets, faults_octets, head_octets, ticket_octets, turn_octets, capture_octets, records_octets, list_octets, line_octets};
ghost use Rattle.session_protocol.specs.Written.{Adds, WritesTo};

use crate::buffer::{ReplyBuffer, buffer_all, buffer_pieces, flush};
use crate::due_dates::buffer_due;
use crate::stream::{Sink, WriteFault};
use desk_commands::{Capture, Refusal, Turn};
use itoa::Buffer;
use record_archive::Line;
use sieve_meaning::{Outcome, RunFault};
use sieve_syntax::Text;

/// The answer to a command.
#[derive(Drop)]
pub enum Reply {
    /// It is done.
    Done,
    /// The outcome of a dry run, `FILE` or `TRY`.
    DryRun(Outcome),
    /// A capture has begun, with a budget in steps.
    Begun { ticket: u32, budget: u32 },
    /// How far a capture is after a `TURN`.
    Turned(Turn),
    /// A capture is finished by `FINISH`, with these records.
    Captured(Capture),
    /// The records that are due.
    Listed(Vec<Line>),
    /// It is refused.
    Refused(Refusal),
}

/// Adds the line of a class.
fn buffer_class<K: Sink>(
    sink: &mut K,
    buffer: &mut ReplyBuffer,
    path: &[u8],
) -> Result<(), WriteFault>
    ensures { Adds K.Sink result sink.old buffer.old (class_octets path.now) sink.new buffer.new }
{
    buffer_pieces(
        sink,
        buffer,
        &[b"class ".as_slice(), path, b"\n".as_slice()],
    )
}

/// Adds a line for each class, or `discarded` where there is none.
fn buffer_classes<K: Sink>(
    sink: &mut K,
    buffer: &mut ReplyBuffer,
    paths: &[Text],
) -> Result<(), WriteFault>
    ensures { Adds K.Sink result sink.old buffer.old
        (classes_octets paths.now) sink.new buffer.new }
{
    if paths.is_empty() {
        return buffer_all(sink, buffer, b"discarded\n");
    }
    for path in paths {
        buffer_class(sink, buffer, path.as_slice())?;
    }
    Ok(())
}

/// Adds the line of a fault, which has its number.
fn buffer_fault<K: Sink>(
    sink: &mut K,
    buffer: &mut ReplyBuffer,
    fault: RunFault,
) -> Result<(), WriteFault>
    ensures { Adds K.Sink result sink.old buffer.old (fault_octets fault) sink.new buffer.new }
{
    let mut number = Buffer::new();
    let number = number.format(fault.number()).as_bytes();
    buffer_pieces(
        sink,
        buffer,
        &[b"fault ".as_slice(), number, b"\n".as_slice()],
    )
}

/// Adds the line of the fault, where there is one. No outcome has more than one.
fn buffer_faults<K: Sink>(
    sink: &mut K,
    buffer: &mut ReplyBuffer,
    fault: Option<RunFault>,
) -> Result<(), WriteFault>
    ensures { Adds K.Sink result sink.old buffer.old (faults_octets fault) sink.new buffer.new }
{
    match fault {
        Some(fault) => buffer_fault(sink, buffer, fault),
        None => Ok(()),
    }
}

/// Adds the fault, where there is one, and the classes.
fn buffer_outcome<K: Sink>(
    sink: &mut K,
    buffer: &mut ReplyBuffer,
    outcome: &Outcome,
) -> Result<(), WriteFault>
    ensures { Adds K.Sink result sink.old buffer.old
        (outcome_octets outcome.now) sink.new buffer.new }
{
    buffer_faults(sink, buffer, outcome.fault)?;
    buffer_classes(sink, buffer, outcome.classes.as_slice())
}

/// Adds the ticket and the budget in steps of a capture that has begun.
fn buffer_ticket<K: Sink>(
    sink: &mut K,
    buffer: &mut ReplyBuffer,
    ticket: u32,
    budget: u32,
) -> Result<(), WriteFault>
    ensures { Adds K.Sink result sink.old buffer.old
        (ticket_octets ticket budget) sink.new buffer.new }
{
    let mut number = Buffer::new();
    let number = number.format(ticket).as_bytes();
    let mut steps = Buffer::new();
    let steps = steps.format(budget).as_bytes();
    buffer_pieces(
        sink,
        buffer,
        &[
            b"ticket ".as_slice(),
            number,
            b" budget ".as_slice(),
            steps,
            b"\n".as_slice(),
        ],
    )
}

/// Adds the steps of a capture so far, and whether it has come to its end.
fn buffer_turn<K: Sink>(
    sink: &mut K,
    buffer: &mut ReplyBuffer,
    turn: Turn,
) -> Result<(), WriteFault>
    ensures { Adds K.Sink result sink.old buffer.old
        (turn_octets turn.ended turn.steps) sink.new buffer.new }
{
    let mut steps = Buffer::new();
    let steps = steps.format(turn.steps).as_bytes();
    if turn.ended {
        buffer_pieces(
            sink,
            buffer,
            &[b"ended ".as_slice(), steps, b"\n".as_slice()],
        )
    } else {
        buffer_pieces(
            sink,
            buffer,
            &[b"running ".as_slice(), steps, b"\n".as_slice()],
        )
    }
}

/// Adds the line of a record as far as its due date.
fn buffer_head<K: Sink>(
    sink: &mut K,
    buffer: &mut ReplyBuffer,
    number: u32,
    path: &[u8],
) -> Result<(), WriteFault>
    ensures { Adds K.Sink result sink.old buffer.old
        (head_octets number path.now) sink.new buffer.new }
{
    let mut text = Buffer::new();
    let text = text.format(number).as_bytes();
    buffer_pieces(
        sink,
        buffer,
        &[
            b"record ".as_slice(),
            text,
            b" class ".as_slice(),
            path,
            b" due ".as_slice(),
        ],
    )
}

/// Adds the line of a record.
fn buffer_record<K: Sink>(
    sink: &mut K,
    buffer: &mut ReplyBuffer,
    line: &Line,
) -> Result<(), WriteFault>
    ensures { Adds K.Sink result sink.old buffer.old (line_octets line.now) sink.new buffer.new }
{
    buffer_head(sink, buffer, line.number, line.path.as_slice())?;
    buffer_due(sink, buffer, line.due)
}

/// Adds a line for each record, and nothing where there is none.
fn buffer_list<K: Sink>(
    sink: &mut K,
    buffer: &mut ReplyBuffer,
    lines: &[Line],
) -> Result<(), WriteFault>
    ensures { Adds K.Sink result sink.old buffer.old
        (flat_map line_octets lines.now) sink.new buffer.new }
{
    for line in lines {
        buffer_record(sink, buffer, line)?;
    }
    Ok(())
}

/// Adds a line for each record, or `discarded` where there is none.
fn buffer_records<K: Sink>(
    sink: &mut K,
    buffer: &mut ReplyBuffer,
    lines: &[Line],
) -> Result<(), WriteFault>
    ensures { Adds K.Sink result sink.old buffer.old
        (records_octets (map line_view lines.now)) sink.new buffer.new }
{
    if lines.is_empty() {
        return buffer_all(sink, buffer, b"discarded\n");
    }
    buffer_list(sink, buffer, lines)
}

/// Adds the fault of a finished capture, where there is one, and its records.
fn buffer_capture<K: Sink>(
    sink: &mut K,
    buffer: &mut ReplyBuffer,
    capture: &Capture,
) -> Result<(), WriteFault>
    ensures { Adds K.Sink result sink.old buffer.old
        (capture_octets capture.now.fault (map line_view capture.now.lines.items))
        sink.new buffer.new }
{
    buffer_faults(sink, buffer, capture.fault)?;
    buffer_records(sink, buffer, capture.lines.as_slice())
}

/// Adds the lines of a due list, and `ok` after them.
fn buffer_due_list<K: Sink>(
    sink: &mut K,
    buffer: &mut ReplyBuffer,
    lines: &[Line],
) -> Result<(), WriteFault>
    ensures { Adds K.Sink result sink.old buffer.old
        (list_octets (map line_view lines.now) ++ codes "ok\n") sink.new buffer.new }
{
    buffer_list(sink, buffer, lines)?;
    buffer_all(sink, buffer, b"ok\n")
}

/// Adds the line of a refusal, with its offset where it has one.
fn buffer_refusal<K: Sink>(
    sink: &mut K,
    buffer: &mut ReplyBuffer,
    refusal: Refusal,
) -> Result<(), WriteFault>
    ensures { Adds K.Sink result sink.old buffer.old
        (refused_octets refusal.number refusal.offset) sink.new buffer.new }
{
    let mut number = Buffer::new();
    let number = number.format(refusal.number).as_bytes();
    let Some(offset) = refusal.offset else {
        return buffer_pieces(
            sink,
            buffer,
            &[b"refused ".as_slice(), number, b"\n".as_slice()],
        );
    };
    let mut place = Buffer::new();
    let place = place.format(offset).as_bytes();
    buffer_pieces(
        sink,
        buffer,
        &[
            b"refused ".as_slice(),
            number,
            b" at ".as_slice(),
            place,
            b"\n".as_slice(),
        ],
    )
}

/// Adds the lines of a reply, each with its LF.
fn buffer_reply<K: Sink>(
    sink: &mut K,
    buffer: &mut ReplyBuffer,
    reply: &Reply,
) -> Result<(), WriteFault>
    ensures { Adds K.Sink result sink.old buffer.old
        (reply_octets (answer_of reply.now)) sink.new buffer.new }
{
    match reply {
        Reply::Done => buffer_all(sink, buffer, b"ok\n"),
        Reply::DryRun(outcome) => buffer_outcome(sink, buffer, outcome),
        Reply::Begun { ticket, budget } => buffer_ticket(sink, buffer, *ticket, *budget),
        Reply::Turned(turn) => buffer_turn(sink, buffer, *turn),
        Reply::Captured(capture) => buffer_capture(sink, buffer, capture),
        Reply::Listed(lines) => buffer_due_list(sink, buffer, lines.as_slice()),
        Reply::Refused(refusal) => buffer_refusal(sink, buffer, *refusal),
    }
}

/// Writes the lines of a reply, each with its LF, by way of an empty buffer: by one write where it can hold them all. After
/// a fault a prefix of them is written.
pub fn write_reply<K: Sink>(
    sink: &mut K,
    buffer: &mut ReplyBuffer,
    reply: &Reply,
) -> Result<(), WriteFault>
    requires { buffer.old ≡ [] }
    ensures writes { WritesTo K.Sink result sink.old
        (reply_octets (answer_of reply.now)) sink.new }
    ensures empty { OnOk result (buffer.new ≡ []) }
{
    buffer_reply(sink, buffer, reply)?;
    flush(sink, buffer)
}
