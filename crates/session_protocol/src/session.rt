//! The session: each line is read, executed and answered before the next one.

ghost use Rattle.std.specs.Prelude.{◌≡◌, ◌≢◌, OnOk, Ok, Err, IsErrOf};
ghost use Rattle.desk_commands.specs.Calls.{Calls};
ghost use Rattle.session_protocol.specs.Done.{HasDone, Hears, Says};
ghost use Rattle.session_protocol.specs.Session.{session_in, ending_octets, left_by, IsServed, IsAnswered, IsCut, EndsByInput};
ghost use Rattle.session_protocol.specs.Streams.{Rises, StreamFails, TriesOn};
ghost use Rattle.session_protocol.specs.Written.{WritesTo};

use crate::buffer::ReplyBuffer;
use crate::items::{Reaction, SessionEnd, next};
use crate::lines::LineBuffer;
use crate::reply::write_reply;
use crate::stream::{Sink, Source};
use crate::tries::write_all;
use desk_commands::Registry;
use std::alloc::Global;
use thiserror::Error;

/// The most commands that a session may have. Refused lines count.
pub const COMMANDS: u32 = 1_000_000;

/// Why a session was given up.
#[derive(Clone, Copy, Debug, Drop, PartialEq, Eq, Error)]
pub enum ServeFault {
    /// A read failed, or was interrupted 64 times in a row.
    #[error("read fault")]
    Read,
    /// A write failed, took no octet, or was interrupted 64 times in a row.
    #[error("write fault")]
    Write,
}

/// What is written at the end.
fn ending_text(ending: SessionEnd) -> &'static str
    ensures { result.now ≡ ending_octets ending }
{
    match ending {
        SessionEnd::CutShort => "refused 72\nend\n",
        SessionEnd::LongLine => "refused 73\nend\n",
        SessionEnd::Quit | SessionEnd::Ended | SessionEnd::Limit => "end\n",
    }
}

/// Writes the last lines of a session.
fn write_ending<K: Sink>(sink: &mut K, ending: SessionEnd) -> Result<(), ServeFault>
    ensures writes { WritesTo K.Sink result sink.old (ending_octets ending) sink.new }
    ensures read { result ≢ Err ServeFault.Read }
{
    if write_all(sink, ending_text(ending).as_bytes()).is_err() {
        return Err(ServeFault::Write);
    }
    Ok(())
}

/// Serves a session: reads commands from a source, executes them at a registry, and writes their answers to a sink. The
/// answer of a command is written before the next one is read, and by one write where it has at most 4,096 octets.
/// The session ends by `QUIT`, by the last command that it may have, by a line that is too long, by the end of the input
/// or by a fault.
///
/// What was done before a fault stays done, and nothing is done after it. On a read fault all that was done is
/// answered. On a write fault only a rest of the last answer or of the ending is missing. Nothing is read after `QUIT`,
/// after the last command that a session may have, or after the first 513 octets of a line that is too long.
///
/// Memory is allocated for payloads and by the registry's calls, and for nothing else.
///
/// # Errors
///
/// `ServeFault::Read` where a read failed or 64 in a row were interrupted. `ServeFault::Write` where a write failed,
/// took no octet, or 64 in a row were interrupted. No call is made again after 64 interruptions in a row.
pub fn serve<S: Source, K: Sink, R: Registry>(
    alloc: Global,
    source: &mut S,
    sink: &mut K,
    registry: &mut R,
) -> Result<(), ServeFault>
    ensures done { HasDone (Calls R.keeper)
        (λ items. S.tells → Hears result (session_in (S.left source.old)) items)
        (λ answers. K.tells → Says result (K.written sink.old) answers (K.written sink.new))
        registry.old registry.new }
    ensures ok { S.tells → K.tells
        → OnOk result (IsServed (Calls R.keeper) (session_in (S.left source.old))
        registry.old (K.written sink.old) (K.written sink.new) registry.new) }
    ensures unheard { S.tells → K.tells → IsErrOf result ServeFault.Read →
        IsAnswered (Calls R.keeper) (session_in (S.left source.old))
        registry.old (K.written sink.old) (K.written sink.new) registry.new }
    ensures unsaid { S.tells → K.tells → IsErrOf result ServeFault.Write →
        IsCut (Calls R.keeper) (session_in (S.left source.old))
        registry.old (K.written sink.old) (K.written sink.new) registry.new }
    ensures read { IsErrOf result ServeFault.Read →
        StreamFails (S.troubles source.old) (S.troubles source.new) }
    ensures write { IsErrOf result ServeFault.Write →
        StreamFails (K.troubles sink.old) (K.troubles sink.new) }
    ensures outlasts { OnOk result (((S.troubles source.new).failures
        ≡ (S.troubles source.old).failures)
        × ((K.troubles sink.new).failures ≡ (K.troubles sink.old).failures)) }
    ensures reads { TriesOn result (S.troubles source.old) (S.troubles source.new) }
    ensures writes { TriesOn result (K.troubles sink.old) (K.troubles sink.new) }
    ensures ending { S.tells → K.tells
        → result ≡ Ok tt → EndsByInput (session_in (S.left source.old)).ending
        → Rises (S.ends source.old) (S.ends source.new) }
    ensures unread { S.tells → K.tells → result ≡ Ok tt
        → S.left source.new ≡ left_by 1000000 (S.left source.old) }
{
    let mut line = LineBuffer::new();
    let mut buffer = ReplyBuffer::new();
    for _ in 0..COMMANDS {
        let Ok(reaction) = next(alloc, source, registry, &mut line) else {
            return Err(ServeFault::Read);
        };
        match reaction {
            Reaction::Reply(reply) => {
                if write_reply(sink, &mut buffer, &reply).is_err() {
                    return Err(ServeFault::Write);
                }
            }
            Reaction::End(ending) => return write_ending(sink, ending),
        }
    }
    write_ending(sink, SessionEnd::Limit)
}
