//! Replies on their way to a sink. Their octets are held until a reply ends, or until there is no room for more, and then
//! written together.

ghost use Rattle.std.specs.Prelude.{◌≡◌, ◌+◌, ◌<◌, ◌++◌, [], flat_map, length, OnOk};
ghost use Rattle.std.specs.Bool.{OnTrue, OnFalse};
ghost use Rattle.session_protocol.specs.Written.{Adds, WritesTo};

use crate::stream::{Sink, WriteFault};
use crate::tries::write_all;
use std::marker::Model;

/// How many octets are held at most.
const MOST_HELD: usize = 4096;

/// The octets of a reply that are still to be written, at most 4,096. Contracts see it as their list.
pub struct ReplyBuffer {
    octets: [u8; 4096],
    len: usize,
}

impl Model for ReplyBuffer {
    ghost use Rattle.std.specs.Prelude.{List, ℕ, take, ◌≤◌};

    ghost Value = { List ℕ };

    ghost view = { λ b. take b.len b.octets };

    ghost invariant = { λ b. b.len ≤ 4096 };
}

impl Drop for ReplyBuffer {
    fn drop(self) {
        let Self { octets: _, len: _ } = self;
    }
}

impl ReplyBuffer {
    /// A buffer that holds nothing.
    pub fn new() -> ReplyBuffer
        ensures { result ≡ [] }
    {
        ReplyBuffer {
            octets: [0; 4096],
            len: 0,
        }
    }

    /// Holds these octets behind those that are held, and answers true; or false, where there is no room for all of them.
    fn put(&mut self, octets: &[u8]) -> bool
        ensures added { OnTrue result (self.new ≡ self.old ++ octets.now) }
        ensures same { OnFalse result (self.new ≡ self.old) }
        ensures full { OnFalse result (4096 < length self.old + length octets.now) }
    {
        let count = octets.len();
        if count > MOST_HELD - self.len {
            return false;
        }
        let room = &mut self.octets[..];
        room[self.len..self.len + count].copy_from_slice(octets);
        self.len += count;
        true
    }

    /// The octets that are held.
    fn as_slice(&self) -> &[u8]
        ensures { result.now ≡ self.now }
    {
        &self.octets[..self.len]
    }

    /// Lets all octets go.
    fn clear(&mut self)
        ensures { self.new ≡ [] }
    {
        self.len = 0;
    }
}

/// Writes what a buffer holds, and empties it. After a fault some prefix of that is written.
pub fn flush<K: Sink>(sink: &mut K, buffer: &mut ReplyBuffer) -> Result<(), WriteFault>
    ensures writes { WritesTo K.Sink result sink.old buffer.old sink.new }
    ensures empty { OnOk result (buffer.new ≡ []) }
{
    write_all(sink, buffer.as_slice())?;
    buffer.clear();
    Ok(())
}

/// Adds octets to a buffer. Where there is no room for them all, what it holds is written first, and so are they where
/// they are more than it can hold.
pub fn buffer_all<K: Sink>(
    sink: &mut K,
    buffer: &mut ReplyBuffer,
    octets: &[u8],
) -> Result<(), WriteFault>
    ensures { Adds K.Sink result sink.old buffer.old octets.now sink.new buffer.new }
{
    if buffer.put(octets) {
        return Ok(());
    }
    flush(sink, buffer)?;
    if buffer.put(octets) {
        return Ok(());
    }
    write_all(sink, octets)
}

/// Adds pieces to a buffer, one after the other, as `buffer_all` does.
pub fn buffer_pieces<K: Sink>(
    sink: &mut K,
    buffer: &mut ReplyBuffer,
    pieces: &[&[u8]],
) -> Result<(), WriteFault>
    ensures { Adds K.Sink result sink.old buffer.old
        (flat_map (λ p. p.now) pieces.now) sink.new buffer.new }
{
    for piece in pieces {
        buffer_all(sink, buffer, *piece)?;
    }
    Ok(())
}
