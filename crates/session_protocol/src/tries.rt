//! Reads and writes that try again after an interruption.

ghost use Rattle.std.specs.Prelude.{◌≡◌, ◌+◌, ◌<◌, ◌≤◌, ◌++◌, ◌∷◌, [], length, take, IfOk, OnErr, IfSome, IfNone, Ok, None};
ghost use Rattle.session_protocol.specs.Streams.{TellsTroubles};
ghost use Rattle.session_protocol.specs.Told.{TellsReads};
ghost use Rattle.session_protocol.specs.Written.{WritesTo};

use crate::stream::{ReadFault, Sink, Source, Trouble, WriteFault};

/// How many interruptions in a row are a fault.
const PATIENCE: u8 = 64;

/// Reads as `Source::read` does, and tries again after an interruption. The answer 0 means the end of the input.
pub fn read_some<S: Source>(source: &mut S, room: &mut [u8]) -> Result<usize, ReadFault>
    requires { 0 < length room.old }
    ensures within { IfOk result (λ n. n ≤ length room.old) }
    ensures octets { S.tells
        → IfOk result (λ n. S.left source.old ≡ take n room.new ++ S.left source.new) }
    ensures end { S.tells → result ≡ Ok 0 → S.left source.old ≡ [] }
    ensures over { S.tells → result ≡ Ok 0 → S.left source.new ≡ [] }
    ensures told { TellsReads S.Source (result ≡ Ok 0) result source.old source.new }
{
    for _ in 0..PATIENCE {
        match source.read(room) {
            Ok(n) => return Ok(n),
            Err(Trouble::Interrupted) => {}
            Err(Trouble::Failed) => return Err(ReadFault),
        }
    }
    Err(ReadFault)
}

/// Reads one octet; none at the end of the input.
pub fn read_one<S: Source>(source: &mut S) -> Result<Option<u8>, ReadFault>
    ensures some { S.tells
        → IfOk result (λ o. IfSome o (λ x. S.left source.old ≡ x ∷ S.left source.new)) }
    ensures none { S.tells
        → IfOk result (λ o. IfNone o ((S.left source.old ≡ []) × (S.left source.new ≡ []))) }
    ensures told { TellsReads S.Source (result ≡ Ok None) result source.old source.new }
{
    let mut room = [0u8; 1];
    match read_some(source, &mut room)? {
        0 => Ok(None),
        _ => Ok(Some(room[0])),
    }
}

/// Writes one octet or more, and tries again after an interruption.
fn write_some<K: Sink>(sink: &mut K, octets: &[u8]) -> Result<usize, WriteFault>
    requires { 0 < length octets.now }
    ensures within { IfOk result (λ n. (0 < n) × (n ≤ length octets.now)) }
    ensures written { K.tells
        → IfOk result (λ n. K.written sink.new ≡ K.written sink.old ++ take n octets.now) }
    ensures same { K.tells → OnErr result (K.written sink.new ≡ K.written sink.old) }
    ensures troubles { TellsTroubles K.troubles result sink.old sink.new }
{
    for _ in 0..PATIENCE {
        match sink.write(octets) {
            Ok(0) => return Err(WriteFault),
            Ok(n) => return Ok(n),
            Err(Trouble::Interrupted) => {}
            Err(Trouble::Failed) => return Err(WriteFault),
        }
    }
    Err(WriteFault)
}

/// Writes all octets. After a fault some prefix of them is written.
pub fn write_all<K: Sink>(sink: &mut K, octets: &[u8]) -> Result<(), WriteFault>
    ensures { WritesTo K.Sink result sink.old octets.now sink.new }
{
    let mut at = 0;
    while at < octets.len() {
        at += write_some(sink, &octets[at..])?;
    }
    Ok(())
}
