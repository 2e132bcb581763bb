//! Payloads, whose lengths the command line gives. A payload that is not kept is read all the same, so that the next
//! line is found where it begins.

ghost use Rattle.std.specs.Prelude.{◌≡◌, ◌+◌, ◌<◌, ◌≤◌, ◌++◌, [], length, drop, IfOk, Ok, None, true, false, vec_len, vec_capacity};
ghost use Rattle.session_protocol.specs.Payloads.{IsRead, AreRead};
ghost use Rattle.session_protocol.specs.Told.{TellsReads};

use crate::stream::{ReadFault, Source};
use crate::tries::read_some;
use desk_commands::Payload;
use std::alloc::Global;

/// How many octets are read at once.
const PIECE: usize = 1024;

/// Reads `size` octets and drops them; false where the input ends before.
fn skip<S: Source>(source: &mut S, size: usize) -> Result<bool, ReadFault>
    ensures whole { S.tells → result ≡ Ok true → (size ≤ length (S.left source.old)) ×
        (S.left source.new ≡ drop size (S.left source.old)) }
    ensures cut { S.tells → result ≡ Ok false → (length (S.left source.old) < size)
        × (S.left source.new ≡ []) }
    ensures told { TellsReads S.Source (result ≡ Ok false) result source.old source.new }
{
    let mut room = [0u8; PIECE];
    let mut got = 0;
    while got < size {
        let most = (size - got).min(PIECE);
        let count = read_some(source, &mut room[..most])?;
        if count == 0 {
            return Ok(false);
        }
        got += count;
    }
    Ok(true)
}

/// Appends octets for which there is capacity.
fn append(octets: &mut Vec<u8>, more: &[u8])
    requires { vec_len octets.old + length more.now ≤ vec_capacity octets.old }
    ensures items { octets.new.items ≡ octets.old.items ++ more.now }
    ensures len { vec_len octets.new ≡ vec_len octets.old + length more.now }
    ensures capacity { vec_capacity octets.old ≤ vec_capacity octets.new }
{
    octets.extend_from_slice(more).unwrap();
}

/// Reads `size` octets into an empty vector that has room for them; false where the input ends before.
fn fill<S: Source>(source: &mut S, octets: &mut Vec<u8>, size: usize) -> Result<bool, ReadFault>
    requires empty { vec_len octets.old ≡ 0 }
    requires room { size ≤ vec_capacity octets.old }
    ensures whole { S.tells → result ≡ Ok true
        → S.left source.old ≡ octets.new.items ++ S.left source.new }
    ensures size { result ≡ Ok true → length octets.new.items ≡ size }
    ensures cut { S.tells → result ≡ Ok false → (length (S.left source.old) < size)
        × (S.left source.new ≡ []) }
    ensures told { TellsReads S.Source (result ≡ Ok false) result source.old source.new }
{
    let mut room = [0u8; PIECE];
    while octets.len() < size {
        let most = (size - octets.len()).min(PIECE);
        let part = &mut room[..most];
        let count = read_some(source, part)?;
        if count == 0 {
            return Ok(false);
        }
        append(octets, &part[..count]);
    }
    Ok(true)
}

/// Reads a payload, which is of `size` octets. It is kept where it is no longer than `limit` and there is memory for it, and is
/// `TooLong` or `NoMemory` otherwise. None where the input ends before.
pub fn read_payload<S: Source>(
    alloc: Global,
    source: &mut S,
    size: usize,
    limit: usize,
) -> Result<Option<Payload>, ReadFault>
    ensures octets { IfOk result
        (λ p. IsRead S.tells size limit p (S.left source.old) (S.left source.new)) }
    ensures told { TellsReads S.Source (result ≡ Ok None) result source.old source.new }
{
    if size > limit {
        return Ok(skip(source, size)?.then_some(Payload::TooLong));
    }
    let Ok(mut octets) = Vec::with_capacity(alloc, size) else {
        return Ok(skip(source, size)?.then_some(Payload::NoMemory));
    };
    Ok(fill(source, &mut octets, size)?.then_some(Payload::Whole(octets)))
}

/// Reads two payloads of these sizes in octets, the second directly after the first, each as `read_payload` does. None
/// where the input ends before.
pub fn read_two<S: Source>(
    alloc: Global,
    source: &mut S,
    sizes: (usize, usize),
    limits: (usize, usize),
) -> Result<Option<(Payload, Payload)>, ReadFault>
    ensures octets { IfOk result
        (λ p. AreRead S.tells sizes limits p (S.left source.old) (S.left source.new)) }
    ensures told { TellsReads S.Source (result ≡ Ok None) result source.old source.new }
{
    let Some(first) = read_payload(alloc, source, sizes.0, limits.0)? else {
        return Ok(None);
    };
    let Some(second) = read_payload(alloc, source, sizes.1, limits.1)? else {
        return Ok(None);
    };
    Ok(Some((first, second)))
}
