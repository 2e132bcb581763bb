//! What an encoded word says (RFC 2047, sections 3 and 4).

ghost use Rattle.std.specs.Prelude.{◌≡◌, ◌<◌, length, IfOk, IfSome, MatchOption};
ghost use Rattle.mail_display.specs.Decoding.{b_octets, octets_of, read_octets, readable_at};
ghost use Rattle.mail_display.specs.Readable.{IsReadable};

use crate::quoted::decode_q;
use crate::words::front_word;
use base64::DecodeAllocError;
use base64::engine::general_purpose::STANDARD_PAD_INDIFFERENT;
use mail_charsets::{Charset, decode};
use std::alloc::{AllocError, Global};

/// A word at the front of a text that could be decoded, in UTF-8, and the rest of the text.
#[derive(Drop)]
pub struct ReadableWord<'a> {
    pub octets: Vec<u8>,
    /// Whether each of its octets has a character in its charset.
    pub is_whole: bool,
    pub rest: &'a [u8],
}

/// The octets that B text encodes, padded or not (RFC 2047, section 4.1). None where it is no base64.
fn decode_b(alloc: Global, text: &[u8]) -> Result<Option<Vec<u8>>, AllocError>
    ensures { IfOk result (λ octets. MatchOption octets (b_octets text.now ≡ None)
        (λ v. b_octets text.now ≡ Some v.items)) }
{
    match STANDARD_PAD_INDIFFERENT.decode(alloc, text) {
        Ok(octets) => Ok(Some(octets)),
        Err(DecodeAllocError::OutOfMemory) => Err(AllocError),
        Err(_) => Ok(None),
    }
}

/// The octets that a word's text encodes, by the letter of its encoding. None where the letter is none of B, b, Q and
/// q, or the text is bad.
fn octets_of(alloc: Global, encoding: u8, text: &[u8]) -> Result<Option<Vec<u8>>, AllocError>
    ensures { IfOk result (λ octets. MatchOption octets (octets_of encoding text.now ≡ None)
        (λ v. octets_of encoding text.now ≡ Some v.items)) }
{
    match encoding {
        b'B' | b'b' => decode_b(alloc, text),
        b'Q' | b'q' => decode_q(alloc, text),
        _ => Ok(None),
    }
}

/// The octets of a charset in UTF-8 and whether each has a character. Those of UTF-8 stay as they are, since a
/// character may be split over two words.
fn in_utf8(alloc: Global, charset: Charset, octets: Vec<u8>) -> Result<(Vec<u8>, bool), AllocError>
    ensures octets { IfOk result (λ r. r.0.items ≡ (read_octets charset octets.items).0) }
    ensures whole { IfOk result (λ r. r.1 ≡ (read_octets charset octets.items).1) }
{
    match charset {
        Charset::Utf8 => Ok((octets, true)),
        _ => {
            let decoded = decode(alloc, charset, octets.as_slice())?;
            Ok((decoded.text.into_bytes(), decoded.unread == 0))
        }
    }
}

/// The word at the front of a text, if one stands there whose charset is known and whose text is good.
#[tactic(auto, unfolding(crate::specs::Decoding::readable_at))]
pub fn readable_word(alloc: Global, text: &[u8]) -> Result<Option<ReadableWord<'_>>, AllocError>
    ensures value { IfOk result (λ word. IsReadable (readable_at text.now) word) }
    ensures shorter { IfOk result (λ word. IfSome word (λ w. length w.rest.now < length text.now)) }
{
    let Some(front) = front_word(text) else {
        return Ok(None);
    };
    let Some(charset) = Charset::named(front.charset) else {
        return Ok(None);
    };
    let Some(octets) = octets_of(alloc, front.encoding, front.text)? else {
        return Ok(None);
    };
    let (octets, is_whole) = in_utf8(alloc, charset, octets)?;
    Ok(Some(ReadableWord {
        octets,
        is_whole,
        rest: front.rest,
    }))
}
