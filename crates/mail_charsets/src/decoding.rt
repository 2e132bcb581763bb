//! Octets of a charset as text.

ghost use Rattle.std.specs.Prelude.{◌≡◌, ◌==◌, ◌<◌, ◌≤◌, ◌++◌, length, map, count_by, IfOk, OnOk, IsTrue, string_bytes, encode_utf8_all};
ghost use Rattle.std.specs.Str.{is_utf8};
ghost use Rattle.std.specs.Str.Lossy.{utf8_lossy};
ghost use Rattle.mail_charsets.specs.declared.charset.Charset.TheVariants.{Utf8};
ghost use Rattle.mail_charsets.specs.Tables.{upper_of, code_point};
ghost use Rattle.mail_charsets.specs.Decoding.{text_of, unread_of};

use crate::charset::Charset;
use crate::tables::{
    ISO_8859_2, ISO_8859_3, ISO_8859_4, ISO_8859_5, ISO_8859_6, ISO_8859_7, ISO_8859_8, ISO_8859_9,
    ISO_8859_10, ISO_8859_11, ISO_8859_13, ISO_8859_14, ISO_8859_15, ISO_8859_16, KOI8_R, KOI8_U,
    WINDOWS_1250, WINDOWS_1251, WINDOWS_1252, WINDOWS_1253, WINDOWS_1254, WINDOWS_1255,
    WINDOWS_1256, WINDOWS_1257, WINDOWS_1258,
};
use std::alloc::{AllocError, Global};

/// The character that stands for what can't be read.
const REPLACEMENT: char = '\u{FFFD}';

/// A text, and how much of it could not be read.
#[derive(Drop)]
pub struct Decoded {
    /// The text, with U+FFFD for what could not be read.
    pub text: String,
    /// How many octets have no character in the charset. UTF-8 that is not well-formed counts as one.
    pub unread: usize,
}

/// The character of the octet 128 + `place`. U+FFFD where the charset has none.
fn upper(charset: Charset, place: usize) -> char
    requires { place < 128 }
    ensures { result ≡ upper_of charset place }
{
    match charset {
        Charset::UsAscii | Charset::Utf8 => REPLACEMENT,
        Charset::Iso8859_1 => char::from(128 + place as u8),
        Charset::Iso8859_2 => ISO_8859_2[place],
        Charset::Iso8859_3 => ISO_8859_3[place],
        Charset::Iso8859_4 => ISO_8859_4[place],
        Charset::Iso8859_5 => ISO_8859_5[place],
        Charset::Iso8859_6 => ISO_8859_6[place],
        Charset::Iso8859_7 => ISO_8859_7[place],
        Charset::Iso8859_8 => ISO_8859_8[place],
        Charset::Iso8859_9 => ISO_8859_9[place],
        Charset::Iso8859_10 => ISO_8859_10[place],
        Charset::Iso8859_11 => ISO_8859_11[place],
        Charset::Iso8859_13 => ISO_8859_13[place],
        Charset::Iso8859_14 => ISO_8859_14[place],
        Charset::Iso8859_15 => ISO_8859_15[place],
        Charset::Iso8859_16 => ISO_8859_16[place],
        Charset::Windows1250 => WINDOWS_1250[place],
        Charset::Windows1251 => WINDOWS_1251[place],
        Charset::Windows1252 => WINDOWS_1252[place],
        Charset::Windows1253 => WINDOWS_1253[place],
        Charset::Windows1254 => WINDOWS_1254[place],
        Charset::Windows1255 => WINDOWS_1255[place],
        Charset::Windows1256 => WINDOWS_1256[place],
        Charset::Windows1257 => WINDOWS_1257[place],
        Charset::Windows1258 => WINDOWS_1258[place],
        Charset::Koi8R => KOI8_R[place],
        Charset::Koi8U => KOI8_U[place],
    }
}

/// The character of an octet in a charset of one octet a character. U+FFFD where it has none.
fn character(charset: Charset, octet: u8) -> char
    ensures { result ≡ code_point charset octet }
{
    if octet < 128 {
        return char::from(octet);
    }
    upper(charset, octet as usize - 128)
}

/// How many of the octets have no character in the charset.
fn unread_octets(charset: Charset, octets: &[u8]) -> usize
    ensures { result ≡ count_by (λ octet. code_point charset octet == 0xFFFD) octets.now }
{
    octets
        .iter()
        .filter(|octet| character(charset, **octet) == REPLACEMENT)
        .count()
}

/// The characters of octets in a charset of one octet a character.
fn by_table(alloc: Global, charset: Charset, octets: &[u8]) -> Result<String, AllocError>
    ensures { IfOk result (λ t. string_bytes t
        ≡ encode_utf8_all (map (code_point charset) octets.now)) }
{
    octets
        .iter()
        .map(|octet| character(charset, *octet))
        .collect(alloc)
}

fn is_well_formed(octets: &[u8]) -> bool
    ensures { result ≡ is_utf8 octets.now }
{
    str::from_utf8(octets).is_ok()
}

/// One where the octets are no well-formed UTF-8, otherwise nought.
#[tactic(auto, unfolding(crate::specs::Decoding::unread_of))]
fn unread_utf8(octets: &[u8]) -> usize
    ensures { result ≡ unread_of Utf8 octets.now }
{
    if is_well_formed(octets) { 0 } else { 1 }
}

/// The text of octets in a charset, and how much of it could not be read. In UTF-8 each ill-formed part becomes one
/// U+FFFD, as Unicode's chapter 3.9 recommends, and all of them count as one. In another charset each octet is the
/// character that the charset's table has for it, or U+FFFD where it has none, and each of those counts. The one error
/// is out of memory.
#[tactic(auto, unfolding(crate::specs::Decoding::text_of, crate::specs::Decoding::unread_of))]
pub fn decode(alloc: Global, charset: Charset, octets: &[u8]) -> Result<Decoded, AllocError>
    ensures text { IfOk result (λ d. string_bytes d.text ≡ text_of charset octets.now) }
    ensures unread { IfOk result (λ d. d.unread ≡ unread_of charset octets.now) }
{
    match charset {
        Charset::Utf8 => Ok(Decoded {
            text: String::from_utf8_lossy(alloc, octets)?,
            unread: unread_utf8(octets),
        }),
        _ => Ok(Decoded {
            text: by_table(alloc, charset, octets)?,
            unread: unread_octets(charset, octets),
        }),
    }
}
