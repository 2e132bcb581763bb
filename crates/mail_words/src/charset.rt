//! The charsets that encoded words are read in.

ghost use Rattle.std.specs.Prelude.{◌≡◌, ◌∷◌, [], map, codes, OnOk, ◌++◌, nat_lt};
ghost use Rattle.std.specs.List.{list_any, list_all};
ghost use Rattle.std.specs.Str.{is_utf8};
ghost use Rattle.std.specs.Char.{to_ascii_lowercase};
ghost use Rattle.mail_words.specs.Charsets.{is_named, ascii_parts, charset_named, in_utf8, is_text_in};

use std::alloc::AllocError;

/// A charset: one of which the octets below 128 are taken as US-ASCII, ISO 8859-1, or UTF-8.
#[derive(Clone, Copy)]
pub enum Charset {
    Ascii,
    Latin1,
    Utf8,
}

/// Whether `name` is `other` in any case of its letters (RFC 2047, section 2). `other` has no capital letter.
fn is_called(name: &[u8], other: &[u8]) -> bool
    requires { map to_ascii_lowercase other.now ≡ other.now }
    ensures { result ≡ is_named name.now other.now }
{
    name.eq_ignore_ascii_case(other)
}

/// The charset of a name in any case of its letters: us-ascii, utf-8, or iso-8859-1 to iso-8859-16. None for another
/// name.
#[tactic(auto, unfolding(crate::specs::Charsets::charset_named))]
pub fn charset_of(name: &[u8]) -> Option<Charset>
    ensures { result ≡ charset_named name.now }
{
    if is_called(name, b"utf-8") {
        return Some(Charset::Utf8);
    }
    if is_called(name, b"iso-8859-1") {
        return Some(Charset::Latin1);
    }
    if is_called(name, b"us-ascii") || is_ascii_part(name) {
        return Some(Charset::Ascii);
    }
    None
}

/// Whether the name is iso-8859-2 to iso-8859-16.
fn is_ascii_part(name: &[u8]) -> bool
    ensures { result
        ≡ list_any (λ part. is_named name.now (codes "iso-8859-" ++ part)) ascii_parts }
{
    is_called(name, b"iso-8859-2")
        || is_called(name, b"iso-8859-3")
        || is_called(name, b"iso-8859-4")
        || is_called(name, b"iso-8859-5")
        || is_called(name, b"iso-8859-6")
        || is_called(name, b"iso-8859-7")
        || is_called(name, b"iso-8859-8")
        || is_called(name, b"iso-8859-9")
        || is_called(name, b"iso-8859-10")
        || is_called(name, b"iso-8859-11")
        || is_called(name, b"iso-8859-12")
        || is_called(name, b"iso-8859-13")
        || is_called(name, b"iso-8859-14")
        || is_called(name, b"iso-8859-15")
        || is_called(name, b"iso-8859-16")
}

/// Appends an octet in UTF-8: in ISO 8859-1 as the character of its number, in the other charsets as it is. `is_read`
/// answers afterwards whether it has a meaning in the charset.
pub fn append_octet(shown: &mut Vec<u8>, charset: Charset, octet: u8) -> Result<(), AllocError>
    ensures { OnOk result (shown.new.items ≡ shown.old.items ++ in_utf8 charset (octet ∷ [])) }
{
    match charset {
        Charset::Latin1 => {
            let mut room = [0u8; 4];
            shown.extend_from_slice(char::from(octet).encode_utf8(&mut room).as_bytes())?;
        }
        Charset::Ascii | Charset::Utf8 => shown.push(octet)?,
    }
    Ok(())
}

/// Appends each octet as `append_octet` does.
pub fn append_octets(shown: &mut Vec<u8>, charset: Charset, octets: &[u8]) -> Result<(), AllocError>
    ensures { OnOk result (shown.new.items ≡ shown.old.items ++ in_utf8 charset octets.now) }
{
    for octet in octets {
        append_octet(shown, charset, *octet)?;
    }
    Ok(())
}

/// Whether octets that `append_octets` wrote have a meaning in the charset: in US-ASCII all are below 128, and in UTF-8
/// they are well-formed.
pub fn is_read(charset: Charset, written: &[u8]) -> bool
    ensures { result ≡ is_text_in charset written.now }
{
    match charset {
        Charset::Ascii => is_all_ascii(written),
        Charset::Utf8 => is_text(written),
        Charset::Latin1 => true,
    }
}

fn is_all_ascii(octets: &[u8]) -> bool
    ensures { result ≡ list_all (λ b. nat_lt b 128) octets.now }
{
    octets.iter().all(|octet| *octet < 128)
}

fn is_text(octets: &[u8]) -> bool
    ensures { result ≡ is_utf8 octets.now }
{
    str::from_utf8(octets).is_ok()
}
