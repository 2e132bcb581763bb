//! Octets as text, by escapes where they are none.

ghost use Rattle.std.specs.Prelude.{◌≡◌, ◌++◌, flat_map, IfOk, OnOk, string_bytes};
ghost use Rattle.std.specs.Char.{is_ascii_control};
ghost use Rattle.std.specs.Char.Escape.{escape_ascii};
ghost use Rattle.std.specs.List.{list_any};
ghost use Rattle.std.specs.Str.{encode_utf8_all};
ghost use Rattle.cli_texts.specs.Rows.{escapes, shown_octets};

use std::alloc::{AllocError, Global};
use std::str;

/// Adds an octet: a printable character of ASCII, `\t`, `\r`, `\n`, or `\x` and two digits. A quotation mark and a backslash come
/// after a backslash.
fn push_octet(text: &mut String, octet: u8) -> Result<(), AllocError>
    ensures { OnOk result
        (string_bytes text.new ≡ string_bytes text.old ++ encode_utf8_all (escape_ascii octet)) }
{
    for shown in octet.escape_ascii() {
        text.push(char::from(shown))?;
    }
    Ok(())
}

/// Octets by escapes.
fn escaped(alloc: Global, octets: &[u8]) -> Result<String, AllocError>
    ensures { IfOk result (λ text. string_bytes text ≡ escapes octets.now) }
{
    let mut text = String::new(alloc);
    for octet in octets {
        push_octet(&mut text, *octet)?;
    }
    Ok(text)
}

/// Whether there is a control of ASCII.
fn has_control(octets: &[u8]) -> bool
    ensures { result ≡ list_any is_ascii_control octets.now }
{
    octets.iter().any(|octet| octet.is_ascii_control())
}

/// Octets as text: a text without control characters as it is, anything else with escapes.
pub(crate) fn shown(alloc: Global, octets: &[u8]) -> Result<String, AllocError>
    ensures { IfOk result (λ text. string_bytes text ≡ shown_octets octets.now) }
{
    if has_control(octets) {
        return escaped(alloc, octets);
    }
    match str::from_utf8(octets) {
        Ok(text) => String::from_str(alloc, text),
        Err(_) => escaped(alloc, octets),
    }
}
