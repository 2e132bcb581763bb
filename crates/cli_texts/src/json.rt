//! Values of JSON (RFC 8259), and their texts in ASCII.

ghost use Rattle.std.specs.Prelude.{◌≡◌, ◌<◌, ◌%◌, ◌++◌, ◌∷◌, [], true, false, flat_map, IfOk, OnOk, string_bytes};
ghost use Rattle.std.specs.Char.{digit_char};
ghost use Rattle.std.specs.List.{list_all};
ghost use Rattle.serde_json.specs.Data.{put};
ghost use Rattle.serde_json.specs.View.{members_view, view};
ghost use Rattle.serde_json.specs.Written.{has_float};
ghost use Rattle.cli_texts.specs.Json.{ascii_of, ascii_text, is_printable as is_printable_code, json_text as json_text_of, shown_value as shown_value_of, unit_escape, volume_members, with_members};

use crate::escapes::shown;
use serde_json::{Map, Value};
use std::alloc::{AllocError, Global};

/// A hexadecimal digit.
fn digit_octet(digit: u8) -> u8
    requires { digit < 16 }
    ensures value { result ≡ digit_char digit }
    ensures ascii { result < 128 }
{
    if digit < 10 {
        b'0' + digit
    } else {
        b'a' + (digit - 10)
    }
}

/// Adds the last hexadecimal digit of a number.
fn push_digit(text: &mut String, number: u16) -> Result<(), AllocError>
    ensures { OnOk result
        (string_bytes text.new ≡ string_bytes text.old ++ digit_char (number % 16) ∷ []) }
{
    text.push(char::from(digit_octet((number % 16) as u8)))
}

/// Adds a code unit of UTF-16 by its number.
fn push_unit(text: &mut String, unit: u16) -> Result<(), AllocError>
    ensures { OnOk result (string_bytes text.new ≡ string_bytes text.old ++ unit_escape unit) }
{
    text.push_str("\\u")?;
    push_digit(text, unit / 0x1000)?;
    push_digit(text, unit / 0x100)?;
    push_digit(text, unit / 0x10)?;
    push_digit(text, unit)
}

/// Adds code units of UTF-16 by their numbers.
fn push_units(text: &mut String, units: &[u16]) -> Result<(), AllocError>
    ensures { OnOk result
        (string_bytes text.new ≡ string_bytes text.old ++ flat_map unit_escape units.now) }
{
    for unit in units {
        push_unit(text, *unit)?;
    }
    Ok(())
}

/// Whether a character is a printable one of ASCII.
fn is_printable(c: char) -> bool
    ensures value { result ≡ is_printable_code c }
    ensures ascii { result ≡ true → c < 128 }
{
    c.is_ascii() && !c.is_ascii_control()
}

/// Adds a character: a printable one of ASCII as it is, and any other one by its code units of UTF-16.
fn push_ascii(text: &mut String, c: char) -> Result<(), AllocError>
    ensures { OnOk result (string_bytes text.new ≡ string_bytes text.old ++ ascii_of c) }
{
    if is_printable(c) {
        return text.push(c);
    }
    let mut room = [0; 2];
    let units = c.encode_utf16(&mut room);
    push_units(text, units)
}

/// A text of JSON in ASCII: each other character, which can only stand in a string, by its code units of UTF-16 (RFC 8259,
/// section 7). So a terminal takes none of it for a command.
fn in_ascii(alloc: Global, json: &str) -> Result<String, AllocError>
    ensures { IfOk result (λ t. string_bytes t ≡ ascii_text json.now) }
{
    let mut ascii = String::new(alloc);
    for c in json.chars() {
        push_ascii(&mut ascii, c)?;
    }
    Ok(ascii)
}

/// The text of a value, with no space. All of it is printable ASCII.
pub(crate) fn json_text(alloc: Global, value: &Value) -> Result<String, AllocError>
    requires { has_float (view value.now) ≡ false }
    ensures value { IfOk result (λ t. string_bytes t ≡ json_text_of (view value.now)) }
    ensures ascii { IfOk result (λ t. list_all is_printable_code (string_bytes t) ≡ true) }
{
    let text = value.to_string(alloc)?;
    in_ascii(alloc, text.as_str())
}

/// Octets as they are shown.
pub(crate) fn shown_value(alloc: Global, octets: &[u8]) -> Result<Value, AllocError>
    ensures { IfOk result (λ v. view v ≡ shown_value_of octets.now) }
{
    Ok(Value::from(shown(alloc, octets)?))
}

/// Adds a member to an object: octets, as they are shown.
pub(crate) fn put_shown(
    alloc: Global,
    members: &mut Map<String, Value>,
    name: &str,
    octets: &[u8],
) -> Result<(), AllocError>
    ensures { OnOk result (members_view members.new.entries
        ≡ put name.now (shown_value_of octets.now) (members_view members.old.entries)) }
{
    let value = shown_value(alloc, octets)?;
    serde_json::put(members, alloc, name, value)
}

/// Adds the number of a volume to an object, where there is one.
pub(crate) fn add_volume(
    alloc: Global,
    members: &mut Map<String, Value>,
    volume: Option<u32>,
) -> Result<(), AllocError>
    ensures { OnOk result (members_view members.new.entries
        ≡ with_members (volume_members volume) (members_view members.old.entries)) }
{
    match volume {
        Some(volume) => serde_json::put(members, alloc, "volume", Value::from(volume)),
        None => Ok(()),
    }
}
