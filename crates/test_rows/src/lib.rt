//! Texts of tables, as tests keep them: octets that a line cannot hold are written with a backslash.
//!
//! `\n`, `\r` and `\s` (a space) are octets, and `\xHH` is the octet of two hexadecimal digits. A backslash before any
//! other octet is dropped. `specs/Escapes` defines the same.
#![tactic(auto)]

ghost use Rattle.std.specs.Prelude.{◌≡◌, ◌∷◌, ◌++◌, ◌<◌, ◌≤◌, [], length, IfNone, IfSome, IfOk, OnOk};
ghost use Rattle.test_rows.specs.Escapes.{escape_meaning, hex_value as hex_value_of, unescaped};

use std::alloc::{AllocError, Global};

/// The value of a hexadecimal digit; 0 for another octet.
pub fn hex_value(octet: u8) -> u8
    ensures value { result ≡ hex_value_of octet }
    ensures small { result ≤ 15 }
{
    match octet {
        b'0'..=b'9' => octet - b'0',
        b'A'..=b'F' => octet - b'A' + 10,
        b'a'..=b'f' => octet - b'a' + 10,
        _ => 0,
    }
}

/// The octet that an escape of one octet means: `n`, `r` or `s`, or the octet itself.
fn escaped(octet: u8) -> u8
    ensures { result ≡ escape_meaning octet }
{
    match octet {
        b'n' => b'\n',
        b'r' => b'\r',
        b's' => b' ',
        _ => octet,
    }
}

/// The octet that a text begins with, and the text after it; `None` at the end, and at an escape that is cut off.
fn next_octet(text: &[u8]) -> Option<(u8, &[u8])>
    ensures none { IfNone result (unescaped text.now ≡ []) }
    ensures some { IfSome result (λ r. unescaped text.now ≡ r.0 ∷ unescaped r.1.now) }
    ensures shorter { IfSome result (λ r. length r.1.now < length text.now) }
{
    match text {
        [b'\\', b'x', high, low, rest @ ..] => Some((
            hex_value(*high) * 16 + hex_value(*low),
            rest,
        )),
        [] | [b'\\'] | [b'\\', b'x', ..] => None,
        [b'\\', octet, rest @ ..] => Some((escaped(*octet), rest)),
        [octet, rest @ ..] => Some((*octet, rest)),
    }
}

/// The octets that a text with escapes means. An escape that is cut off at the end is left out. Fails only if memory
/// runs out.
pub fn octets_of(alloc: Global, text: &str) -> Result<Vec<u8>, AllocError>
    ensures { IfOk result (λ v. v.items ≡ unescaped text.now) }
{
    let mut octets = Vec::new(alloc);
    let mut rest = text.as_bytes();
    while let Some((octet, following)) = next_octet(rest) {
        octets.push(octet)?;
        rest = following;
    }
    Ok(octets)
}
