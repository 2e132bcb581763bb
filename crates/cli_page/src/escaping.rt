//! Text that is no markup, whatever it has.

ghost use Rattle.std.specs.Prelude.{◌≡◌, ◌<◌, ◌++◌, ◌∷◌, [], IfOk, OnOk, IsTrue, string_bytes};
ghost use Rattle.std.specs.Str.{chars, encode_utf8_all};
ghost use Rattle.std.specs.Char.{encode_utf8};
ghost use Rattle.cli_page.specs.Escaping.{is_from as is_from_code, is_hidden as is_hidden_code, is_bracket as is_bracket_code, digit_at, mark_of, shown_of, shown_all, is_inert, path_shown_of, path_shown};

use std::alloc::{AllocError, Global};

fn is_from(first: u32, last: u32, code: u32) -> bool
    ensures { result ≡ is_from_code first last code }
{
    first <= code && code <= last
}

/// Whether the character of a number shows nothing, or changes how its neighbours are shown.
fn is_hidden(code: u32) -> bool
    ensures { result ≡ is_hidden_code code }
{
    code <= 0x1f
        || is_from(0x7f, 0x9f, code)
        || code == 0xad
        || code == 0x61c
        || code == 0x180e
        || is_from(0x200b, 0x200f, code)
        || is_from(0x2028, 0x202e, code)
        || is_from(0x2060, 0x206f, code)
        || code == 0xfeff
        || is_from(0xfff9, 0xfffb, code)
        || is_from(0xe0000, 0xe007f, code)
}

/// Whether the character of a number is one of the brackets of a mark.
fn is_bracket(code: u32) -> bool
    ensures { result ≡ is_bracket_code code }
{
    is_from(0x27e8, 0x27e9, code)
}

/// Adds the digit of a number, in hexadecimal, at the place that is worth so much.
fn push_digit(text: &mut String, worth: u32, code: u32) -> Result<(), AllocError>
    requires { 0 < worth }
    ensures { OnOk result
        (string_bytes text.new ≡ string_bytes text.old ++ encode_utf8 (digit_at worth code)) }
{
    let digit = (code / worth % 16) as u8;
    let octet = if digit < 10 {
        b'0' + digit
    } else {
        b'A' - 10 + digit
    };
    text.push(char::from(octet))
}

/// Adds the number of a character.
fn push_mark(text: &mut String, code: u32) -> Result<(), AllocError>
    ensures { OnOk result
        (string_bytes text.new ≡ string_bytes text.old ++ encode_utf8_all (mark_of code)) }
{
    text.push('\u{27e8}')?;
    text.push('U')?;
    text.push('+')?;
    push_digit(text, 0x100000, code)?;
    push_digit(text, 0x10000, code)?;
    push_digit(text, 0x1000, code)?;
    push_digit(text, 0x100, code)?;
    push_digit(text, 0x10, code)?;
    push_digit(text, 1, code)?;
    text.push('\u{27e9}')?;
    Ok(())
}

/// Adds a character as a page shows it.
fn push_shown(text: &mut String, c: char) -> Result<(), AllocError>
    ensures { OnOk result
        (string_bytes text.new ≡ string_bytes text.old ++ encode_utf8_all (shown_of c)) }
{
    match c {
        '&' => text.push_str("&amp;"),
        '<' => text.push_str("&lt;"),
        '>' => text.push_str("&gt;"),
        '"' => text.push_str("&quot;"),
        '\'' => text.push_str("&#39;"),
        _ if is_hidden(u32::from(c)) || is_bracket(u32::from(c)) => push_mark(text, u32::from(c)),
        _ => text.push(c),
    }
}

/// Adds a text as a page shows it: see [`escaped`].
#[tactic(auto, using(crate::proofs::ShownLemmas::shown_more))]
pub(crate) fn push_escaped(page: &mut String, text: &str) -> Result<(), AllocError>
    ensures { OnOk result
        (string_bytes page.new
        ≡ string_bytes page.old ++ encode_utf8_all (shown_all (chars text.now))) }
{
    for c in text.chars() {
        push_shown(page, c)?;
    }
    Ok(())
}

/// Adds a character of a path as a page shows it: a line may end after each slash.
fn push_path_shown(text: &mut String, c: char) -> Result<(), AllocError>
    ensures { OnOk result
        (string_bytes text.new ≡ string_bytes text.old ++ encode_utf8_all (path_shown_of c)) }
{
    match c {
        '/' => text.push_str("/<wbr>"),
        _ => push_shown(text, c),
    }
}

/// Adds a path as a page shows it: as text, and a line may end after each slash of it.
#[tactic(auto, using(crate::proofs::ShownLemmas::path_more))]
pub(crate) fn push_path(page: &mut String, path: &str) -> Result<(), AllocError>
    ensures { OnOk result
        (string_bytes page.new
        ≡ string_bytes page.old ++ encode_utf8_all (path_shown (chars path.now))) }
{
    for c in path.chars() {
        push_path_shown(page, c)?;
    }
    Ok(())
}

/// A text as a page shows it. `&`, `<`, `>`, `"` and `'` become entities of HTML. A character that shows nothing or turns
/// the direction of its neighbours becomes its number between angle brackets, such as `⟨U+00202E⟩`; so do these brackets,
/// so that different texts are shown differently. All else stays.
///
/// The only refusal is no memory (99).
#[tactic(auto, using(crate::proofs::InertLemmas::inert_all))]
pub fn escaped(alloc: Global, text: &str) -> Result<String, AllocError>
    ensures exact { IfOk result
        (λ s. string_bytes s ≡ encode_utf8_all (shown_all (chars text.now))) }
    ensures inert { IfOk result (λ s. IsTrue (is_inert (shown_all (chars text.now)))) }
{
    let mut shown = String::new(alloc);
    push_escaped(&mut shown, text)?;
    Ok(shown)
}
