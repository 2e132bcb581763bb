//! Octets in quotation marks, so that none can be taken for anything else.
//!
//! A quotation mark and a backslash come after a backslash. Tab, CR and LF are `\t`, `\r` and `\n`, any other octet that
//! is a control character or no UTF-8 is `\x` and two digits, and a character that shows nothing or turns the direction
//! of a text is `\u{..}` with its number. All else is shown as it is.

ghost use Rattle.std.specs.Prelude.{◌≡◌, ◌++◌, false, flat_map, string_bytes, IfOk, OnOk};
ghost use Rattle.std.specs.List.{list_all};
ghost use Rattle.std.specs.Str.{chars, encode_utf8_all};
ghost use Rattle.tool_texts.specs.Quoting.{is_from as is_from_code, is_control as is_control_code, is_mark as is_mark_code, is_formless as is_formless_code, is_filler as is_filler_code, is_selector as is_selector_code, is_format as is_format_code, is_tag as is_tag_code, is_hidden as is_hidden_code, is_attached as is_attached_code, needs_number as needs_number_code, is_quoting as is_quoting_code, is_plain as is_plain_code, is_bare_octet, is_bare as is_bare_octets, octet_text, scalar_text, number_text, shown_of, shown_after, visible_of, visible_after, visible_text, escaped_text, quoted_text, named_text, IsShown};

use std::alloc::{AllocError, Global};
use unicode_width::UnicodeWidthChar;

fn is_from(first: u32, last: u32, code: u32) -> bool
    ensures { result ≡ is_from_code first last code }
{
    first <= code && code <= last
}

/// The controls of C0, DEL, and the controls of C1.
fn is_control(code: u32) -> bool
    ensures { result ≡ is_control_code code }
{
    code <= 0x1f || is_from(0x7f, 0x9f, code)
}

/// Characters without a form, the marks of direction among them, and the separators of lines and paragraphs.
fn is_mark(code: u32) -> bool
    ensures { result ≡ is_mark_code code }
{
    is_from(0x200b, 0x200f, code) || is_from(0x2028, 0x202e, code) || is_from(0x2060, 0x206f, code)
}

/// The soft hyphen, the grapheme joiner, the Arabic letter mark, and the mark of the order of octets.
fn is_formless(code: u32) -> bool
    ensures { result ≡ is_formless_code code }
{
    code == 0xad || code == 0x34f || code == 0x61c || code == 0xfeff
}

/// Fillers of Hangul, and the pattern of Braille without a dot.
fn is_filler(code: u32) -> bool
    ensures { result ≡ is_filler_code code }
{
    is_from(0x115f, 0x1160, code) || code == 0x2800 || code == 0x3164 || code == 0xffa0
}

/// Selectors of a character's form, those of Mongolian with its vowel separator, and the inherent vowels of Khmer.
fn is_selector(code: u32) -> bool
    ensures { result ≡ is_selector_code code }
{
    is_from(0xfe00, 0xfe0f, code) || is_from(0x180b, 0x180f, code) || is_from(0x17b4, 0x17b5, code)
}

/// Controls of shorthand and of music.
fn is_format(code: u32) -> bool
    ensures { result ≡ is_format_code code }
{
    is_from(0x1bca0, 0x1bca3, code) || is_from(0x1d173, 0x1d17a, code)
}

/// Interlinear marks with what is reserved before them, what stands for an object, and tags with further selectors.
fn is_tag(code: u32) -> bool
    ensures { result ≡ is_tag_code code }
{
    is_from(0xfff0, 0xfffc, code) || is_from(0xe0000, 0xe0fff, code)
}

/// Whether the character of a number is never shown as it is.
fn is_hidden(code: u32) -> bool
    ensures { result ≡ is_hidden_code code }
{
    is_control(code)
        || is_mark(code)
        || is_formless(code)
        || is_filler(code)
        || is_selector(code)
        || is_format(code)
        || is_tag(code)
}

/// Whether a character takes no column, so that it changes the look of the one before it.
#[tactic(auto, unfolding(crate::specs::Quoting::is_attached))]
fn is_attached(c: char) -> bool
    ensures { result ≡ is_attached_code c }
{
    match c.width() {
        Some(width) => width == 0,
        None => false,
    }
}

/// Whether a character is shown by its number: a hidden one, and one without a column after none that is plain.
fn needs_number(c: char, after_plain: bool) -> bool
    ensures { result ≡ needs_number_code after_plain c }
{
    is_hidden(u32::from(c)) || (is_attached(c) && !after_plain)
}

/// Whether a character comes after a backslash: a quotation mark, or a backslash.
fn is_quoting(c: char) -> bool
    ensures { result ≡ is_quoting_code c }
{
    c == '"' || c == '\\'
}

/// Whether a character is shown as it is.
fn is_plain(c: char, after_plain: bool) -> bool
    ensures { result ≡ is_plain_code after_plain c }
{
    !needs_number(c, after_plain) && !is_quoting(c)
}

/// Adds an octet as `\t`, `\r`, `\n`, or the two digits after `\x`.
fn push_octet(text: &mut String, octet: u8) -> Result<(), AllocError>
    ensures { OnOk result
        (string_bytes text.new ≡ string_bytes text.old ++ encode_utf8_all (octet_text octet)) }
{
    for shown in octet.escape_ascii() {
        text.push(char::from(shown))?;
    }
    Ok(())
}

/// Adds the number of a character, as `\u{202e}`.
fn push_scalar(text: &mut String, c: char) -> Result<(), AllocError>
    ensures { OnOk result
        (string_bytes text.new ≡ string_bytes text.old ++ encode_utf8_all (scalar_text c)) }
{
    for shown in c.escape_unicode() {
        text.push(shown)?;
    }
    Ok(())
}

/// Adds the number of a character that is not shown.
fn push_number(text: &mut String, c: char) -> Result<(), AllocError>
    ensures { OnOk result
        (string_bytes text.new ≡ string_bytes text.old ++ encode_utf8_all (number_text c)) }
{
    let number = u32::from(c);
    if number < 0x80 {
        push_octet(text, number as u8)
    } else {
        push_scalar(text, c)
    }
}

/// Adds a character after one that is plain, or after none: by its number, after a backslash, or plain, which is as it
/// is.
#[tactic(auto, unfolding(crate::specs::Quoting::shown_of), using(crate::proofs::Pushes::push_two))]
fn push_shown(text: &mut String, c: char, after_plain: bool) -> Result<(), AllocError>
    ensures { OnOk result (string_bytes text.new
        ≡ string_bytes text.old ++ encode_utf8_all (shown_of after_plain c)) }
{
    if needs_number(c, after_plain) {
        return push_number(text, c);
    }
    if is_quoting(c) {
        text.push('\\')?;
        return text.push(c);
    }
    text.push(c)
}

/// Adds characters. A character without a column is shown only after one that is plain.
fn push_characters(text: &mut String, shown: &str) -> Result<(), AllocError>
    ensures { OnOk result (string_bytes text.new
        ≡ string_bytes text.old ++ encode_utf8_all (shown_after false (chars shown.now))) }
{
    let mut after_plain = false;
    for c in shown.chars() {
        push_shown(text, c, after_plain)?;
        after_plain = is_plain(c, after_plain);
    }
    Ok(())
}

/// Adds a character of a text that stands in no quotation marks: by its number, or as it is.
#[tactic(auto, unfolding(crate::specs::Quoting::visible_of), using(crate::proofs::Pushes::pushed_one))]
fn push_visible(text: &mut String, c: char, after_plain: bool) -> Result<(), AllocError>
    ensures { OnOk result (string_bytes text.new
        ≡ string_bytes text.old ++ encode_utf8_all (visible_of after_plain c)) }
{
    if needs_number(c, after_plain) {
        push_number(text, c)
    } else {
        text.push(c)
    }
}

/// Adds the characters of a text that stands in no quotation marks.
fn push_all_visible(text: &mut String, words: &str) -> Result<(), AllocError>
    ensures { OnOk result (string_bytes text.new
        ≡ string_bytes text.old ++ encode_utf8_all (visible_text words.now)) }
{
    let mut after_plain = false;
    for c in words.chars() {
        push_visible(text, c, after_plain)?;
        after_plain = !needs_number(c, after_plain);
    }
    Ok(())
}

/// Adds octets that are no UTF-8.
fn push_octets(text: &mut String, octets: &[u8]) -> Result<(), AllocError>
    ensures { OnOk result (string_bytes text.new
        ≡ string_bytes text.old ++ encode_utf8_all (flat_map octet_text octets.now)) }
{
    for octet in octets {
        push_octet(text, *octet)?;
    }
    Ok(())
}

/// Adds octets as they are shown between quotation marks.
fn push_escaped(text: &mut String, octets: &[u8]) -> Result<(), AllocError>
    ensures { OnOk result (string_bytes text.new
        ≡ string_bytes text.old ++ encode_utf8_all (escaped_text octets.now)) }
{
    for chunk in octets.utf8_chunks() {
        push_characters(text, chunk.valid())?;
        push_octets(text, chunk.invalid())?;
    }
    Ok(())
}

/// A text with the numbers of its hidden characters in place of these. No character of the result is hidden. The only error
/// is out of memory.
pub(crate) fn visible(alloc: Global, words: &str) -> Result<String, AllocError>
    ensures exact { IfOk result
        (λ t. string_bytes t ≡ encode_utf8_all (visible_text words.now)) }
    ensures shown { IfOk result (λ t. IsShown (string_bytes t)) }
{
    let mut text = String::new(alloc);
    push_all_visible(&mut text, words)?;
    Ok(text)
}

/// Octets as they are shown between quotation marks, without these. No character of the text is hidden. The only error is
/// out of memory.
pub fn escaped(alloc: Global, octets: &[u8]) -> Result<String, AllocError>
    ensures exact { IfOk result
        (λ t. string_bytes t ≡ encode_utf8_all (escaped_text octets.now)) }
    ensures shown { IfOk result (λ t. IsShown (string_bytes t)) }
{
    let mut text = String::new(alloc);
    push_escaped(&mut text, octets)?;
    Ok(text)
}

/// Octets in quotation marks. No character of the text is hidden. The only error is out of memory.
pub fn quoted(alloc: Global, octets: &[u8]) -> Result<String, AllocError>
    ensures exact { IfOk result
        (λ t. string_bytes t ≡ encode_utf8_all (quoted_text octets.now)) }
    ensures shown { IfOk result (λ t. IsShown (string_bytes t)) }
{
    let mut text = String::new(alloc);
    text.push('"')?;
    push_escaped(&mut text, octets)?;
    text.push('"')?;
    Ok(text)
}

/// Whether all octets are visible ASCII, and no quotation marks or backslashes.
fn are_bare(octets: &[u8]) -> bool
    ensures { result ≡ list_all is_bare_octet octets.now }
{
    octets.iter().all(|octet| octet.is_ascii_graphic() && *octet != b'"' && *octet != b'\\')
}

/// Whether a name is shown without quotation marks.
fn is_bare(name: &[u8]) -> bool
    ensures { result ≡ is_bare_octets name.now }
{
    match name {
        [] => false,
        _ => are_bare(name),
    }
}

/// A name as it is, where it consists of visible ASCII without quotation marks and backslashes; otherwise in quotation
/// marks. No character of the text is hidden. The only error is out of memory.
pub fn named(alloc: Global, name: &[u8]) -> Result<String, AllocError>
    ensures exact { IfOk result (λ t. string_bytes t ≡ encode_utf8_all (named_text name.now)) }
    ensures shown { IfOk result (λ t. IsShown (string_bytes t)) }
{
    if is_bare(name) {
        escaped(alloc, name)
    } else {
        quoted(alloc, name)
    }
}
