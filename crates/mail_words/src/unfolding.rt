//! A folded body as one line (RFC 5322, section 2.2.3), read without making that line. A text is seen without its line
//! ends, each an LF with one CR directly before it; contracts call that `without_line_ends`.

ghost use Rattle.std.specs.Prelude.{◌≡◌, ◌∷◌, [], ◌++◌, ◌≤◌, length, OnOk, IsTrue, MatchOption, ◌==◌};
ghost use Rattle.std.specs.List.{list_all};
ghost use Rattle.mail_words.specs.Unfolding.{is_blank, without_cr, begins_line_end, ends_in, is_nil, without_line_ends, IsFirstOctet, without_first_blanks, without_last_blanks, without_outer_blanks};

use memchr::memchr;
use std::alloc::AllocError;

/// Whether the octet is a space or a tab, which are white space in RFC 5322, section 2.2.
pub fn is_blank_octet(octet: u8) -> bool
    ensures { result ≡ is_blank octet }
{
    octet == b' ' || octet == b'\t'
}

fn line_text(line: &[u8]) -> &[u8]
    ensures { result.now ≡ without_cr line.now }
{
    match line {
        [text @ .., b'\r'] => text,
        _ => line,
    }
}

/// Appends the text without its line ends. The one error is out of memory.
pub fn append_unfolded(line: &mut Vec<u8>, text: &[u8]) -> Result<(), AllocError>
    ensures { OnOk result (line.new.items ≡ line.old.items ++ without_line_ends text.now) }
{
    let mut rest = text;
    while let Some(place) = memchr(b'\n', rest) {
        let (front, end) = rest.split_at(place);
        let (_, after) = end.split_at(1);
        line.extend_from_slice(line_text(front))?;
        rest = after;
    }
    line.extend_from_slice(rest)?;
    Ok(())
}

/// Whether the first octet belongs to a line end: an LF, or a CR directly before one.
fn stands_at_line_end(text: &[u8]) -> bool
    ensures value { result ≡ begins_line_end text.now }
    ensures some { IsTrue result → 1 ≤ length text.now }
{
    match text {
        [first, second, ..] => *first == b'\n' || *first == b'\r' && *second == b'\n',
        [last] => *last == b'\n',
        [] => false,
    }
}

/// The first octet of a text that belongs to no line end, and the rest of the text. None where there is no such octet.
pub fn first_octet(text: &[u8]) -> Option<(u8, &[u8])>
    ensures { MatchOption result (without_line_ends text.now ≡ [])
        (λ f. IsFirstOctet text.now f.0 f.1.now) }
{
    let mut rest = text;
    while stands_at_line_end(rest) {
        let (_, following) = rest.split_at(1);
        rest = following;
    }
    match rest.split_first() {
        Some((&octet, following)) => Some((octet, following)),
        None => None,
    }
}

/// Whether the text is empty but for line ends.
pub fn is_empty(text: &[u8]) -> bool
    ensures { result ≡ is_nil (without_line_ends text.now) }
{
    match first_octet(text) {
        Some(_) => false,
        None => true,
    }
}

fn ends_line(text: &[u8]) -> bool
    ensures value { result ≡ ends_in 10 text.now }
    ensures some { IsTrue result → 1 ≤ length text.now }
{
    match text {
        [.., last] => *last == b'\n',
        [] => false,
    }
}

/// The last octet of a text that belongs to no line end, with the text before it. None where there is no such octet.
pub fn last_octet(text: &[u8]) -> Option<(&[u8], u8)>
    ensures { MatchOption result (without_line_ends text.now ≡ [])
        (λ l. without_line_ends text.now ≡ without_line_ends l.0.now ++ l.1 ∷ []) }
{
    let mut rest = text;
    while ends_line(rest) {
        let (line, _) = rest.split_at(rest.len() - 1);
        rest = line_text(line);
    }
    match rest.split_last() {
        Some((&octet, before)) => Some((before, octet)),
        None => None,
    }
}

/// Whether the text has blanks only, but for line ends.
pub fn is_all_blank(text: &[u8]) -> bool
    ensures { result ≡ list_all is_blank (without_line_ends text.now) }
{
    let mut rest = text;
    while let Some((octet, following)) = first_octet(rest) {
        if !is_blank_octet(octet) {
            return false;
        }
        rest = following;
    }
    true
}

fn trim_start(text: &[u8]) -> &[u8]
    ensures { without_line_ends result.now ≡ without_first_blanks (without_line_ends text.now) }
{
    let mut rest = text;
    while let Some((octet, following)) = first_octet(rest) {
        if !is_blank_octet(octet) {
            return rest;
        }
        rest = following;
    }
    rest
}

fn trim_end(text: &[u8]) -> &[u8]
    ensures { without_line_ends result.now ≡ without_last_blanks (without_line_ends text.now) }
{
    let mut rest = text;
    while let Some((before, octet)) = last_octet(rest) {
        if !is_blank_octet(octet) {
            return rest;
        }
        rest = before;
    }
    rest
}

/// A part of the text that, read as unfolded, is the unfolded text without the blanks at both ends.
pub fn trim(text: &[u8]) -> &[u8]
    ensures { without_line_ends result.now ≡ without_outer_blanks (without_line_ends text.now) }
{
    trim_end(trim_start(text))
}
