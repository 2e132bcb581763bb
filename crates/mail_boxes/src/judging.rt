//! Octets that are no message, though any octets could be one.

ghost use Rattle.std.specs.Prelude.{◌≡◌, ◌∷◌, [], ◌<◌, ◌≤◌, length, MatchOption, MatchResult, Some, None, IfSome};
ghost use Rattle.std.specs.List.{prefix_len};
ghost use Rattle.mail_head.specs.Fields.{begins_with, is_name_octet};
ghost use Rattle.mail_head.specs.Lines.{line_len, raw_lines};
ghost use Rattle.mail_boxes.specs.NoMail.{begin_message, begins_with_field, have_another, is_mbox, no_mail};

use crate::marks::{is_empty_line, is_separator};
use mail_head::first_field;
use memchr::memchr;

/// Why octets are no message.
#[derive(Clone, Copy, Debug, PartialEq, Eq)]
pub enum NoMail {
    /// There are none.
    Empty,
    /// They are an mbox: they begin with a separator, and another one stands after an empty line, with a field after each.
    Mbox,
    /// They have no field of a header (RFC 5322, section 2.2).
    NoField,
}

/// The length of the first line of a text in octets, its end included. Without an LF the whole text is one line.
fn first_line_len(text: &[u8]) -> usize
    ensures value { result ≡ line_len text.now }
    ensures within { result ≤ length text.now }
    ensures some { 0 < length text.now → 0 < result }
{
    match memchr(b'\n', text) {
        Some(place) => place + 1,
        None => text.len(),
    }
}

/// The first line of a text, with its end, and the rest; none where the text is empty.
fn first_line(text: &[u8]) -> Option<(&[u8], &[u8])>
    ensures lines { MatchOption result (raw_lines text.now ≡ [])
        (λ l. raw_lines text.now ≡ l.0.now ∷ raw_lines l.1.now) }
    ensures less { IfSome result (λ l. length l.1.now < length text.now) }
{
    if text.is_empty() {
        return None;
    }
    Some(text.split_at(first_line_len(text)))
}

/// Whether an octet may stand in the name of a field (RFC 5322, section 2.2).
fn is_name_octet(octet: u8) -> bool
    ensures { result ≡ is_name_octet octet }
{
    octet >= 33 && octet <= 126 && octet != b':'
}

/// How many octets of a name a line begins with.
fn name_len(line: &[u8]) -> usize
    ensures value { result ≡ prefix_len is_name_octet line.now }
    ensures within { result ≤ length line.now }
{
    line.iter()
        .take_while(|octet| is_name_octet(**octet))
        .count()
}

/// Whether a text begins with a colon.
fn begins_with_colon(text: &[u8]) -> bool
    ensures { result ≡ begins_with 58 text.now }
{
    match text {
        [first, ..] => *first == b':',
        [] => false,
    }
}

/// Whether a line begins with the name of a field and a colon.
fn begins_with_field(line: &[u8]) -> bool
    ensures { result ≡ begins_with_field line.now }
{
    let (name, rest) = line.split_at(name_len(line));
    !name.is_empty() && begins_with_colon(rest)
}

/// Whether a text begins with a separator and a field.
fn begins_message(text: &[u8]) -> bool
    ensures { result ≡ begin_message (raw_lines text.now) }
{
    let Some((line, rest)) = first_line(text) else {
        return false;
    };
    match first_line(rest) {
        Some((next, _)) => is_separator(line) && begins_with_field(next),
        None => false,
    }
}

/// Whether a separator and a field stand somewhere after an empty line.
#[tactic(auto, unfolding(crate::specs::NoMail::have_another))]
fn has_another(text: &[u8]) -> bool
    ensures { result ≡ have_another (raw_lines text.now) }
{
    let mut rest = text;
    while let Some((line, after)) = first_line(rest) {
        if is_empty_line(line) && begins_message(after) {
            return true;
        }
        rest = after;
    }
    false
}

/// Whether octets are an mbox of two messages or more: they begin with a separator, and another one stands after an empty line,
/// with a field after each.
pub fn is_mbox(octets: &[u8]) -> bool
    ensures { result ≡ is_mbox octets.now }
{
    begins_message(octets) && has_another(octets)
}

/// Refuses octets that are no message: none at all, an mbox of two messages or more, and octets without a field.
pub fn judge_message(octets: &[u8]) -> Result<(), NoMail>
    ensures { MatchResult result (λ done. no_mail octets.now ≡ None)
        (λ why. no_mail octets.now ≡ Some why) }
{
    if octets.is_empty() {
        return Err(NoMail::Empty);
    }
    if is_mbox(octets) {
        return Err(NoMail::Mbox);
    }
    match first_field(octets) {
        Some(_) => Ok(()),
        None => Err(NoMail::NoField),
    }
}
