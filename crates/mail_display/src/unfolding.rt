//! A folded body as one line (RFC 5322, section 2.2.3).

ghost use Rattle.std.specs.Prelude.{◌≡◌, ◌≤◌, length, IfOk};
ghost use Rattle.std.specs.List.{prefix_len, suffix_len};
ghost use Rattle.mail_words.specs.Unfolding.{is_blank, begins_line_end, without_line_ends, without_outer_blanks};

use std::alloc::{AllocError, Global};

/// Whether the octet is a space or a tab, which are white space in RFC 5322, section 2.2.
pub fn is_blank_octet(octet: u8) -> bool
    ensures { result ≡ is_blank octet }
{
    octet == b' ' || octet == b'\t'
}

/// Whether the first octet belongs to a line end: an LF, or a CR directly before one.
fn stands_at_line_end(text: &[u8]) -> bool
    ensures { result ≡ begins_line_end text.now }
{
    match text {
        [first, second, ..] => *first == b'\n' || *first == b'\r' && *second == b'\n',
        [last] => *last == b'\n',
        [] => false,
    }
}

/// How many blanks a text begins with.
pub fn blank_len(text: &[u8]) -> usize
    ensures value { result ≡ prefix_len is_blank text.now }
    ensures within { result ≤ length text.now }
{
    text.iter()
        .take_while(|octet| is_blank_octet(**octet))
        .count()
}

/// How many blanks a text ends with.
fn last_blank_len(text: &[u8]) -> usize
    ensures value { result ≡ suffix_len is_blank text.now }
    ensures within { result ≤ length text.now }
{
    text.iter()
        .rev()
        .take_while(|octet| is_blank_octet(**octet))
        .count()
}

/// The text without the blanks at both ends.
pub fn trimmed(text: &[u8]) -> &[u8]
    ensures value { result.now ≡ without_outer_blanks text.now }
    ensures within { length result.now ≤ length text.now }
{
    let (_, rest) = text.split_at(blank_len(text));
    let (front, _) = rest.split_at(rest.len() - last_blank_len(rest));
    front
}

/// The octets of a body as one line.
pub fn unfolded(alloc: Global, body: &[u8]) -> Result<Vec<u8>, AllocError>
    ensures value { IfOk result (λ line. line.items ≡ without_line_ends body.now) }
    ensures within { IfOk result (λ line. length line.items ≤ length body.now) }
{
    let mut line = Vec::with_capacity(alloc, body.len())?;
    let mut rest = body;
    while let Some((octet, following)) = rest.split_first() {
        if !stands_at_line_end(rest) {
            line.push(*octet)?;
        }
        rest = following;
    }
    Ok(line)
}
