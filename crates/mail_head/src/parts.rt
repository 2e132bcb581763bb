//! What a piece of a message adds to the header of the pieces before it.

ghost use Rattle.std.specs.Prelude.{◌≡◌, ◌≤◌, length, take};
ghost use Rattle.mail_head.specs.Fields.{begins_with};
ghost use Rattle.mail_head.specs.Parts.{IsPart};
ghost use Rattle.mail_head.specs.Pieces.{header_octets, at_line_start, ends_in_lone_cr};

use crate::lines::{first_line_len, header_ends};

/// What a piece adds to a header: a number of its first octets, or nothing (`LessCr`). `LessCr` means that the header's
/// last line is one CR so far and that the piece begins with an LF. The two make an empty line, so the CR leaves the
/// header.
#[derive(Clone, Copy)]
pub enum HeaderPart {
    Front(usize),
    LessCr,
}

/// How many octets at the front of a text belong to its header. The text begins at a line's start.
pub fn header_len(text: &[u8]) -> usize
    ensures value { header_octets text.now ≡ take result text.now }
    ensures within { result ≤ length text.now }
{
    let mut len = 0;
    let mut rest = text;
    while !header_ends(rest) {
        let (line, after) = rest.split_at(first_line_len(rest));
        len += line.len();
        rest = after;
    }
    len
}

/// Whether no octet stands after the last line end.
fn is_at_line_start(text: &[u8]) -> bool
    ensures { result ≡ at_line_start text.now }
{
    match text {
        [.., last] => *last == b'\n',
        [] => true,
    }
}

/// Whether the last line is one CR so far.
fn has_lone_cr(text: &[u8]) -> bool
    ensures { result ≡ ends_in_lone_cr text.now }
{
    match text {
        [front @ .., b'\r'] => is_at_line_start(front),
        _ => false,
    }
}

fn begins_with_lf(text: &[u8]) -> bool
    ensures { result ≡ begins_with 10 text.now }
{
    match text {
        [first, ..] => *first == b'\n',
        [] => false,
    }
}

/// What `piece` adds to the header `kept`, which is all of the message before the piece.
pub fn header_part(kept: &[u8], piece: &[u8]) -> HeaderPart
    ensures { IsPart kept.now piece.now result }
{
    if is_at_line_start(kept) {
        return HeaderPart::Front(header_len(piece));
    }
    if has_lone_cr(kept) && begins_with_lf(piece) {
        return HeaderPart::LessCr;
    }
    let (line, rest) = piece.split_at(first_line_len(piece));
    HeaderPart::Front(line.len() + header_len(rest))
}
