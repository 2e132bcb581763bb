//! Lines and logical lines (RFC 5322, sections 2.1 and 2.2.3).

ghost use Rattle.std.specs.Prelude.{◌≡◌, ◌≢◌, ◌+◌, ◌<◌, ◌≤◌, ◌∷◌, [], length, take, drop, IsTrue, false, ◌==◌};
ghost use Rattle.mail_head.specs.Lines.{is_blank, line_len, without_end, header_of, logical_lines};

use memchr::memchr;

/// Whether the octet is a space or a tab, which are white space in RFC 5322, section 2.2.
pub fn is_blank_octet(octet: u8) -> bool
    ensures { result ≡ is_blank octet }
{
    octet == b' ' || octet == b'\t'
}

/// The line without its end: an LF, and one CR directly before it.
pub fn line_text(line: &[u8]) -> &[u8]
    ensures value { result.now ≡ without_end line.now }
    ensures front { result.now ≡ take (length result.now) line.now }
    ensures within { length result.now ≤ length line.now }
{
    match line {
        [text @ .., b'\r', b'\n'] => text,
        [text @ .., b'\n'] => text,
        _ => line,
    }
}

/// The length of the first line in octets, its end included. Without an LF the whole text is one line.
pub fn first_line_len(text: &[u8]) -> usize
    ensures value { result ≡ line_len text.now }
    ensures within { result ≤ length text.now }
    ensures some { 0 < length text.now → 0 < result }
{
    match memchr(b'\n', text) {
        Some(place) => place + 1,
        None => text.len(),
    }
}

/// Whether no line of the header is left: the rest is empty, or its first line has no octets before its end.
pub fn header_ends(rest: &[u8]) -> bool
    ensures over { IsTrue result → header_of rest.now ≡ [] }
    ensures goes_on { result ≡ false → header_of rest.now
        ≡ take (line_len rest.now) rest.now ∷ header_of (drop (line_len rest.now) rest.now) }
    ensures some { result ≡ false → 0 < length rest.now }
{
    line_text(&rest[..first_line_len(rest)]).is_empty()
}

/// The length of the first logical line in octets, its end included (RFC 5322, section 2.2.3).
pub fn logical_len(rest: &[u8]) -> usize
    requires { header_of rest.now ≢ [] }
    ensures value { logical_lines (header_of rest.now) ≡ take result rest.now ∷
        logical_lines (header_of (drop result rest.now)) }
    ensures within { result ≤ length rest.now }
    ensures some { 0 < result }
{
    let mut n = first_line_len(rest);
    while n < rest.len() && is_blank_octet(rest[n]) {
        n += first_line_len(&rest[n..]);
    }
    n
}
