//! White space and comments (RFC 5228, sections 2.2 and 2.3).

ghost use Rattle.std.specs.Prelude.{◌≡◌, ◌≤◌, false, length, drop};
ghost use Rattle.sieve_text.specs.Gaps.{bracketed_len, opens_bracketed as opens, comment_len, gap_len};

use crate::scanner::octets;

/// Whether `/*` begins here.
pub fn opens_bracketed(rest: &[u8]) -> bool
    ensures { result ≡ opens rest.now }
{
    match rest.split_first() {
        Some((b'/', following)) => octets::starts_with(following, b'*'),
        _ => false,
    }
}

/// How many octets come before the slash of the first `*/`; all of them if there is none.
#[tactic(auto, unfolding(crate::specs::Gaps::bracketed_len))]
fn bracketed_length(body: &[u8]) -> usize
    ensures value { result ≡ bracketed_len false body.now }
    ensures within { result ≤ length body.now }
{
    let mut after_star = false;
    for (i, &b) in body.iter().enumerate() {
        if after_star && b == b'/' {
            return i;
        }
        after_star = b == b'*';
    }
    body.len()
}

/// The length in octets of the comment that begins here; 0 if none begins, or it is not closed.
#[tactic(auto, unfolding(crate::specs::Gaps::comment_len))]
fn comment_length(rest: &[u8]) -> usize
    ensures value { result ≡ comment_len rest.now }
    ensures within { result ≤ length rest.now }
{
    if octets::starts_with(rest, b'#') {
        return octets::line_length(rest);
    }
    if !opens_bracketed(rest) {
        return 0;
    }
    let (_, body) = rest.split_at(2);
    let n = bracketed_length(body);
    if n < body.len() { n + 3 } else { 0 }
}

/// The length in octets of the white space and closed comments that come first.
pub fn gap_length(rest: &[u8]) -> usize
    ensures value { result ≡ gap_len 0 rest.now }
    ensures within { result ≤ length rest.now }
{
    let mut at = 0;
    'gap: while at < rest.len() {
        let (_, following) = rest.split_at(at);
        let white = octets::white_length(following);
        let (_, following) = following.split_at(white);
        let comment = comment_length(following);
        at += white + comment;
        if comment == 0 {
            return at;
        }
    }
    at
}

/// The text after the white space and closed comments that it begins with.
#[inline(always)]
pub fn after_gap(text: &[u8]) -> &[u8]
    ensures { result.now ≡ drop (gap_len 0 text.now) text.now }
{
    let (_, rest) = text.split_at(octets::white_length(text));
    if !octets::starts_with(rest, b'#') && !octets::starts_with(rest, b'/') {
        return rest;
    }
    let (_, rest) = text.split_at(gap_length(text));
    rest
}
