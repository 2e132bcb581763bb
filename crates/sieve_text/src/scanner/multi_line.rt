//! Multi-line strings (RFC 5228, section 2.4.2).

ghost use Rattle.sieve_text.specs.Octets.{is_blank};
ghost use Rattle.std.specs.List.{prefix_len};
ghost use Rattle.std.specs.Prelude.{◌≡◌, ◌≤◌, ◌<◌, ◌+◌, ◌^◌, length, true, false, IfOk, ℕ, IfErr};
ghost use Rattle.sieve_text.specs.Lexemes.{read_of};
ghost use Rattle.sieve_text.specs.Strings.{begins_text, opening_end_at, is_last_line, lines_len, lines_value};
ghost use Rattle.sieve_text.specs.Tokens.{lines_at, multi_line_at, Gives, StandsAt, either_place};

use crate::fault::{FaultyPlace, ScanRefusal};
use crate::lexeme::{Lexeme, WrittenString};
use crate::scanner::octets;
use crate::scanner::strings::string;
use std::alloc::{AllocError, Global};

/// Whether `text:` begins here, in letters of either case.
pub fn begins(rest: &[u8]) -> bool
    ensures value { result ≡ begins_text rest.now }
    ensures within { result ≡ true → 5 ≤ length rest.now }
{
    match rest {
        [t, e, x, u, colon, ..] => {
            t.eq_ignore_ascii_case(&b't')
                && e.eq_ignore_ascii_case(&b'e')
                && x.eq_ignore_ascii_case(&b'x')
                && u.eq_ignore_ascii_case(&b't')
                && *colon == b':'
        }
        _ => false,
    }
}

/// The length in octets of an optional hash comment and the line end, which begin at the offset `at`; `start` is the
/// offset of the string.
fn opening_end(rest: &[u8], start: usize, at: usize) -> Result<usize, FaultyPlace>
    ensures value { Gives (λ x. x) result (opening_end_at rest.now) }
    ensures within { IfOk result (λ n. n ≤ length rest.now) }
    ensures place { IfErr result (λ e. StandsAt (either_place start at) e) }
{
    if rest.is_empty() {
        return Err(FaultyPlace::new(ScanRefusal::StringNotClosed, start));
    }
    if octets::starts_with(rest, b'#') {
        let n = octets::line_length(rest);
        if n == rest.len() {
            return Err(FaultyPlace::new(ScanRefusal::StringNotClosed, start));
        }
        return Ok(n + 1);
    }
    match octets::line_end_length(rest) {
        0 => Err(FaultyPlace::new(ScanRefusal::NoToken, at)),
        n => Ok(n),
    }
}

/// Whether a dot is here, and then a line end or the end of the text.
fn ends_lines(rest: &[u8]) -> bool
    ensures { result ≡ is_last_line rest.now }
{
    match rest.split_first() {
        Some((b'.', following)) => following.is_empty() || octets::line_end_length(following) > 0,
        _ => false,
    }
}

/// How many octets come before the line that is a single dot; all of them if there is none.
#[tactic(auto, unfolding(crate::specs::Strings::lines_len))]
fn lines_length(lines: &[u8]) -> usize
    ensures value { result ≡ lines_len true lines.now }
    ensures within { result ≤ length lines.now }
{
    let mut rest = lines;
    let mut at_start = true;
    let mut n = 0;
    'octets: while let Some((&b, following)) = rest.split_first() {
        if at_start && ends_lines(rest) {
            return n;
        }
        at_start = b == b'\n';
        rest = following;
        n += 1;
    }
    n
}

/// The value of the lines: a leading dot is dropped if another dot follows it, and a bare LF becomes CR LF.
#[tactic(auto, unfolding(crate::specs::Strings::without_stuffing, crate::specs::Strings::with_crlf))]
pub fn value(alloc: Global, lines: &[u8]) -> Result<Vec<u8>, AllocError>
    ensures { IfOk result (λ v. v.items ≡ lines_value lines.now) }
{
    let mut octets = Vec::with_capacity(alloc, lines.len())?;
    let mut rest = lines;
    let mut at_start = true;
    let mut after_cr = false;
    'octets: while let Some((&b, following)) = rest.split_first() {
        if at_start && b == b'.' && octets::starts_with(following, b'.') {
            at_start = false;
        } else {
            if b == b'\n' && !after_cr {
                octets.push(b'\r')?;
            }
            octets.push(b)?;
            at_start = b == b'\n';
            after_cr = b == b'\r';
        }
        rest = following;
    }
    Ok(octets)
}

/// The lines of a string that begins at the offset `at`, `before` octets before them.
#[tactic(auto, unfolding(crate::specs::Tokens::lines_at))]
fn lines_token(lines: &[u8], before: usize, at: usize) -> Result<(Lexeme<'_>, usize), FaultyPlace>
    requires { before + length lines.now < 2 ^ 64 }
    ensures value { Gives read_of result (lines_at before lines.now) }
    ensures within { IfOk result (λ x. (before < x.1) × (x.1 ≤ before + length lines.now)) }
    ensures place { (octet : ℕ) → IfErr result (λ e. StandsAt (either_place at octet) e) }
{
    let n = lines_length(lines);
    if n == lines.len() {
        return Err(FaultyPlace::new(ScanRefusal::StringNotClosed, at));
    }
    let (_, following) = lines.split_at(n + 1);
    let end = octets::line_end_length(following);
    let written = WrittenString::Lines(&lines[..n]);
    string(written, before + (n + (1 + end)), at)
}

/// A multi-line string: `following` is the text after its `text:`, which is at this offset.
#[tactic(auto, unfolding(crate::specs::Tokens::multi_line_at))]
pub fn token(following: &[u8], at: usize) -> Result<(Lexeme<'_>, usize), FaultyPlace>
    requires { at + (5 + length following.now) < 2 ^ 64 }
    ensures value { Gives read_of result (multi_line_at following.now) }
    ensures within { IfOk result (λ x. x.1 ≤ 5 + length following.now) }
    ensures some { IfOk result (λ x. 0 < x.1) }
    ensures place { IfErr result
        (λ e. StandsAt (either_place at (at + (5 + prefix_len is_blank following.now))) e) }
{
    let blanks = octets::blank_length(following);
    let (_, rest) = following.split_at(blanks);
    let n = opening_end(rest, at, at + (5 + blanks))?;
    let (_, lines) = following.split_at(blanks + n);
    lines_token(lines, 5 + (blanks + n), at)
}
