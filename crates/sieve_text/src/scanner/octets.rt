//! Classes of octets (RFC 5228, section 8.1).

ghost use Rattle.std.specs.Prelude.{◌≡◌, ◌≤◌, length};
ghost use Rattle.std.specs.List.{prefix_len};
ghost use Rattle.sieve_text.specs.Octets.{is_blank, is_white, is_start, is_word, is_plain, not_lf, begins_with, line_end_len, stray_len};

use memchr::memchr2;

fn is_blank_octet(b: u8) -> bool
    ensures { result ≡ is_blank b }
{
    b == b' ' || b == b'\t'
}

fn is_white_octet(b: u8) -> bool
    ensures { result ≡ is_white b }
{
    is_blank_octet(b) || (b == b'\n' || b == b'\r')
}

/// Whether an identifier can begin with this octet.
pub fn starts_word(b: u8) -> bool
    ensures { result ≡ is_start b }
{
    b.is_ascii_alphabetic() || b == b'_'
}

/// Whether an identifier can continue with this octet.
fn is_word_octet(b: u8) -> bool
    ensures { result ≡ is_word b }
{
    starts_word(b) || b.is_ascii_digit()
}

fn is_plain_octet(b: u8) -> bool
    ensures { result ≡ is_plain b }
{
    !(b == b'\\' || b == b'\n')
}

fn is_not_line_feed(b: u8) -> bool
    ensures { result ≡ not_lf b }
{
    b != b'\n'
}

/// How many blanks come first.
pub fn blank_length(rest: &[u8]) -> usize
    ensures value { result ≡ prefix_len is_blank rest.now }
    ensures within { result ≤ length rest.now }
{
    rest.iter().take_while(|b| is_blank_octet(**b)).count()
}

/// How many octets of white space come first.
pub fn white_length(rest: &[u8]) -> usize
    ensures value { result ≡ prefix_len is_white rest.now }
    ensures within { result ≤ length rest.now }
{
    rest.iter().take_while(|b| is_white_octet(**b)).count()
}

/// How many letters, digits and `_` come first.
pub fn word_length(rest: &[u8]) -> usize
    ensures value { result ≡ prefix_len is_word rest.now }
    ensures within { result ≤ length rest.now }
{
    rest.iter().take_while(|b| is_word_octet(**b)).count()
}

/// How many octets come before the first backslash or LF; all of them if there is none.
pub fn plain_length(rest: &[u8]) -> usize
    ensures value { result ≡ prefix_len is_plain rest.now }
    ensures within { result ≤ length rest.now }
{
    rest.iter().take_while(|b| is_plain_octet(**b)).count()
}

/// How many octets come before the first LF; all of them if there is none.
pub fn line_length(rest: &[u8]) -> usize
    ensures value { result ≡ prefix_len not_lf rest.now }
    ensures within { result ≤ length rest.now }
{
    rest.iter().take_while(|b| is_not_line_feed(**b)).count()
}

/// Whether this octet comes first.
pub fn starts_with(rest: &[u8], octet: u8) -> bool
    ensures { result ≡ begins_with octet rest.now }
{
    matches!(rest, [b, ..] if *b == octet)
}

/// The length in octets of the line end that begins here, LF or CR LF; 0 if none begins.
pub fn line_end_length(rest: &[u8]) -> usize
    ensures value { result ≡ line_end_len rest.now }
    ensures within { result ≤ length rest.now }
{
    match rest.split_first() {
        Some((b'\n', _)) => 1,
        Some((b'\r', following)) if starts_with(following, b'\n') => 2,
        _ => 0,
    }
}

/// What `stray_length` gives, octet by octet.
#[tactic(auto, unfolding(crate::specs::Octets::stray_len))]
fn first_stray(script: &[u8]) -> usize
    ensures value { result ≡ stray_len script.now }
    ensures within { result ≤ length script.now }
{
    let mut rest = script;
    let mut n = 0;
    'octets: while let Some((&b, following)) = rest.split_first() {
        if b == 0 || (b == b'\r' && !starts_with(following, b'\n')) {
            return n;
        }
        n += 1;
        rest = following;
    }
    n
}

/// How many octets come before the first octet 0 or CR without LF; all of them if there is none. One search finds
/// whether there is an octet 0 or a CR at all.
pub fn stray_length(script: &[u8]) -> usize
    ensures value { result ≡ stray_len script.now }
    ensures within { result ≤ length script.now }
{
    match memchr2(0, b'\r', script) {
        None => script.len(),
        Some(_) => first_stray(script),
    }
}
