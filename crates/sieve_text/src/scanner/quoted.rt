//! Quoted strings (RFC 5228, section 2.4.2).

ghost use Rattle.std.specs.Prelude.{◌≡◌, ◌≤◌, ◌<◌, ◌+◌, length, false, suc, IfOk, ℕ, IfErr};
ghost use Rattle.sieve_text.specs.Strings.{quoted_len, quoted_value};
ghost use Rattle.sieve_text.specs.Lexemes.{read_of};
ghost use Rattle.sieve_text.specs.Tokens.{quoted_at, Gives, StandsAt, either_place};

use crate::fault::{FaultyPlace, ScanRefusal};
use crate::lexeme::{Lexeme, WrittenString};
use crate::scanner::strings::string;
use std::alloc::{AllocError, Global};

/// How many octets come before the closing quotation mark; all of them if there is none.
#[tactic(auto, unfolding(crate::specs::Strings::quoted_len))]
fn body_length(rest: &[u8]) -> usize
    ensures value { result ≡ quoted_len false rest.now }
    ensures within { result ≤ length rest.now }
{
    let mut escaped = false;
    for (i, &b) in rest.iter().enumerate() {
        if escaped {
            escaped = false;
        } else if b == b'"' {
            return i;
        } else {
            escaped = b == b'\\';
        }
    }
    rest.len()
}

/// The value of the octets between the quotation marks: a backslash is dropped, the octet after it stays, and a bare LF
/// becomes CR LF.
#[tactic(auto, unfolding(crate::specs::Strings::without_escapes, crate::specs::Strings::with_crlf))]
pub fn value(alloc: Global, body: &[u8]) -> Result<Vec<u8>, AllocError>
    ensures { IfOk result (λ v. v.items ≡ quoted_value body.now) }
{
    let mut octets = Vec::with_capacity(alloc, body.len())?;
    let mut escaped = false;
    let mut after_cr = false;
    for &b in body {
        if b == b'\\' && !escaped {
            escaped = true;
        } else {
            if b == b'\n' && !after_cr {
                octets.push(b'\r')?;
            }
            octets.push(b)?;
            escaped = false;
            after_cr = b == b'\r';
        }
    }
    Ok(octets)
}

/// A string: `following` is the text after its opening quotation mark, which is at this offset.
#[tactic(auto, unfolding(crate::specs::Tokens::quoted_at))]
pub fn token(following: &[u8], at: usize) -> Result<(Lexeme<'_>, usize), FaultyPlace>
    ensures value { Gives read_of result (quoted_at following.now) }
    ensures within { IfOk result (λ x. x.1 ≤ suc (length following.now)) }
    ensures some { IfOk result (λ x. 0 < x.1) }
    ensures place { (octet : ℕ) → IfErr result (λ e. StandsAt (either_place at octet) e) }
{
    let n = body_length(following);
    if n == following.len() {
        return Err(FaultyPlace::new(ScanRefusal::StringNotClosed, at));
    }
    string(WrittenString::Quoted(&following[..n]), n + 2, at)
}
