//! Numbers (RFC 5228, section 2.4.1).

ghost use Rattle.std.specs.Prelude.{◌≡◌, ◌≤◌, ◌<◌, ◌^◌, length, IfOk, SomeIff, ℕ, IfErr};
ghost use Rattle.std.specs.List.{prefix_len};
ghost use Rattle.std.specs.Char.{is_ascii_digit};
ghost use Rattle.std.specs.Str.Parse.{digits_value};
ghost use Rattle.sieve_text.specs.Lexemes.{read_of};
ghost use Rattle.sieve_text.specs.Tokens.{factor_at, number_at, Gives, StandsAt, either_place};

use crate::fault::{FaultyPlace, ScanRefusal};
use crate::lexeme::Lexeme;

/// 2^63 - 1.
const MAX_NUMBER: u64 = 9_223_372_036_854_775_807;

/// The factor of the quantifier that comes first, K, M or G in either case, and its length 1; 1 and 0 if there is none.
fn factor(rest: &[u8]) -> (u64, usize)
    ensures value { result ≡ factor_at rest.now }
    ensures positive { 0 < result.0 }
    ensures within { result.1 ≤ length rest.now }
{
    match rest {
        [b'K' | b'k', ..] => (1 << 10, 1),
        [b'M' | b'm', ..] => (1 << 20, 1),
        [b'G' | b'g', ..] => (1 << 30, 1),
        _ => (1, 0),
    }
}

fn digits_length(rest: &[u8]) -> usize
    ensures value { result ≡ prefix_len is_ascii_digit rest.now }
    ensures within { result ≤ length rest.now }
{
    rest.iter().take_while(|b| b.is_ascii_digit()).count()
}

/// The value of decimal digits; none above 2^63 - 1.
fn decimal(digits: &[u8]) -> Option<u64>
    requires { prefix_len is_ascii_digit digits.now ≡ length digits.now }
    ensures { SomeIff result (digits_value 10 digits.now < 2 ^ 63) (digits_value 10 digits.now) }
{
    let mut value = 0;
    for &b in digits {
        let digit = u64::from(b - b'0');
        if value > (MAX_NUMBER - digit) / 10 {
            return None;
        }
        value = value * 10 + digit;
    }
    Some(value)
}

/// The number that begins here, at this offset, and its length in octets.
#[tactic(auto, unfolding(crate::specs::Tokens::number_at))]
pub fn token(rest: &[u8], at: usize) -> Result<(Lexeme<'_>, usize), FaultyPlace>
    ensures value { Gives read_of result (number_at rest.now) }
    ensures within { IfOk result (λ x. x.1 ≤ length rest.now) }
    ensures some { IfOk result (λ x. prefix_len is_ascii_digit rest.now ≤ x.1) }
    ensures place { (octet : ℕ) → IfErr result (λ e. StandsAt (either_place at octet) e) }
{
    let n = digits_length(rest);
    let (digits, following) = rest.split_at(n);
    let (factor, quantifier) = factor(following);
    let Some(value) = decimal(digits) else {
        return Err(FaultyPlace::new(ScanRefusal::NumberTooLarge, at));
    };
    match value.checked_mul(factor) {
        Some(value) if value <= MAX_NUMBER => Ok((Lexeme::Number(value), n + quantifier)),
        _ => Err(FaultyPlace::new(ScanRefusal::NumberTooLarge, at)),
    }
}
