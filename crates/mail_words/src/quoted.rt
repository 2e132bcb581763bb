//! Q text (RFC 2047, section 4.2).

ghost use Rattle.std.specs.Prelude.{◌≡◌, ◌<◌, ◌==◌, IfOk, IfSome, if◌then◌else◌};
ghost use Rattle.mail_words.specs.Unfolding.{without_line_ends};
ghost use Rattle.mail_words.specs.Charsets.{ArePut};
ghost use Rattle.mail_words.specs.Decoding.{hex_value, q_octets};

use crate::charset::{Charset, append_octet};
use crate::unfolding::first_octet;
use std::alloc::AllocError;

/// A place in Q text: where an octet may begin, after "=", or after "=" and one digit.
#[derive(Clone, Copy)]
pub enum Place {
    Plain,
    Escape,
    Digit(u8),
}

/// The number of a hexadecimal digit of either case.
fn hex_digit(octet: u8) -> Option<u8>
    ensures value { result ≡ hex_value octet }
    ensures small { IfSome result (λ n. n < 16) }
{
    match octet {
        b'0'..=b'9' => Some(octet - b'0'),
        b'A'..=b'F' => Some(octet - b'A' + 10),
        b'a'..=b'f' => Some(octet - b'a' + 10),
        _ => None,
    }
}

/// The octet that an octet of Q text other than "=" encodes: a space for "_", and otherwise itself.
fn plain_octet(octet: u8) -> u8
    ensures { result ≡ (if octet == 95 then 32 else octet) }
{
    if octet == b'_' { b' ' } else { octet }
}

/// Appends the octets that Q text encodes, as they are written in a charset, and answers whether the text is good.
/// Where it is bad, some octets may have been appended.
#[tactic(auto, unfolding(crate::specs::Decoding::q_octets))]
pub fn append_q(shown: &mut Vec<u8>, charset: Charset, text: &[u8]) -> Result<bool, AllocError>
    ensures { IfOk result (λ good. ArePut good charset shown.old.items
        (q_octets Place.Plain (without_line_ends text.now)) shown.new.items) }
{
    let mut place = Place::Plain;
    let mut rest = text;
    while let Some((octet, following)) = first_octet(rest) {
        place = match place {
            Place::Plain if octet == b'=' => Place::Escape,
            Place::Plain => {
                append_octet(shown, charset, plain_octet(octet))?;
                Place::Plain
            }
            Place::Escape => match hex_digit(octet) {
                Some(high) => Place::Digit(high),
                None => return Ok(false),
            },
            Place::Digit(high) => match hex_digit(octet) {
                Some(low) => {
                    append_octet(shown, charset, high * 16 + low)?;
                    Place::Plain
                }
                None => return Ok(false),
            },
        };
        rest = following;
    }
    match place {
        Place::Plain => Ok(true),
        _ => Ok(false),
    }
}
