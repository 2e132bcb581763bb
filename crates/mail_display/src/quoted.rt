//! Q text (RFC 2047, section 4.2).

ghost use Rattle.std.specs.Prelude.{◌≡◌, ◌<◌, ◌==◌, IfOk, IfSome, MatchOption, if◌then◌else◌};
ghost use Rattle.mail_display.specs.Quoted.{hex_value, q_octets};
ghost use Rattle.mail_display.specs.declared.quoted.Place.TheVariants.{Plain};

use std::alloc::{AllocError, Global};

/// A place in Q text: where an octet may begin, after "=", or after "=" and one digit.
#[derive(Clone, Copy)]
pub enum Place {
    Plain,
    Escape,
    Digit(u8),
}

/// The number of a hexadecimal digit of either case.
fn hex_digit(octet: u8) -> Option<u8>
    ensures value { result ≡ hex_value octet }
    ensures small { IfSome result (λ n. n < 16) }
{
    match octet {
        b'0'..=b'9' => Some(octet - b'0'),
        b'A'..=b'F' => Some(octet - b'A' + 10),
        b'a'..=b'f' => Some(octet - b'a' + 10),
        _ => None,
    }
}

/// The octet that an octet of Q text other than "=" encodes: a space for "_", and otherwise itself.
fn plain_octet(octet: u8) -> u8
    ensures { result ≡ (if octet == 95 then 32 else octet) }
{
    if octet == b'_' { b' ' } else { octet }
}

/// The octets that Q text encodes. None where an "=" stands without two hexadecimal digits after it. The one error is
/// out of memory.
#[tactic(auto, unfolding(crate::specs::Quoted::q_octets))]
pub fn decode_q(alloc: Global, text: &[u8]) -> Result<Option<Vec<u8>>, AllocError>
    ensures { IfOk result (λ octets. MatchOption octets (q_octets Plain text.now ≡ None)
        (λ v. q_octets Plain text.now ≡ Some v.items)) }
{
    let mut octets = Vec::with_capacity(alloc, text.len())?;
    let mut place = Place::Plain;
    let mut rest = text;
    while let Some((octet, following)) = rest.split_first() {
        place = match place {
            Place::Plain if *octet == b'=' => Place::Escape,
            Place::Plain => {
                octets.push(plain_octet(*octet))?;
                Place::Plain
            }
            Place::Escape => match hex_digit(*octet) {
                Some(high) => Place::Digit(high),
                None => return Ok(None),
            },
            Place::Digit(high) => match hex_digit(*octet) {
                Some(low) => {
                    octets.push(high * 16 + low)?;
                    Place::Plain
                }
                None => return Ok(None),
            },
        };
        rest = following;
    }
    match place {
        Place::Plain => Ok(Some(octets)),
        _ => Ok(None),
    }
}
