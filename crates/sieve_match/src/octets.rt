//! Octets as they are compared (RFC 4790, sections 9.2 and 9.3), and `:is`.

ghost use Rattle.std.specs.Prelude.{◌≡◌, ◌↔◌, IsTrue};
ghost use Rattle.sieve_meaning.specs.Matching.{fold_octet, equals, IsEqualUnder};

use crate::Comparator;

/// An octet as it is compared: `i;ascii-casemap` maps a to z to A to Z, and keeps any other octet.
pub(crate) fn fold(comparator: Comparator, octet: u8) -> u8
    ensures { result ≡ fold_octet comparator octet }
{
    match comparator {
        Comparator::Octet => octet,
        Comparator::Casemap => match octet {
            b'a'..=b'z' => octet - 32,
            _ => octet,
        },
    }
}

/// Whether a key and a value compare as equal: the match type `:is` (RFC 5228, section 2.7.1).
pub fn is(key: &[u8], value: &[u8], comparator: Comparator) -> bool
    ensures answer { IsTrue result ↔ IsEqualUnder comparator key.now value.now }
    ensures test { result ≡ equals comparator key.now value.now }
{
    match comparator {
        Comparator::Octet => key == value,
        Comparator::Casemap => key.eq_ignore_ascii_case(value),
    }
}
