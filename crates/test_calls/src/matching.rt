//! The calls of matching.

use anyhow::Result;
use sieve_match::{Comparator, matches, matches_counted};
use std::alloc::Global;

/// The comparator of a word: `octet`, or else without case.
fn comparator_of(word: &[u8]) -> Comparator {
    if word == b"octet".as_slice() {
        Comparator::Octet
    } else {
        Comparator::Casemap
    }
}

/// Whether a pattern matches a value, and how many octets were compared.
pub fn counted(alloc: Global, value: &[u8], pattern: &[u8], comparator: &[u8]) -> Result<Vec<u8>> {
    let (answer, count) = matches_counted(pattern, value, comparator_of(comparator));
    let count = u64::try_from(count).unwrap_or(u64::MAX);
    Ok(format!(in alloc; "{answer} {count}")?.into_bytes())
}

/// The letters that the digits of a number represent, of `bits` bits each.
fn spelled(number: u16, bits: u32, letters: &[u8; 4]) -> [u8; 5] {
    let mut text = [b'a'; 5];
    let mut rest = number;
    for octet in text.iter_mut() {
        *octet = letters[(rest % 4) as usize];
        rest = rest.checked_shr(bits).unwrap_or(0);
    }
    text
}

/// How many of the values of up to five octets over two a pattern matches.
fn count_matches(pattern: &[u8]) -> u32 {
    let mut count = 0u32;
    for (length, numbers) in [(0, 1), (1, 2), (2, 4), (3, 8), (4, 16), (5, 32)] {
        for number in 0..numbers {
            let text = spelled(number, 1, b"abab");
            let answer = matches(pattern, &text[..length.min(5)], Comparator::Octet);
            count = count.saturating_add(u32::from(answer));
        }
    }
    count
}

/// How many pairs match of all patterns of up to five items over two octets and all values of up to five.
pub fn short_patterns(alloc: Global) -> Result<Vec<u8>> {
    let mut count = 0u32;
    for (length, numbers) in [(0, 1), (1, 4), (2, 16), (3, 64), (4, 256), (5, 1024)] {
        for number in 0..numbers {
            let text = spelled(number, 2, b"ab?*");
            count = count.saturating_add(count_matches(&text[..length.min(5)]));
        }
    }
    Ok(format!(in alloc; "{count}")?.into_bytes())
}
