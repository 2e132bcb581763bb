//! The commands, names and numbers that words of a command line are.
//!
//! A session reads its lines by these, and so do the tools that write lines for a session: the first word is that of a
//! command, a name has 1 to 64 visible octets, and a number is decimal, without a leading zero. `specs/Verbs` and
//! `specs/Words` define the same.
#![tactic(auto)]

ghost use Rattle.std.specs.Prelude.{◌≡◌, ◌≤◌, Some, None, true, nat_le, if◌then◌else◌, IfSome};
ghost use Rattle.std.specs.Char.{is_ascii_digit};
ghost use Rattle.std.specs.List.{list_all};
ghost use Rattle.session_words.specs.Words.{are_digits as are_digits_of, digits_up_to, number_up_to, greatest_number, greatest_length, is_name_octet, is_name as is_name_of};

mod verbs;

use std::str;
pub use verbs::{Verb, verb_of};

/// How many octets a name has at most.
const MAX_NAME: usize = 64;

/// The greatest length in octets that a command line may give for a payload.
const MAX_LENGTH: u64 = 4_294_967_295;

/// Whether all octets are decimal digits.
fn has_digits_alone(word: &[u8]) -> bool
    ensures { result ≡ list_all is_ascii_digit word.now }
{
    word.iter().all(|octet| octet.is_ascii_digit())
}

/// Whether a word is one decimal digit or more.
fn are_digits(word: &[u8]) -> bool
    ensures { result ≡ are_digits_of word.now }
{
    match word {
        [] => false,
        _ => has_digits_alone(word),
    }
}

/// The number that decimal digits spell, where it fits 64 bits.
fn read_any(digits: &[u8]) -> Option<u64>
    requires { are_digits_of digits.now ≡ true }
    ensures { result ≡ digits_up_to greatest_number digits.now }
{
    str::from_utf8(digits).ok()?.parse().ok()
}

/// A number, where it is at most `greatest`.
fn at_most(number: u64, greatest: u64) -> Option<u64>
    ensures number { result ≡ if nat_le number greatest then Some number else None }
    ensures within { IfSome result (λ n. n ≤ greatest) }
{
    if number > greatest {
        return None;
    }
    Some(number)
}

/// The number that decimal digits spell, with leading zeros or without, where it is at most `greatest`. None for any
/// other word.
pub fn read_digits(word: &[u8], greatest: u64) -> Option<u64>
    ensures number { result ≡ digits_up_to greatest word.now }
    ensures within { IfSome result (λ n. n ≤ greatest) }
{
    if !are_digits(word) {
        return None;
    }
    match read_any(word) {
        Some(number) => at_most(number, greatest),
        None => None,
    }
}

/// The number of a decimal word without a leading zero, where it is at most `greatest`. None for any other word.
#[tactic(auto, unfolding(crate::specs::Words::number_up_to))]
pub fn read_number(word: &[u8], greatest: u64) -> Option<u64>
    ensures number { result ≡ number_up_to greatest word.now }
    ensures within { IfSome result (λ n. n ≤ greatest) }
{
    match word {
        [b'0', _, ..] => None,
        _ => read_digits(word, greatest),
    }
}

/// The length of a payload in octets: decimal, without a leading zero, at most 4,294,967,295. None for any other word.
pub fn read_length(word: &[u8]) -> Option<u32>
    ensures { result ≡ number_up_to greatest_length word.now }
{
    match read_number(word, MAX_LENGTH) {
        Some(length) => Some(length as u32),
        None => None,
    }
}

/// Whether all octets are from 33 to 126.
fn are_graphic(word: &[u8]) -> bool
    ensures { result ≡ list_all is_name_octet word.now }
{
    word.iter().all(|octet| octet.is_ascii_graphic())
}

/// Whether a word is a name: 1 to 64 octets from 33 to 126.
pub fn is_name(word: &[u8]) -> bool
    ensures { result ≡ is_name_of word.now }
{
    (1..=MAX_NAME).contains(&word.len()) && are_graphic(word)
}
