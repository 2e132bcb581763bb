//! Reads the arguments of commands and tests in a checked script.

ghost use Rattle.std.specs.Prelude.{◌≡◌, [], ◌∷◌, ◌<◌, ◌^◌, codes, length, false, MatchOption};
ghost use Rattle.sieve_meaning.specs.Reading.{is_tag, has_tag as has_tag_of, string_lists, first_string as first_string_of, comparator_named, comparator_from, match_type as match_type_of, number_in, include_of};
ghost use Rattle.sieve_meaning.specs.Scripts.{include_view, is_global};

use crate::matching::{Comparator, MatchType};
use crate::scripts::{Include, Location, ScriptName};
use crate::words::is_same_word;
use sieve_syntax::{Argument, StringList};

fn is_tag_named(argument: &Argument, name: &[u8]) -> bool
    ensures { result ≡ is_tag name.now argument.now }
{
    match argument {
        Argument::Tag(tag) => is_same_word(tag.as_slice(), name),
        Argument::Number(_) | Argument::Strings(_) => false,
    }
}

/// Whether the tag with this name is among the arguments. ASCII case is ignored.
pub fn has_tag(arguments: &[Argument], name: &[u8]) -> bool
    ensures { result ≡ has_tag_of name.now arguments.now }
{
    arguments
        .iter()
        .any(|argument| is_tag_named(argument, name))
}

/// The first string list, skipping one directly after `:comparator`, and the arguments after it; `None` where there is
/// none.
#[tactic(auto, unfolding(crate::specs::Reading::string_lists))]
pub fn next_string_list(arguments: &[Argument]) -> Option<(&StringList, &[Argument])>
    ensures { MatchOption result (string_lists false arguments.now ≡ [])
        (λ x. string_lists false arguments.now ≡ x.0.now ∷ string_lists false x.1.now) }
{
    let mut follows_tag = false;
    let mut rest = arguments;
    while let Some((argument, after)) = rest.split_first() {
        match argument {
            Argument::Strings(list) => {
                if !follows_tag {
                    return Some((list, after));
                }
                follows_tag = false;
            }
            Argument::Number(_) => follows_tag = false,
            Argument::Tag(tag) => follows_tag = is_same_word(tag.as_slice(), b"comparator"),
        }
        rest = after;
    }
    None
}

/// The first string of the first string list, skipping a list directly after `:comparator`; empty where there is none.
/// It has at most 65,535 octets.
pub fn first_string(arguments: &[Argument]) -> &[u8]
    ensures value { result.now ≡ first_string_of (string_lists false arguments.now) }
    ensures short { length result.now < 2 ^ 16 }
{
    match next_string_list(arguments) {
        Some((list, _)) => list.first().as_slice(),
        None => &[],
    }
}

/// The comparator of a name: `i;octet` by these exact octets, `i;ascii-casemap` by any others.
fn named_comparator(name: &[u8]) -> Comparator
    ensures { result ≡ comparator_named name.now }
{
    if name == b"i;octet".as_slice() {
        Comparator::Octet
    } else {
        Comparator::Casemap
    }
}

/// The comparator that the arguments name; `i;ascii-casemap` where they name none (RFC 5228, section 2.7.3).
#[tactic(auto, unfolding(crate::specs::Reading::comparator_from))]
pub fn comparator(arguments: &[Argument]) -> Comparator
    ensures { result ≡ comparator_from false arguments.now }
{
    let mut follows_tag = false;
    for argument in arguments {
        match argument {
            Argument::Strings(list) => {
                if follows_tag {
                    return named_comparator(list.first().as_slice());
                }
                follows_tag = false;
            }
            Argument::Number(_) => follows_tag = false,
            Argument::Tag(tag) => follows_tag = is_same_word(tag.as_slice(), b"comparator"),
        }
    }
    Comparator::Casemap
}

/// The match type that the arguments name; `:is` where they name none (RFC 5228, section 2.7.1).
pub fn match_type(arguments: &[Argument]) -> MatchType
    ensures { result ≡ match_type_of arguments.now }
{
    if has_tag(arguments, b"contains") {
        MatchType::Contains
    } else if has_tag(arguments, b"matches") {
        MatchType::Matches
    } else {
        MatchType::Is
    }
}

/// The first number among the arguments; 0 where there is none.
#[tactic(auto, unfolding(crate::specs::Reading::number_in))]
pub fn number(arguments: &[Argument]) -> u64
    ensures { result ≡ number_in arguments.now }
{
    for argument in arguments {
        if let Argument::Number(number) = argument {
            return *number;
        }
    }
    0
}

/// The location that an include names: `:global`, or else personal.
fn location(arguments: &[Argument]) -> Location
    ensures { is_global result ≡ has_tag_of (codes "global") arguments.now }
{
    if has_tag(arguments, b"global") {
        Location::Global
    } else {
        Location::Personal
    }
}

/// What an `include` with these arguments requests (RFC 6609, section 3.2).
pub fn include(arguments: &[Argument]) -> Include<'_>
    ensures { include_view result ≡ include_of arguments.now }
{
    Include {
        script: ScriptName {
            location: location(arguments),
            name: first_string(arguments),
        },
        is_once: has_tag(arguments, b"once"),
        is_optional: has_tag(arguments, b"optional"),
    }
}
