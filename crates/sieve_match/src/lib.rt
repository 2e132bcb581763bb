//! Comparators and match types (RFC 5228, sections 2.7.1 and 2.7.3; RFC 4790, sections 9.2 and 9.3): whether a key
//! matches a value. No call allocates.
//!
//! `sieve_meaning` defines what the answers mean, as relations and as functions that compute the same. Each call here
//! has a clause for each of the two.
//!
//! - `octets`: octets as they are compared, and `:is`;
//! - `substring`: `:contains`;
//! - `covering`: `:matches`;
//! - `wildcards`: the same with its comparisons counted.
#![tactic(auto)]

ghost use Rattle.std.specs.Prelude.{◌≡◌};
ghost use Rattle.sieve_meaning.specs.Matching.{key_matches as key_matches_by};

mod covering;
mod octets;
mod pieces;
mod places;
mod substring;
mod two_way;
mod wildcards;

pub use covering::matches;
pub use octets::is;
pub use sieve_meaning::{Comparator, MatchType};
pub use substring::contains;
pub use wildcards::matches_counted;

/// Whether a key matches a value, by a match type and a comparator.
pub fn key_matches(match_type: MatchType, key: &[u8], value: &[u8], comparator: Comparator) -> bool
    ensures { result ≡ key_matches_by match_type comparator key.now value.now }
{
    match match_type {
        MatchType::Is => is(key, value, comparator),
        MatchType::Contains => contains(key, value, comparator),
        MatchType::Matches => matches(key, value, comparator),
    }
}
