//! The numbers of comparisons, the first operand of `Match`. Each stands for a match type (RFC 5228, section 2.7.1) and
//! a comparator (RFC 5228, section 2.7.3). The compiler writes them, and the machine reads them.

ghost use Rattle.std.specs.Prelude.{◌≡◌, ◌≤◌};
ghost use Rattle.sieve_meaning.specs.Matching.{key_matches};
ghost use Rattle.filing_table.specs.Comparison.{comparison};
ghost use Rattle.filing_table.specs.Machine.{comparison_holds};

use sieve_meaning::{Comparator, MatchType};

/// The number of the comparison by a match type (RFC 5228, section 2.7.1) under a comparator (RFC 5228, section 2.7.3).
pub fn comparison_number(match_type: MatchType, comparator: Comparator) -> u8
    ensures { result ≡ comparison match_type comparator }
{
    match (match_type, comparator) {
        (MatchType::Is, Comparator::Octet) => 0,
        (MatchType::Is, Comparator::Casemap) => 1,
        (MatchType::Contains, Comparator::Octet) => 2,
        (MatchType::Contains, Comparator::Casemap) => 3,
        (MatchType::Matches, Comparator::Octet) => 4,
        (MatchType::Matches, Comparator::Casemap) => 5,
    }
}

/// The match type (RFC 5228, section 2.7.1) and the comparator (RFC 5228, section 2.7.3) of a comparison's number, so
/// that `comparison_number` gives that number back. There are six; a greater number answers as 5 does.
pub fn comparison_of(number: u8) -> (MatchType, Comparator)
    ensures inverse { number ≤ 5 → comparison result.0 result.1 ≡ number }
    ensures meaning { comparison_holds number ≡ key_matches result.0 result.1 }
{
    match number {
        0 => (MatchType::Is, Comparator::Octet),
        1 => (MatchType::Is, Comparator::Casemap),
        2 => (MatchType::Contains, Comparator::Octet),
        3 => (MatchType::Contains, Comparator::Casemap),
        4 => (MatchType::Matches, Comparator::Octet),
        _ => (MatchType::Matches, Comparator::Casemap),
    }
}
