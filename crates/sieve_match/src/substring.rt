//! `:contains` (RFC 5228, section 2.7.1). Either search takes time linear in key and value.

ghost use Rattle.std.specs.Prelude.{◌≡◌, ◌↔◌, IsTrue};
ghost use Rattle.memchr.specs.Find.{FindsNeedle};
ghost use Rattle.sieve_meaning.specs.Matching.{contains as contains_under, fold, Contains};

use crate::Comparator;
use crate::two_way::find_folded;
use memchr::memmem;

/// The first place of a value at which a key occurs, as octets are compared, counted from 0. The empty key occurs at
/// place 0.
pub(crate) fn find(key: &[u8], value: &[u8], comparator: Comparator) -> Option<usize>
    ensures { FindsNeedle (fold comparator value.now) (fold comparator key.now) 0 result }
{
    match comparator {
        Comparator::Octet => memmem::find(value, key),
        Comparator::Casemap => find_folded(key, value),
    }
}

/// Whether a key occurs in a value, as octets are compared: the match type `:contains` (RFC 5228, section 2.7.1). Each
/// value contains the empty key.
pub fn contains(key: &[u8], value: &[u8], comparator: Comparator) -> bool
    ensures answer { IsTrue result ↔ Contains comparator key.now value.now }
    ensures test { result ≡ contains_under comparator key.now value.now }
{
    find(key, value, comparator).is_some()
}
