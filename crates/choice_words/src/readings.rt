//! Words that read as numbers of records, and so are more likely these than what belongs in their place.

ghost use Rattle.std.specs.Prelude.{◌≡◌};
ghost use Rattle.std.specs.List.{list_all, list_any, slice_split};
ghost use Rattle.choice_words.specs.Readings.{is_comma, is_counted, is_counted_or_empty, reads_as, reads_as_any_numbers, reads_as_numbers};

use crate::numbers::is_numbers;
use crate::volumes::is_numbers_of_volume;

/// Whether a word is numbers of records. Those of a volume count only where `with_volumes` says so.
fn is_counted(word: &[u8], with_volumes: bool) -> bool
    ensures { result ≡ is_counted with_volumes word.now }
{
    is_numbers(word) || (with_volumes && is_numbers_of_volume(word))
}

/// Whether a part of a word between commas is numbers that count.
fn has_numbers(word: &[u8], with_volumes: bool) -> bool
    ensures { result ≡ list_any (is_counted with_volumes) (slice_split is_comma word.now) }
{
    word.split(|octet| *octet == b',')
        .any(|part| is_counted(part, with_volumes))
}

/// Whether each part of a word between commas is numbers that count, or empty.
fn has_numbers_alone(word: &[u8], with_volumes: bool) -> bool
    ensures { result
        ≡ list_all (is_counted_or_empty with_volumes) (slice_split is_comma word.now) }
{
    word.split(|octet| *octet == b',')
        .all(|part| part.is_empty() || is_counted(part, with_volumes))
}

/// Whether a word reads as numbers that count.
fn reads_as(word: &[u8], with_volumes: bool) -> bool
    ensures { result ≡ reads_as with_volumes word.now }
{
    has_numbers(word, with_volumes) && has_numbers_alone(word, with_volumes)
}

/// Whether a word reads as numbers of records without a volume, and so is more likely these than a name or a path: numbers and
/// ranges, also backwards ones, with commas between or after them, as `3`, `5-9`, `9-5` and `1,3`.
pub fn reads_as_numbers(word: &[u8]) -> bool
    ensures { result ≡ reads_as_numbers word.now }
{
    reads_as(word, false)
}

/// The same, where numbers and ranges with a volume count too, as `3/17`, `3/5-9`, `3/9-5`, `3/` and `1,3/4`. In an archive in one
/// file such a word may be a name.
pub fn reads_as_any_numbers(word: &[u8]) -> bool
    ensures { result ≡ reads_as_any_numbers word.now }
{
    reads_as(word, true)
}
