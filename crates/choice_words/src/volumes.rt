//! The numbers of records that a word is in an archive of volumes, where the number of its volume stands before that of a record.

ghost use Rattle.std.specs.Prelude.{◌≡◌};
ghost use Rattle.std.specs.List.{position};
ghost use Rattle.choice_words.specs.Volumes.{is_numbers_of_volume, is_slash, number_in, numbers_behind, numbers_in, reversed_in_volume, volume_of, volume_number, volume_numbers};

use crate::numbers::{TypedNumbers, read_numbers, read_record_number, reversed_range};
use session_words::read_number;

/// Numbers of records of a volume, as a word has them: `3/17` and `3/5-9`. All of its records, as `3/`, are a range of all
/// numbers.
#[derive(Clone, Copy)]
pub struct VolumeNumbers {
    /// The number of the volume.
    pub volume: u32,
    pub numbers: TypedNumbers,
}

/// The number of one record of a volume, as `3/17`.
#[derive(Clone, Copy)]
pub struct VolumeNumber {
    /// The number of the volume.
    pub volume: u32,
    pub number: u32,
}

/// The greatest number of a volume, which has four digits.
const LAST_VOLUME: u64 = 9_999;

/// All numbers of records.
const ALL: TypedNumbers = TypedNumbers::Range {
    first: 1,
    last: u32::MAX,
};

/// The number of a volume that a word is: 1 to 9,999, in decimal digits without a leading zero. None for any other word.
fn volume_of(word: &[u8]) -> Option<u32>
    ensures { result ≡ volume_of word.now }
{
    match read_number(word, LAST_VOLUME) {
        None | Some(0) => None,
        Some(number) => Some(number as u32),
    }
}

/// Where the first slash stands in a word.
fn first_slash(word: &[u8]) -> Option<usize>
    ensures { result ≡ position is_slash word.now }
{
    word.iter().position(|octet| *octet == b'/')
}

/// Numbers in a volume. None where one of the two is none.
fn numbers_in(volume: Option<u32>, numbers: Option<TypedNumbers>) -> Option<VolumeNumbers>
    ensures { result ≡ numbers_in volume numbers }
{
    match (volume, numbers) {
        (Some(volume), Some(numbers)) => Some(VolumeNumbers { volume, numbers }),
        _ => None,
    }
}

/// A number in a volume. None where one of the two is none.
fn number_in(volume: Option<u32>, number: Option<u32>) -> Option<VolumeNumber>
    ensures { result ≡ number_in volume number }
{
    match (volume, number) {
        (Some(volume), Some(number)) => Some(VolumeNumber { volume, number }),
        _ => None,
    }
}

/// The numbers that stand behind a slash: all, where nothing does.
fn read_behind(word: &[u8]) -> Option<TypedNumbers>
    ensures { result ≡ numbers_behind word.now }
{
    match word {
        [] => Some(ALL),
        _ => read_numbers(word),
    }
}

/// The numbers of records of a volume that a word is: the number of the volume, a slash, and a number of a record, two with a
/// hyphen between them, or nothing for all records of the volume. None for any other word.
pub fn read_volume_numbers(word: &[u8]) -> Option<VolumeNumbers>
    ensures { result ≡ volume_numbers word.now }
{
    let at = first_slash(word)?;
    numbers_in(volume_of(&word[..at]), read_behind(&word[at + 1..]))
}

/// The number of one record of a volume that a word is, as `3/17`. None for any other word.
pub fn read_volume_number(word: &[u8]) -> Option<VolumeNumber>
    ensures { result ≡ volume_number word.now }
{
    let at = first_slash(word)?;
    number_in(volume_of(&word[..at]), read_record_number(&word[at + 1..]))
}

/// The range of a volume that a word is once its two numbers have changed places: 5 to 9 of volume 3 for `3/9-5`. None where
/// that is no range of a volume.
pub fn reversed_volume_range(word: &[u8]) -> Option<VolumeNumbers>
    ensures { result ≡ reversed_in_volume word.now }
{
    let at = first_slash(word)?;
    numbers_in(volume_of(&word[..at]), reversed_range(&word[at + 1..]))
}

/// Whether a word is numbers of records of a volume, be it a range that goes backwards.
pub(crate) fn is_numbers_of_volume(word: &[u8]) -> bool
    ensures { result ≡ is_numbers_of_volume word.now }
{
    read_volume_numbers(word).is_some() || reversed_volume_range(word).is_some()
}
