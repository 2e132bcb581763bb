//! The numbers of records that a word is.

ghost use Rattle.std.specs.Prelude.{◌≡◌};
ghost use Rattle.std.specs.List.{position};
ghost use Rattle.choice_words.specs.Numbers.{is_all, is_hyphen, is_numbers, record_number, numbers_typed, range_typed, reversed_typed};

use session_words::read_number;

/// Numbers of records, as a word has them.
#[derive(Clone, Copy)]
pub enum TypedNumbers {
    /// One number, as `3`.
    One(u32),
    /// The numbers from one to another, both included, as `5-9`.
    Range { first: u32, last: u32 },
}

impl TypedNumbers {
    /// Whether these are all numbers of records.
    pub fn is_all(self) -> bool
        ensures { result ≡ is_all self }
    {
        match self {
            TypedNumbers::One(_) => false,
            TypedNumbers::Range { first, last } => first == 1 && last == u32::MAX,
        }
    }
}

/// The number of a record that a word is: 1 to 4,294,967,295, in decimal digits without a leading zero. None for any other
/// word.
pub fn read_record_number(word: &[u8]) -> Option<u32>
    ensures { result ≡ record_number word.now }
{
    match read_number(word, u64::from(u32::MAX)) {
        None | Some(0) => None,
        Some(number) => Some(number as u32),
    }
}

/// The numbers from one to another. None where one of the two is none, and where the last is before the first.
fn range_of(first: Option<u32>, last: Option<u32>) -> Option<TypedNumbers>
    ensures { result ≡ range_typed first last }
{
    match (first, last) {
        (Some(first), Some(last)) => {
            if first <= last {
                Some(TypedNumbers::Range { first, last })
            } else {
                None
            }
        }
        _ => None,
    }
}

/// Where the first hyphen stands in a word.
fn first_hyphen(word: &[u8]) -> Option<usize>
    ensures { result ≡ position is_hyphen word.now }
{
    word.iter().position(|octet| *octet == b'-')
}

/// The numbers of records that a word is: a number of a record, or two with a hyphen between them, of which the second is
/// not the smaller one. None for any other word.
pub fn read_numbers(word: &[u8]) -> Option<TypedNumbers>
    ensures { result ≡ numbers_typed word.now }
{
    match first_hyphen(word) {
        None => match read_record_number(word) {
            Some(number) => Some(TypedNumbers::One(number)),
            None => None,
        },
        Some(at) => range_of(
            read_record_number(&word[..at]),
            read_record_number(&word[at + 1..]),
        ),
    }
}

/// The range that a word is once its two numbers have changed places: 5 to 9 for `9-5`. None where that is no range.
pub fn reversed_range(word: &[u8]) -> Option<TypedNumbers>
    ensures { result ≡ reversed_typed word.now }
{
    let at = first_hyphen(word)?;
    range_of(
        read_record_number(&word[at + 1..]),
        read_record_number(&word[..at]),
    )
}

/// Whether a word is numbers of records, be it a range that goes backwards.
pub(crate) fn is_numbers(word: &[u8]) -> bool
    ensures { result ≡ is_numbers word.now }
{
    read_numbers(word).is_some() || reversed_range(word).is_some()
}
