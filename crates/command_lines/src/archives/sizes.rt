//! What a command line asks of the size of volumes.

ghost use Rattle.std.specs.Prelude.{◌≡◌, ◌*◌, codes, IfOk};
ghost use Rattle.clap.specs.Matches.{found_of};
ghost use Rattle.command_lines.specs.Asked.{value_in};
ghost use Rattle.command_lines.specs.Stores.{IsSize};
ghost use Rattle.command_lines.specs.Sizes.{digits_in, size_typed, size_within, unit_in};

use super::names;
use crate::reading::{NoCommand, value_of};
use clap::ArgMatches;
use session_words::read_number;
use std::alloc::Global;

/// The least size of a volume, in octets: 1M.
const LEAST: u64 = 1_048_576;

/// The greatest one: 1024G.
const GREATEST: u64 = 1_099_511_627_776;

/// What stands before the unit of a size, and how many octets the unit stands for: `M` or `G`, and 1 where there is none.
fn parted(word: &[u8]) -> (&[u8], u64)
    ensures digits { result.0.now ≡ digits_in word.now }
    ensures unit { result.1 ≡ unit_in word.now }
{
    match word {
        [digits @ .., b'M'] => (digits, 1_048_576),
        [digits @ .., b'G'] => (digits, 1_073_741_824),
        _ => (word, 1),
    }
}

/// So many units as a size in octets. None where that is less than the least size or more than the greatest one.
fn size_of(number: u64, unit: u64) -> Option<u64>
    ensures { result ≡ size_within (number * unit) }
{
    match number.checked_mul(unit) {
        Some(size) if LEAST <= size && size <= GREATEST => Some(size),
        _ => None,
    }
}

/// The size that a word is, in octets: decimal digits without a leading zero, with `M` or `G` behind them where megabytes or
/// gigabytes are meant, of 1,048,576 and 1,073,741,824 octets. None where it is less than 1M or more than 1024G, and for any
/// other word.
fn read_size(word: &[u8]) -> Option<u64>
    ensures { result ≡ size_typed word.now }
{
    let (digits, unit) = parted(word);
    match read_number(digits, GREATEST) {
        Some(number) => size_of(number, unit),
        None => None,
    }
}

/// The size of the volumes of a new archive, where one of volumes is asked for.
pub(super) fn size_asked(alloc: Global, asked: &ArgMatches<'_>) -> Result<Option<u64>, NoCommand>
    ensures { IfOk result (IsSize (value_in (found_of asked.now) (codes "roll"))) }
{
    let Some(word) = value_of(asked, names::ROLL) else {
        return Ok(None);
    };
    match read_size(word.as_bytes()) {
        Some(size) => Ok(Some(size)),
        None => Err(NoCommand::wrong_after(
            alloc,
            names::ROLL,
            word,
            "not a size of 1M to 1024G, as 32M",
        )),
    }
}
