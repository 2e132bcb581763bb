//! The file `volumes` of a folder.

ghost use Rattle.std.specs.Prelude.{◌≡◌, IfOk, IfSome, string_bytes};
ghost use Rattle.cli_volumes.specs.Sheets.{IsSize, IsSpelled, spelling};

use crate::names::push_number;
use record_volumes::LAST_VOLUME;
use session_words::read_number;
use std::alloc::{AllocError, Global};

/// The least size of a volume, in octets.
const LEAST: u64 = 1 << 20;

/// The greatest size of a volume, in octets.
const GREATEST: u64 = 1 << 40;

/// What the file `volumes` says.
#[derive(Clone, Copy)]
pub struct Sheet {
    /// Over how many octets a volume is over its size.
    pub size: u64,
    /// How many volumes were begun. One more may have been, where a program was killed before it noted that.
    pub begun: u32,
}

/// The text of a sheet: `mailfile volumes 1`, `size N` and `begun N`, a line each.
pub fn sheet_text(alloc: Global, sheet: Sheet) -> Result<String, AllocError>
    ensures { IfOk result (λ text. string_bytes text ≡ spelling sheet) }
{
    let mut text = String::from_str(alloc, "mailfile volumes 1\nsize ")?;
    push_number(&mut text, sheet.size)?;
    text.push_str("\nbegun ")?;
    push_number(&mut text, u64::from(sheet.begun))?;
    text.push_str("\n")?;
    Ok(text)
}

/// The numbers that stand where a sheet has them, with a size that a volume may have.
fn numbers_of(octets: &[u8]) -> Option<Sheet>
    ensures { IfSome result (λ sheet. IsSize sheet.size) }
{
    let mut words = octets.split(|octet| *octet == b' ' || *octet == b'\n');
    let size = read_number(words.nth(4)?, GREATEST)?;
    if size < LEAST || size > GREATEST {
        return None;
    }
    let begun = read_number(words.nth(1)?, u64::from(LAST_VOLUME))?;
    Some(Sheet {
        size,
        begun: begun as u32,
    })
}

/// What octets say that are the text of a sheet, octet for octet, by which a volume has 1,048,576 to 1,099,511,627,776 octets. None for any
/// others.
pub fn read_sheet(alloc: Global, octets: &[u8]) -> Result<Option<Sheet>, AllocError>
    ensures { IfOk result (λ o. IfSome o (λ sheet. IsSpelled sheet octets.now)) }
{
    let Some(sheet) = numbers_of(octets) else {
        return Ok(None);
    };
    let text = sheet_text(alloc, sheet)?;
    if text.as_bytes() == octets {
        Ok(Some(sheet))
    } else {
        Ok(None)
    }
}
