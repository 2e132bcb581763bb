//! How answers are written as octets.

use anyhow::Result;
use std::alloc::Global;

/// One word or several.
pub fn word(alloc: Global, text: &str) -> Result<Vec<u8>> {
    Ok(Vec::from_slice(alloc, text.as_bytes())?)
}

/// A refusal of a text, with the offset at which it stands.
pub fn refused_at(alloc: Global, number: u8, at: usize) -> Result<Vec<u8>> {
    Ok(format!(in alloc; "refused {number} at {at}")?.into_bytes())
}

/// The size of a message: its octets and how many fields it has.
pub fn size(alloc: Global, octets: u64, fields: usize) -> Result<Vec<u8>> {
    Ok(format!(in alloc; "{octets} octets, {fields} fields")?.into_bytes())
}
