//! The names of volumes: `0001.db`, `0002.db` and so on.

ghost use Rattle.std.specs.Prelude.{◌≡◌, ◌++◌, IfOk, OnOk, decimal, string_bytes};
ghost use Rattle.cli_volumes.specs.Names.{draft_of, name_of, path_in as path_of_name, path_of as path_of_volume, volume_named, without_slash};

use record_volumes::LAST_VOLUME;
use session_words::read_digits;
use std::alloc::{AllocError, Global};

/// What the name of a volume ends with.
const ENDING: &[u8] = b".db";

/// How many digits come before that.
const DIGITS: usize = 4;

/// What the path of a file or of a folder ends with until it is whole.
pub(crate) const DRAFT: &str = ".mailfile-new";

/// The number of the volume in a file of a name: four digits, not all of them 0, and `.db`. None for any other name.
pub fn volume_of(name: &[u8]) -> Option<u32>
    ensures { result ≡ volume_named name.now }
{
    if name.len() != DIGITS + ENDING.len() || &name[DIGITS..] != ENDING {
        return None;
    }
    match read_digits(&name[..DIGITS], u64::from(LAST_VOLUME)) {
        None | Some(0) => None,
        Some(volume) => Some(volume as u32),
    }
}

/// Adds a number.
pub(crate) fn push_number(text: &mut String, number: u64) -> Result<(), AllocError>
    ensures { OnOk result (string_bytes text.new ≡ string_bytes text.old ++ decimal number) }
{
    write!(text, "{number}")
}

/// The name of the file of a volume.
pub fn volume_name(alloc: Global, volume: u32) -> Result<String, AllocError>
    ensures { IfOk result (λ name. string_bytes name ≡ name_of volume) }
{
    let mut name = String::new(alloc);
    push_number(&mut name, u64::from(volume / 1000 % 10))?;
    push_number(&mut name, u64::from(volume / 100 % 10))?;
    push_number(&mut name, u64::from(volume / 10 % 10))?;
    push_number(&mut name, u64::from(volume % 10))?;
    name.push_str(".db")?;
    Ok(name)
}

/// The path of a folder without the slash that it may end with.
pub(crate) fn without_slash(folder: &str) -> &str
    ensures { result.now ≡ without_slash folder.now }
{
    match folder.strip_suffix('/') {
        Some(front) => front,
        None => folder,
    }
}

/// The path of a file in a folder. One slash at the end of the folder's path is none of it.
pub(crate) fn path_in(alloc: Global, folder: &str, name: &str) -> Result<String, AllocError>
    ensures { IfOk result (λ path. string_bytes path ≡ path_of_name folder.now name.now) }
{
    let folder = without_slash(folder);
    format!(in alloc; "{folder}/{name}")
}

/// The path of a folder until it is whole. One slash at the end of its path is none of it.
pub(crate) fn draft_of(alloc: Global, folder: &str) -> Result<String, AllocError>
    ensures { IfOk result (λ path. string_bytes path ≡ draft_of folder.now) }
{
    let place = without_slash(folder);
    format!(in alloc; "{place}{DRAFT}")
}

/// The path of a volume in a folder.
pub fn path_of(alloc: Global, folder: &str, volume: u32) -> Result<String, AllocError>
    ensures { IfOk result (λ path. string_bytes path ≡ path_of_volume folder.now volume) }
{
    let name = volume_name(alloc, volume)?;
    path_in(alloc, folder, name.as_str())
}
