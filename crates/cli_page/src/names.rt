//! The names of the files of an export.

ghost use Rattle.std.specs.Prelude.{◌≡◌, IfOk, string_bytes};
ghost use Rattle.cli_page.specs.Names.{file_name as file_name_of, history_name as history_name_of};

use std::alloc::{AllocError, Global};

/// The name of the file of a message, behind the number of its volume where it has one: `17.eml`, or `3-17.eml`.
///
/// The only refusal is no memory (99).
pub fn file_name(alloc: Global, volume: Option<u32>, message: u32) -> Result<String, AllocError>
    ensures { IfOk result (λ name. string_bytes name ≡ file_name_of volume message) }
{
    match volume {
        Some(volume) => format!(in alloc; "{volume}-{message}.eml"),
        None => format!(in alloc; "{message}.eml"),
    }
}

/// The name of the file of the events of a store, `history.txt`, or of a volume, as `history-3.txt`.
///
/// The only refusal is no memory (99).
pub fn history_name(alloc: Global, volume: Option<u32>) -> Result<String, AllocError>
    ensures { IfOk result (λ name. string_bytes name ≡ history_name_of volume) }
{
    match volume {
        Some(volume) => format!(in alloc; "history-{volume}.txt"),
        None => String::from_str(alloc, "history.txt"),
    }
}
