//! The numbers of records and of events.

ghost use Rattle.std.specs.Prelude.{◌≡◌, ◌++◌, OnOk, IfOk, string_bytes};
ghost use Rattle.cli_texts.specs.Rows.{number_field};
ghost use Rattle.cli_texts.specs.Lines.{record_number};

use std::alloc::{AllocError, Global};
use tool_texts::{Shown, put};

/// Adds the number of a record, or of an event, after that of its volume where it has one: `17`, or `3/17`.
pub fn put_number(text: &mut Shown, volume: Option<u32>, number: u32) -> Result<(), AllocError>
    ensures { OnOk result (text.new ≡ text.old ++ record_number volume number) }
{
    match volume {
        Some(volume) => put!(text; value(&volume) "/" value(&number)),
        None => text.value(&number),
    }
}

/// The number of a record, after that of its volume where it has one.
pub fn number_text(alloc: Global, volume: Option<u32>, number: u32) -> Result<String, AllocError>
    ensures { IfOk result (λ t. string_bytes t ≡ number_field volume number) }
{
    match volume {
        Some(volume) => format!(in alloc; "{volume}/{number}"),
        None => format!(in alloc; "{number}"),
    }
}
