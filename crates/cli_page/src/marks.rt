//! A name as it is read aloud.

ghost use Rattle.std.specs.Prelude.{◌≡◌, ◌++◌, IfOk, OnOk, string_bytes};
ghost use Rattle.std.specs.Str.{chars, encode_utf8_all};
ghost use Rattle.mail_display.specs.Folding.{folded};
ghost use Rattle.cli_page.specs.Marks.{read_of, read_all};

use mail_display::fold;
use std::alloc::{AllocError, Global};

/// Adds a character, unless it is a quotation mark.
fn push_read(text: &mut String, c: char) -> Result<(), AllocError>
    ensures { OnOk result
        (string_bytes text.new ≡ string_bytes text.old ++ encode_utf8_all (read_of c)) }
{
    match c {
        '"' => Ok(()),
        _ => text.push(c),
    }
}

/// Adds the characters of a text but its quotation marks.
#[tactic(auto, using(crate::proofs::MarkLemmas::read_more))]
fn push_all_read(key: &mut String, text: &str) -> Result<(), AllocError>
    ensures { OnOk result
        (string_bytes key.new
        ≡ string_bytes key.old ++ encode_utf8_all (read_all (chars text.now))) }
{
    for c in text.chars() {
        push_read(key, c)?;
    }
    Ok(())
}

/// A text without its quotation marks.
fn without_marks(alloc: Global, text: &str) -> Result<String, AllocError>
    ensures { IfOk result (λ t. string_bytes t ≡ encode_utf8_all (read_all (chars text.now))) }
{
    let mut key = String::new(alloc);
    push_all_read(&mut key, text)?;
    Ok(key)
}

/// What a sender is sorted by: its text without quotation marks and without case. The only refusal is no memory (99).
pub(crate) fn sorting_key(alloc: Global, sender: &str) -> Result<String, AllocError>
    ensures { IfOk result (λ t. string_bytes t
        ≡ folded (encode_utf8_all (read_all (chars sender.now)))) }
{
    let read = without_marks(alloc, sender)?;
    fold(alloc, read.as_str())
}
