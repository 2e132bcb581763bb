//! The notes of events.

ghost use Rattle.std.specs.Prelude.{◌≡◌, codes, option_map, IfOk};
ghost use Rattle.std.specs.Str.{bytes_eq};
ghost use Rattle.cli_history.specs.Seals.{notes_for};
ghost use Rattle.cli_history.specs.Volumes.{IsBeginning, front_of, mark_named, notes_naming};

use crate::cases::page_from;
use crate::pages::event_of;
use crate::seals::Fidelity;
use cli_console::Failure;
use record_store::{EventLayout, Store};
use sqlite::Alter;
use std::alloc::{AllocError, Global};

/// The notes of a destruction whose message was not the one that was captured.
const ALTERED: &[u8] = b"message=altered";

/// The notes of the destruction of a record, by what its message is.
pub fn notes_of(fidelity: Fidelity) -> &'static [u8]
    ensures { result.now ≡ notes_for fidelity }
{
    match fidelity {
        Fidelity::Altered(_) => b"message=altered",
        Fidelity::Unsealed | Fidelity::Same => b"",
    }
}

/// Whether an event's notes say that its message was not the one that was captured.
pub fn is_altered(notes: &[u8]) -> bool
    ensures { result ≡ bytes_eq notes.now (codes "message=altered") }
{
    notes == ALTERED
}

/// How the notes begin of the first event of a volume that has one before it.
const AFTER: &[u8] = b"after=";

/// How many digits of a mark notes have, which have 64 octets at most: 224 bits, as many as a SHA-224.
const DIGITS: usize = 56;

/// The digits of a mark that notes have.
fn digits_noted(mark: &[u8]) -> &[u8]
    ensures { result.now ≡ front_of mark.now }
{
    &mark[..mark.len().min(DIGITS)]
}

/// The notes of the first event of a volume: how the mark begins of the volume before, as it was when this one began. The only
/// refusal is no memory.
pub fn notes_after(alloc: Global, mark: &[u8]) -> Result<Vec<u8>, AllocError>
    ensures { IfOk result (λ v. v.items ≡ notes_naming mark.now) }
{
    let mut notes = Vec::from_slice(alloc, AFTER)?;
    notes.extend_from_slice(digits_noted(mark))?;
    Ok(notes)
}

/// How the mark begins that notes name; none where they name none.
fn mark_in(notes: &[u8]) -> Option<&[u8]>
    ensures { option_map (λ m. m.now) result ≡ mark_named notes.now }
{
    notes.strip_prefix(AFTER)
}

/// How the history of a volume begins.
#[derive(Drop)]
pub enum Beginning {
    /// There is no history.
    Nowhere,
    /// After the mark of the volume before that begins so.
    After(Vec<u8>),
    /// After no mark.
    Alone,
}

/// How a history begins whose first event has notes that name a mark, or none. The only refusal is no memory.
fn beginning_after(alloc: Global, mark: Option<&[u8]>) -> Result<Beginning, AllocError>
    ensures { IfOk result (IsBeginning (option_map (λ m. m.now) mark.entry)) }
{
    match mark {
        Some(mark) => Ok(Beginning::After(Vec::from_slice(alloc, mark)?)),
        None => Ok(Beginning::Alone),
    }
}

/// How the history of a store begins. `BadData` where its first line is none of an event; another failure is that of the store.
pub fn beginning_in<S: Alter>(
    rt: &HostRuntime,
    archive: &mut Store<S>,
) -> Result<Beginning, Failure> {
    if !matches!(archive.event_layout(), EventLayout::Present) {
        return Ok(Beginning::Nowhere);
    }
    let page = page_from(rt, archive, 1, 1)?;
    let Some(row) = page.first() else {
        return Ok(Beginning::Nowhere);
    };
    let event = event_of(rt.alloc(), row)?;
    Ok(beginning_after(rt.alloc(), mark_in(event.notes))?)
}
