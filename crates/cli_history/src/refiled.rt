//! The event by which a record got its class, where it got another one than that of its capture.

use crate::cases::page_from;
use crate::pages::PAGE;
use crate::printing::at_word;
use crate::seals::deed_of;
use cli_console::Failure;
use cli_texts::history_line;
use record_history::Deed;
use record_store::{EventLayout, EventRow, Store};
use sqlite::Alter;
use std::alloc::{AllocError, Global};
use tool_texts::Shown;

/// Which word of the line of a refiling is the number of the record, counted from 0.
const RECORD: usize = 4;

/// Whether an event gives the record of a number another class. One whose line cannot be read does not.
fn refiles(alloc: Global, row: &EventRow, record: u32) -> Result<bool, AllocError> {
    match deed_of(alloc, row)? {
        Some(Deed::Refiled { number, .. }) => Ok(number == record),
        _ => Ok(false),
    }
}

/// The line of the last event of a page that gives a record another class, or the one from before.
fn last_line(
    alloc: Global,
    page: &[EventRow],
    record: u32,
    before: Option<Vec<u8>>,
) -> Result<Option<Vec<u8>>, AllocError> {
    let mut last = before;
    for row in page {
        if refiles(alloc, row, record)? {
            last = Some(row.line.clone()?);
        }
    }
    Ok(last)
}

/// The line of a refiling as `history` prints it; none where there is none.
fn shown_refiling(
    alloc: Global,
    volume: Option<u32>,
    line: Option<Vec<u8>>,
) -> Result<Option<Shown>, AllocError> {
    match line {
        Some(line) => history_line(alloc, volume, at_word(RECORD), line.as_slice()).map(Some),
        None => Ok(None),
    }
}

/// The line of the last event that gives a record another class, as `history` prints it: in an archive of volumes, with the number of
/// the volume. None where no event does, or where the store keeps no history. A failure is that of the store.
pub fn last_refiling<S: Alter>(
    rt: &HostRuntime,
    archive: &mut Store<S>,
    volume: Option<u32>,
    record: u32,
) -> Result<Option<Shown>, Failure> {
    let mut line = None;
    let mut from = match archive.event_layout() {
        EventLayout::Present => Some(1),
        EventLayout::Absent | EventLayout::Other => None,
    };
    for _ in 0..u64::MAX {
        let Some(first) = from else {
            break;
        };
        let page = page_from(rt, archive, first, PAGE)?;
        let Some(last) = page.last() else {
            break;
        };
        from = last.number.checked_add(1);
        line = last_line(rt.alloc(), page.as_slice(), record, line)?;
    }
    Ok(shown_refiling(rt.alloc(), volume, line)?)
}
