//! Records that are destroyed, and of which no event tells that.

ghost use Rattle.cli_history.specs.Walks.{Looks};

use crate::pages::Entries;
use choice_words::{TypedNumbers, add_number};
use cli_console::{Failure, put_typed, tell};
use record_noted::NotedStore;
use record_store::RecordEntry;
use sqlite::Alter;
use std::alloc::{AllocError, Global};
use std::collections::BTreeSet;
use tool_texts::{Shown, put};

/// Adds those records of a page that are destroyed, and are none of those of which an event tells that.
fn add_untold(
    untold: &mut Vec<TypedNumbers>,
    page: &[RecordEntry],
    told: &BTreeSet<u32>,
) -> Result<(), AllocError> {
    for entry in page {
        if entry.destroyed && !told.contains(&entry.number) {
            add_number(untold, entry.number)?;
        }
    }
    Ok(())
}

/// The records of a store that are destroyed, and are none of those of which an event tells that, as they can be typed.
fn untold_of<S: Alter>(
    rt: &HostRuntime,
    noted: &mut NotedStore<S>,
    told: &BTreeSet<u32>,
) -> Result<Vec<TypedNumbers>, Failure>
    ensures { Looks S.Store noted.old noted.new }
{
    let mut untold = Vec::new(rt.alloc());
    let mut entries = Entries::all();
    for _ in 0..u64::MAX {
        let Some(page) = entries.next_page(rt, noted)? else {
            break;
        };
        add_untold(&mut untold, page.as_slice(), told)?;
    }
    Ok(untold)
}

/// That some records, which may be those of a volume, are destroyed, and have no certificate.
fn untold_words(
    alloc: Global,
    volume: Option<u32>,
    untold: &[TypedNumbers],
) -> Result<Shown, AllocError> {
    let mut words = Shown::new(alloc);
    words.words(if let [TypedNumbers::One(_)] = untold {
        "record"
    } else {
        "records"
    })?;
    for typed in untold {
        words.words(" ")?;
        put_typed(&mut words, volume, *typed)?;
    }
    put!(words; ": destroyed, and no event tells by whom; there is no certificate here")?;
    Ok(words)
}

/// Tells which records of a store are destroyed, and are none of those of which an event tells that, where there is one. Those of a
/// volume stand after its number.
pub fn tell_untold<S: Alter>(
    rt: &HostRuntime,
    noted: &mut NotedStore<S>,
    volume: Option<u32>,
    told: &BTreeSet<u32>,
) -> Result<(), Failure>
    ensures { Looks S.Store noted.old noted.new }
{
    let untold = untold_of(rt, noted, told)?;
    if !untold.is_empty() {
        tell(rt, &untold_words(rt.alloc(), volume, untold.as_slice())?);
    }
    Ok(())
}
