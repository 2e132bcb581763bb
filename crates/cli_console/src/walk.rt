//! A walk over the chosen records of an archive. Which these are, `record_choice` decides.

ghost use Rattle.std.specs.Prelude.{◌≡◌, Some, None, Ok, IfOk};
ghost use Rattle.cli_choice.specs.Reads.{IsReadOf};
ghost use Rattle.record_archive.specs.Archive.{Archive, message};
ghost use Rattle.record_choice.specs.Reads.{OnlyReads};
ghost use Rattle.record_choice.specs.Views.{choice_view};
ghost use Rattle.cli_console.specs.Turns.{IsTurn, page_view};

use crate::failure::Failure;
use record_choice::{Anything, Choice, Repository, WalkFault, choose_page};
use record_store::{RecordEntry, StoreFault};
use std::alloc::Global;

/// How many records a walk looks at in a step.
pub(crate) const PAGE: usize = 4_000;

/// A walk over the chosen records of an archive, by number.
#[derive(Drop)]
pub struct Walk<'a> {
    choice: &'a Choice,
    /// The number from which it goes on, if it does.
    from: Option<u32>,
}

/// The failure of a walk.
pub(crate) fn walk_failure(alloc: Global, fault: WalkFault<StoreFault>) -> Failure {
    match fault {
        WalkFault::Repository(fault) => Failure::of_store(alloc, "the store", fault),
        WalkFault::NoMemory => Failure::NoMemory,
    }
}

impl<'a> Walk<'a> {
    /// A walk over the records of a choice, from a number on.
    pub fn from(choice: &'a Choice, number: u32) -> Walk<'a>
        ensures choice { result.choice.now ≡ choice.now }
        ensures begins { result.from ≡ Some number }
    {
        Walk {
            choice,
            from: Some(number),
        }
    }

    /// The next chosen records, which may be none; `None` at the end. A failure is that of the store, and the walk may go on
    /// from where it stands.
    pub fn next_page<R: Repository<Fault = StoreFault>>(
        &mut self,
        rt: &HostRuntime,
        archive: &mut R,
    ) -> Result<Option<Vec<RecordEntry>>, Failure>
        ensures reads { OnlyReads R.clean R.stands archive.old archive.new }

        // The calls answer the pages of a walk: what is chosen, and no other record.
        ensures page { IfOk result (λ o. IsReadOf R.clean R.stands archive.old archive.new
            (λ a. IsTurn None (choice_view self.old.choice.now) a
            self.old.from (page_view o) self.new.from)) }
        ensures same { self.new.choice.now ≡ self.old.choice.now }
    {
        let Some(from) = self.from else {
            return Ok(None);
        };
        let page = choose_page(
            rt.alloc(),
            archive,
            self.choice,
            None::<&Anything>,
            from,
            PAGE,
        )
        .map_err(|fault| walk_failure(rt.alloc(), fault))?;
        self.from = page.next;
        Ok(Some(page.chosen))
    }
}

/// The message of a live record. A failure is that of the store.
pub fn message_of<R: Repository<Fault = StoreFault>>(
    rt: &HostRuntime,
    archive: &mut R,
    entry: &RecordEntry,
) -> Result<Vec<u8>, Failure>
    ensures reads { OnlyReads R.clean R.stands archive.old archive.new }
    ensures told { IfOk result (λ v. IsReadOf R.clean R.stands archive.old archive.new
        (λ a. message a entry.now.number ≡ Ok (Some v.items))) }
{
    archive
        .message(entry.number)
        .map_err(|fault| Failure::of_store(rt.alloc(), "the store", fault))
}
