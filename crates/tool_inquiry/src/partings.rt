//! Where two runs part.

ghost use Rattle.std.specs.Prelude.{◌≡◌, true, false, IfNone, IfSome, option_copied, slice_get};
ghost use Rattle.tool_inquiry.specs.Partings.{words_of, line_of, IsParting};

use std::alloc::{AllocError, Global};
use tool_report::{Book, Event, Narration, events_of};

/// What a run came to, in its order.
#[derive(Drop)]
pub struct Events {
    list: Vec<Event>,
}

impl Events {
    /// The events of a run. The only error is out of memory.
    pub(crate) fn read(
        alloc: Global,
        book: &Book<'_>,
        narration: &Narration,
    ) -> Result<Events, AllocError> {
        Ok(Events {
            list: events_of(alloc, book, narration)?,
        })
    }

    /// The words of an event by its number; none where there is none.
    fn words(&self, number: usize) -> Option<&str>
        ensures { option_copied result ≡ slice_get (words_of self.now) number }
    {
        if number >= self.list.len() {
            return None;
        }
        Some(self.list[number].words.as_str())
    }

    /// The line of an event by its number; where there is none, that the run has ended.
    fn line(&self, number: usize) -> &str
        ensures { result.now ≡ line_of self.now number }
    {
        if number >= self.list.len() {
            return "the run ends";
        }
        self.list[number].line.as_str()
    }
}

/// The first event in which two runs differ, as each of them has it.
#[derive(Clone, Copy)]
pub struct Parting<'e> {
    pub one: &'e str,
    pub other: &'e str,
}

/// Whether two words are the same, or there are none.
fn are_same(one: Option<&str>, other: Option<&str>) -> bool
    ensures same { result ≡ true → option_copied one.entry ≡ option_copied other.entry }
    ensures differ { result ≡ false → option_copied one.entry ≡ option_copied other.entry → ⊥ }
{
    match (one, other) {
        (Some(one), Some(other)) => one == other,
        (None, None) => true,
        _ => false,
    }
}

/// The first event in which two runs differ: a test with its answer, or what a command did. Places don't count. None
/// exactly where the runs came to the same.
pub fn first_parting<'e>(one: &'e Events, other: &'e Events) -> Option<Parting<'e>>
    ensures same { IfNone result (words_of one.now ≡ words_of other.now) }
    ensures first { IfSome result (IsParting one.now other.now) }
{
    let count = one.list.len().max(other.list.len());
    for number in 0..count {
        if !are_same(one.words(number), other.words(number)) {
            return Some(Parting {
                one: one.line(number),
                other: other.line(number),
            });
        }
    }
    None
}
