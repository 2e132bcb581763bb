//! A damaged history, as far as it is whole.

use crate::author::Author;
use crate::flaws::words_at;
use crate::pages::{PAGE, at_event};
use crate::restating::lines_found;
use cli_console::Failure;
use record_judge::Judge;
use record_noted::NotedStore;
use record_store::{EventLayout, EventRow, Store, StoreFault};
use sqlite::Alter;
use std::alloc::{AllocError, Global};
use tool_texts::Shown;

/// What of a history is whole: the lines before the first event that something stands against.
pub struct Whole {
    judge: Judge,
    lines: Vec<Vec<u8>>,
    /// What stands against the first event that is not whole, in words with its number; none where all are whole.
    fault: Option<Shown>,
}

impl Drop for Whole {
    fn drop(self) {
        let Whole {
            judge: _,
            lines: _,
            fault: _,
        } = self;
    }
}

/// Copies of lines.
fn copies_of(alloc: Global, lines: &[Vec<u8>]) -> Result<Vec<Vec<u8>>, AllocError> {
    let mut copies = Vec::with_capacity(alloc, lines.len())?;
    for line in lines {
        copies.push(line.clone()?)?;
    }
    Ok(copies)
}

impl Whole {
    /// How many events are whole.
    fn count(&self) -> u32 {
        u32::try_from(self.lines.len()).unwrap_or(u32::MAX)
    }

    /// The number of the event behind those that are whole.
    fn next(&self) -> u32 {
        self.count().saturating_add(1)
    }

    /// Notes that an event is not whole, and why.
    fn end(&mut self, alloc: Global, number: u32, words: &'static str) -> Result<(), AllocError> {
        self.fault = Some(at_event(alloc, number, words)?);
        Ok(())
    }

    /// Takes an event, where something stands against none so far.
    fn take(&mut self, alloc: Global, row: EventRow) -> Result<(), AllocError> {
        if self.fault.is_some() {
            return Ok(());
        }
        let taken = self
            .judge
            .take(row.number, row.line.as_slice(), row.mark.as_slice());
        match taken {
            Ok(()) => {
                let EventRow { line, .. } = row;
                Ok(self.lines.push(line)?)
            }
            Err(flaw) => {
                self.fault = Some(words_at(alloc, row.number, flaw, u64::from(self.count()))?);
                Ok(())
            }
        }
    }

    /// Takes the events of a page.
    fn take_page(&mut self, alloc: Global, page: Vec<EventRow>) -> Result<(), AllocError> {
        for row in page {
            self.take(alloc, row)?;
        }
        Ok(())
    }

    /// Takes the next events, at most so many. Answers whether there may be more.
    fn take_next<S: Alter>(
        &mut self,
        alloc: Global,
        archive: &mut Store<S>,
        most: u32,
    ) -> Result<bool, AllocError> {
        let first = self.next();
        let page = match archive.events_from(first, most) {
            Ok(page) => page,
            Err(StoreFault::NoMemory) => return Err(AllocError),
            Err(_) if most > 1 => return Ok(true),
            Err(_) => {
                self.end(alloc, first, "its row cannot be read")?;
                return Ok(false);
            }
        };
        if page.is_empty() {
            return Ok(false);
        }
        self.take_page(alloc, page)?;
        Ok(self.fault.is_none())
    }

    /// Takes events as long as they are whole: a page at a time, or one at a time.
    fn take_all<S: Alter>(
        &mut self,
        alloc: Global,
        archive: &mut Store<S>,
        most: u32,
    ) -> Result<(), AllocError> {
        for _ in 0..u64::MAX {
            let before = self.lines.len();
            if !self.take_next(alloc, archive, most)? || self.lines.len() == before {
                break;
            }
        }
        Ok(())
    }

    /// What of the history of a store is whole; none where the store keeps no history.
    pub fn of<S: Alter>(
        rt: &HostRuntime,
        archive: &mut Store<S>,
    ) -> Result<Option<Whole>, Failure> {
        let alloc = rt.alloc();
        let mut whole = Whole {
            judge: Judge::new(alloc)?,
            lines: Vec::new(alloc),
            fault: None,
        };
        match archive.event_layout() {
            EventLayout::Absent => return Ok(None),
            EventLayout::Other => whole.end(alloc, 1, "the table event is no history")?,
            EventLayout::Present => {
                whole.take_all(alloc, archive, PAGE)?;
                if whole.fault.is_none() {
                    whole.take_all(alloc, archive, 1)?;
                }
            }
        }
        Ok(Some(whole))
    }

    /// What stands against the first event that is not whole; none where all are whole.
    pub fn fault(&self) -> Option<&Shown> {
        self.fault.as_ref()
    }

    /// The lines with which a store with the same records begins its history: those that are whole, and behind them, where
    /// others are not, all that is there, as it is found. The reasons say who notes that, and which event is not whole.
    fn lines_for<S: Alter>(
        &self,
        rt: &HostRuntime,
        archive: &mut Store<S>,
        author: &Author<'_>,
    ) -> Result<Vec<Vec<u8>>, Failure> {
        let alloc = rt.alloc();
        let mut lines = copies_of(alloc, self.lines.as_slice())?;
        let Some(fault) = &self.fault else {
            return Ok(lines);
        };
        let who = author.named(rt)?;
        let fault = fault.as_str();
        let reason = format!(in alloc; "noted by {who}; the history was damaged: {fault}")?;
        let made = self.judge.archive();
        let found = lines_found(rt, archive, self.next(), made, reason.as_str())?;
        for line in found {
            lines.push(line)?;
        }
        Ok(lines)
    }

    /// Begins the history of a store that has none and that has the records. The store is handed back.
    pub fn begin<S: Alter>(
        &self,
        rt: &HostRuntime,
        archive: Store<S>,
        author: &Author<'_>,
    ) -> (Store<S>, Result<(), Failure>) {
        let mut archive = archive;
        let lines = match self.lines_for(rt, &mut archive, author) {
            Ok(lines) => lines,
            Err(failure) => return (archive, Err(failure)),
        };
        match NotedStore::begin_with(rt.alloc(), archive, lines.as_slice()) {
            Ok(noted) => (noted.into_store(), Ok(())),
            Err((fault, archive)) => (
                archive,
                Err(Failure::of_store(rt.alloc(), "the history", fault)),
            ),
        }
    }
}
