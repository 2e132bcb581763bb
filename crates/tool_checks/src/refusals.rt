//! What is wrong with scripts and plans, as it is found.

use std::alloc::{AllocError, Global};
use tool_console::{Failure, text_of, write_line};
use tool_texts::{Place, Shown, put};

/// What kind of fault is told.
#[derive(Clone, Copy)]
pub enum Kind {
    /// A session refuses the file with this number.
    Refused(u8),
    /// A run ends with this fault.
    Fault(u8),
    /// More may be wrong.
    Note,
}

/// Something that is wrong with a script or a plan.
pub struct Refusal {
    pub path: String,
    /// None where it is about the file as a whole.
    pub place: Option<Place>,
    pub kind: Kind,
    /// What it is.
    pub words: Shown,
}

impl Drop for Refusal {
    fn drop(self) {
        let Refusal {
            path: _,
            place: _,
            kind: _,
            words: _,
        } = self;
    }
}

/// What is wrong with some files, in the order in which it is found.
#[derive(Drop)]
pub struct Refusals {
    alloc: Global,
    list: Vec<Refusal>,
}

/// Adds a refusal as a line: its path, line, column, number and words.
fn push_refusal(line: &mut Shown, refusal: &Refusal) -> Result<(), AllocError> {
    line.named(refusal.path.as_bytes())?;
    if let Some(place) = refusal.place {
        put!(line; ":" value(&place.line) ":" value(&place.column))?;
    }
    match refusal.kind {
        Kind::Refused(number) => put!(line; ": " value(&number) ": ")?,
        Kind::Fault(number) => put!(line; ": fault " value(&number) ": ")?,
        Kind::Note => line.words(": ")?,
    }
    line.text(&refusal.words)
}

impl Refusals {
    /// Nothing is found yet.
    pub fn new(alloc: Global) -> Refusals {
        Refusals {
            alloc,
            list: Vec::new(alloc),
        }
    }

    /// The allocator of what is found.
    pub fn allocator(&self) -> Global {
        self.alloc
    }

    /// Adds what is found in a file.
    pub(crate) fn add(
        &mut self,
        path: &str,
        place: Option<Place>,
        kind: Kind,
        words: Shown,
    ) -> Result<(), AllocError> {
        let path = String::from_str(self.alloc, path)?;
        self.list.push(Refusal {
            path,
            place,
            kind,
            words,
        })?;
        Ok(())
    }

    /// Adds the refusal of a file as a whole, with the text of its number.
    pub fn add_number(&mut self, path: &str, number: u8) -> Result<(), AllocError> {
        let mut words = Shown::new(self.alloc);
        words.words(text_of(number))?;
        self.add(path, None, Kind::Refused(number), words)
    }

    /// Adds that more may be wrong with a file.
    pub(crate) fn add_note(&mut self, path: &str, note: &'static str) -> Result<(), AllocError> {
        let mut words = Shown::new(self.alloc);
        words.words(note)?;
        self.add(path, None, Kind::Note, words)
    }

    /// Adds what was found elsewhere.
    pub fn append(&mut self, others: Refusals) -> Result<(), AllocError> {
        for refusal in others.list {
            self.list.push(refusal)?;
        }
        Ok(())
    }

    /// What is found, in that order.
    pub fn as_slice(&self) -> &[Refusal] {
        self.list.as_slice()
    }

    /// Whether something is found by which a run ends with a fault.
    pub(crate) fn has_fault(&self) -> bool {
        self.list
            .iter()
            .any(|refusal| matches!(refusal.kind, Kind::Fault(_)))
    }

    /// Writes all that is found to standard output, a line each, and forgets it.
    pub fn write_lines(&mut self, rt: &HostRuntime) -> Result<(), Failure> {
        let mut line = Shown::new(self.alloc);
        for refusal in self.list.iter() {
            push_refusal(&mut line, refusal)?;
            write_line(rt, &mut line)?;
        }
        self.list.clear();
        Ok(())
    }
}
