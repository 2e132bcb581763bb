//! The scripts of a run, each with its commands and tests and their places.

use crate::nodes::{Node, nodes_of};
use sieve_meaning::{Location, ScriptName};
use sieve_syntax::Script;
use sieve_text::ScanFault;
use std::alloc::{AllocError, Global};
use std::str;
use tool_places::{Place, heads, places_of};
use unicode_width::UnicodeWidthStr;

/// A script, and what it is known by.
#[derive(Clone, Copy, Drop)]
pub struct Source<'a> {
    /// What the reader knows it by, as the path of its file.
    pub label: &'a [u8],
    /// What an include knows it by.
    pub name: ScriptName<'a>,
    pub text: &'a [u8],
    /// The tree of the text.
    pub script: &'a Script,
}

/// A script with its commands and tests, and the place of each.
pub struct Page<'a> {
    pub label: &'a [u8],
    pub name: ScriptName<'a>,
    pub nodes: Vec<Node<'a>>,
    /// The line of each node, and the column at which a terminal shows it.
    pub places: Vec<Place>,
}

impl Drop for Page<'_> {
    fn drop(self) {
        let Page {
            label: _,
            name: _,
            nodes: _,
            places: _,
        } = self;
    }
}

/// The scripts of a run; the main script is the first one.
#[derive(Drop)]
pub struct Book<'a> {
    pub pages: Vec<Page<'a>>,
}

/// A command or a test, by its page and its number there.
#[derive(Clone, Copy)]
pub struct Mark {
    pub page: usize,
    pub number: usize,
}

/// The offsets of the commands and tests of a text; none where it has no tokens, as the text of a script has.
fn offsets_of(alloc: Global, text: &[u8]) -> Result<Vec<usize>, AllocError> {
    match heads(alloc, text) {
        Ok(offsets) => Ok(offsets),
        Err(ScanFault::NoMemory) => Err(AllocError),
        Err(ScanFault::Refused(_, _)) => Ok(Vec::new(alloc)),
    }
}

/// The columns that octets take in a terminal; none where they are no text.
fn width_of(octets: &[u8]) -> usize {
    match str::from_utf8(octets) {
        Ok(text) => text.width(),
        Err(_) => 0,
    }
}

/// The places of rising offsets in a text, each with the column at which a terminal shows it.
fn shown_places(alloc: Global, text: &[u8], offsets: &[usize]) -> Result<Vec<Place>, AllocError> {
    let mut shown = Vec::with_capacity(alloc, offsets.len())?;
    let mut last = Place { line: 0, column: 1 };
    let mut from = 0;
    let places = places_of(alloc, text, offsets)?;
    for (place, offset) in places.iter().zip(offsets) {
        if place.line != last.line {
            last = Place {
                line: place.line,
                column: 1,
            };
            from = offset.saturating_sub(place.column.saturating_sub(1));
        }
        let between = text.get(from..*offset).unwrap_or(&[]);
        last.column = last.column.saturating_add(width_of(between));
        from = *offset;
        shown.push(last)?;
    }
    Ok(shown)
}

impl<'a> Page<'a> {
    /// The page of a script. The only error is out of memory.
    pub fn read(alloc: Global, source: Source<'a>) -> Result<Page<'a>, AllocError> {
        let offsets = offsets_of(alloc, source.text)?;
        Ok(Page {
            label: source.label,
            name: source.name,
            nodes: nodes_of(alloc, source.script)?,
            places: shown_places(alloc, source.text, offsets.as_slice())?,
        })
    }
}

impl<'a> Book<'a> {
    /// The book of these scripts, the main one first. The only error is out of memory.
    pub fn read(alloc: Global, sources: &[Source<'a>]) -> Result<Book<'a>, AllocError> {
        let mut pages = Vec::with_capacity(alloc, sources.len())?;
        for source in sources {
            pages.push(Page::read(alloc, *source)?)?;
        }
        Ok(Book { pages })
    }

    /// The page of a script that is included; the first page where there is none.
    pub fn page_named(&self, name: &ScriptName<'_>) -> usize {
        self.pages
            .iter()
            .position(|page| page.name.is_same(name))
            .unwrap_or(0)
    }

    /// What a mark is of; none where there is no such page or number.
    pub fn node(&self, mark: Mark) -> Option<Node<'a>> {
        self.pages.get(mark.page)?.nodes.get(mark.number).copied()
    }

    /// The place of a mark; none where there is no such page or number.
    pub fn place(&self, mark: Mark) -> Option<Place> {
        self.pages.get(mark.page)?.places.get(mark.number).copied()
    }

    /// The number of the first command or test after all that is inside a mark.
    pub fn end(&self, mark: Mark) -> usize {
        match self.node(mark) {
            Some(node) => node.end,
            None => mark.number,
        }
    }
}
