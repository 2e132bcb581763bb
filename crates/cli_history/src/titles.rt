//! Titles of classes: what people call them, and the legal basis of their schedules, as the events of a history tell them.

ghost use Rattle.std.specs.Prelude.{◌≡◌, None, Some, OnOk, option_map, if◌then◌else◌};
ghost use Rattle.std.specs.Str.{bytes_eq};
ghost use Rattle.record_history.specs.Titles.{last_title, title_given};
ghost use Rattle.record_history.specs.Views.{deed_view};
ghost use Rattle.cli_history.specs.Titles.{Path, title_of, title_view, title_seen, titled, in_force, has_text as has_text_in};

use crate::author::Author;
use crate::beginning::line_now;
use crate::cases::page_from;
use crate::opening::{Purpose, occasion_of, open_noted};
use crate::pages::PAGE;
use crate::restating::{Ready, prepared};
use crate::seals::deed_of;
use cli_console::{Failure, write_data};
use cli_texts::{ClassTitle, ListedTitle, title_line, title_object};
use record_history::Deed;
use record_noted::NotedStore;
use record_store::{EventLayout, EventRow, Store};
use sqlite::Alter;
use std::alloc::{AllocError, Global};
use std::collections::BTreeMap;

/// A title and a legal basis, as an event gives them to a class. Both are empty where it takes them away.
#[derive(Drop)]
pub struct Kept {
    title: Vec<u8>,
    basis: Vec<u8>,
}

impl Kept {
    /// Whether there is a title or a legal basis.
    fn has_text(&self) -> bool
        ensures { result ≡ has_text_in (title_view self.now) }
    {
        !self.title.is_empty() || !self.basis.is_empty()
    }
}

/// The titles of classes, as the events of a history tell them. Of several events about one class the last one counts.
pub struct Titles {
    alloc: Global,
    /// By the paths of classes.
    titles: BTreeMap<Vec<u8>, Kept>,
}

impl Drop for Titles {
    fn drop(self) {
        let Titles {
            alloc: _,
            titles: _,
        } = self;
    }
}

impl Titles {
    /// Those of no event.
    pub fn none(alloc: Global) -> Titles
        ensures { (p : Path) → title_of result p ≡ None }
    {
        Titles {
            alloc,
            titles: BTreeMap::new(alloc),
        }
    }

    /// Keeps what an event gives the class of a path.
    fn keep(&mut self, path: Vec<u8>, kept: Kept) -> Result<(), AllocError>
        ensures { OnOk result ((p : Path) → title_of self.new p ≡
            (if bytes_eq path.items p.items then Some (title_view kept) else title_of self.old p)) }
    {
        self.titles.insert(path, kept)?;
        Ok(())
    }

    /// Takes the deed of the next event. The only refusal is no memory.
    #[tactic(auto, using(crate::proofs::TitleLemmas::kept_or_given))]
    pub fn take(&mut self, deed: &Deed<'_>) -> Result<(), AllocError>
        ensures { OnOk result ((p : Path) → title_of self.new p ≡
            last_title (title_of self.old p) (title_given p.items (deed_view deed.now))) }
    {
        match deed {
            Deed::Titled { path, title, basis } => {
                let path = Vec::from_slice(self.alloc, *path)?;
                let kept = Kept {
                    title: Vec::from_slice(self.alloc, *title)?,
                    basis: Vec::from_slice(self.alloc, *basis)?,
                };
                self.keep(path, kept)
            }
            _ => Ok(()),
        }
    }

    /// Takes the events of a page. An event whose line cannot be read tells nothing.
    fn take_page(&mut self, page: &[EventRow]) -> Result<(), AllocError> {
        for row in page {
            if let Some(deed) = deed_of(self.alloc, row)? {
                self.take(&deed)?;
            }
        }
        Ok(())
    }

    /// Takes all events of a store, a page at a time. A failure is that of the store.
    fn take_all<S: Alter>(
        &mut self,
        rt: &HostRuntime,
        archive: &mut Store<S>,
    ) -> Result<(), Failure> {
        let mut from = Some(1);
        for _ in 0..u64::MAX {
            let Some(first) = from else {
                break;
            };
            let page = page_from(rt, archive, first, PAGE)?;
            let Some(last) = page.last() else {
                break;
            };
            from = last.number.checked_add(1);
            self.take_page(page.as_slice())?;
        }
        Ok(())
    }

    /// Those that the history of a store tells; none where it keeps none. A failure is that of the store.
    pub fn of<S: Alter>(rt: &HostRuntime, archive: &mut Store<S>) -> Result<Titles, Failure> {
        let mut titles = Titles::none(rt.alloc());
        if let EventLayout::Present = archive.event_layout() {
            titles.take_all(rt, archive)?;
        }
        Ok(titles)
    }

    /// The title and the legal basis of the class of a path; none where it has neither.
    pub fn of_class(&self, path: &[u8]) -> Option<ClassTitle<'_>>
        ensures { option_map title_seen result ≡ in_force (titled self.now path.now) }
    {
        match self.titles.get(path) {
            Some(kept) if kept.has_text() => Some(ClassTitle {
                title: kept.title.as_slice(),
                basis: kept.basis.as_slice(),
            }),
            _ => None,
        }
    }

    /// The classes that have a title or a legal basis, in byte order of their paths.
    pub fn listed(&self) -> Result<Vec<ListedTitle<'_>>, AllocError> {
        let mut list = Vec::new(self.alloc);
        for (path, kept) in &self.titles {
            if kept.has_text() {
                list.push(ListedTitle {
                    path: path.as_slice(),
                    title: kept.title.as_slice(),
                    basis: kept.basis.as_slice(),
                })?;
            }
        }
        Ok(list)
    }

    /// Whether a class is to get another title or another basis than it has.
    fn is_changed_by(&self, wanted: &ListedTitle<'_>) -> bool {
        match self.titles.get(wanted.path) {
            Some(kept) => kept.title.as_slice() != wanted.title
                || kept.basis.as_slice() != wanted.basis,
            None => !wanted.title.is_empty() || !wanted.basis.is_empty(),
        }
    }

    /// Those of some titles that change something.
    fn changed<'t>(&self, wanted: &[ListedTitle<'t>]) -> Result<Vec<ListedTitle<'t>>, AllocError> {
        let mut changed = Vec::new(self.alloc);
        for title in wanted {
            if self.is_changed_by(title) {
                changed.push(*title)?;
            }
        }
        Ok(changed)
    }
}

/// The lines of the events that give classes titles, from the event of a number on.
fn lines_of<'a>(
    rt: &'a HostRuntime,
    author: &'a Author<'_>,
    first: u32,
    titles: &[ListedTitle<'_>],
) -> Result<Vec<Vec<u8>>, Failure> {
    let occasion = occasion_of(rt, author, None)?;
    let mut lines = Vec::with_capacity(rt.alloc(), titles.len())?;
    let mut number = first;
    for it in titles {
        let deed = Deed::Titled {
            path: it.path,
            title: it.title,
            basis: it.basis,
        };
        lines.push(line_now(rt, &occasion, number, deed)?)?;
        number = number.saturating_add(1);
    }
    Ok(lines)
}

/// Notes titles behind the events of a history, in one transaction.
fn note_changed<S: Alter>(
    rt: &HostRuntime,
    archive: Store<S>,
    author: &Author<'_>,
    titles: &[ListedTitle<'_>],
) -> (Store<S>, Result<(), Failure>) {
    let mut noted = match open_noted(rt, archive) {
        Ok(noted) => noted,
        Err((archive, failure)) => return (archive, Err(failure)),
    };
    let done = match lines_of(rt, author, noted.next(), titles) {
        Ok(lines) => noted.note_all(lines.as_slice()).map_err(|fault| Failure::of_store(
            rt.alloc(),
            "the history",
            fault,
        )),
        Err(failure) => Err(failure),
    };
    (noted.into_store(), done)
}

/// The titles of some that are not in force in a store.
fn changed_in<'t, S: Alter>(
    rt: &HostRuntime,
    archive: &mut Store<S>,
    wanted: &[ListedTitle<'t>],
) -> Result<Vec<ListedTitle<'t>>, Failure> {
    Ok(Titles::of(rt, archive)?.changed(wanted)?)
}

/// Notes in a history the titles that classes are to get, an event for each that has another one, all in one transaction.
/// Answers those. A failure is one of `open_ledger`; the store is handed back.
pub fn note_titles<'t, S: Alter>(
    rt: &HostRuntime,
    noted: NotedStore<S>,
    author: &Author<'_>,
    wanted: &[ListedTitle<'t>],
) -> (Store<S>, Result<Vec<ListedTitle<'t>>, Failure>) {
    let Ready { noted, .. } = match prepared(rt, noted, author, Purpose::Capturing) {
        Ok(ready) => ready,
        Err((archive, failure)) => return (archive, Err(failure)),
    };
    let mut archive = noted.into_store();
    let changed = match changed_in(rt, &mut archive, wanted) {
        Ok(changed) => changed,
        Err(failure) => return (archive, Err(failure)),
    };
    if changed.is_empty() {
        return (archive, Ok(changed));
    }
    let (archive, done) = note_changed(rt, archive, author, changed.as_slice());
    match done {
        Ok(()) => (archive, Ok(changed)),
        Err(failure) => (archive, Err(failure)),
    }
}

/// The text of a class with its title: its line, or a JSON object that comes after others.
fn text_of(
    alloc: Global,
    it: &ListedTitle<'_>,
    is_json: bool,
    is_first: bool,
) -> Result<String, AllocError> {
    if !is_json {
        return Ok(title_line(alloc, it)?.into_string());
    }
    let object = title_object(alloc, it)?;
    let sign = if is_first { "\n" } else { ",\n" };
    format!(in alloc; "{sign}{object}")
}

/// Writes for each class that has a title or a legal basis both of them, a line each in byte order of the paths, or as an array of
/// JSON objects. A store without a history has none. A failure is that of the store.
pub fn write_titles<S: Alter>(
    rt: &HostRuntime,
    archive: &mut Store<S>,
    is_json: bool,
) -> Result<(), Failure> {
    let titles = Titles::of(rt, archive)?;
    let mut is_first = true;
    let (before, after) = if is_json { ("[", "\n]\n") } else { ("", "") };
    write_data(rt, before.as_bytes())?;
    for it in &titles.listed()? {
        let text = text_of(rt.alloc(), it, is_json, is_first)?;
        write_data(rt, text.as_bytes())?;
        is_first = false;
    }
    write_data(rt, after.as_bytes())
}
