//! The holds of an archive, by name, and the records that each keeps.

ghost use Rattle.std.specs.Prelude.{◌≡◌, ◌++◌, ◌∷◌, [], ◌+◌, flat_map, IfSome, OnOk};
ghost use Rattle.cli_page.specs.KeptNumbers.{numbers_in, numbers_of, stretch_text, more_stretch, stretches_text, hold_head, numbers_cell, hold_row, KeepsOneMore, AreInOrder, count_shown, entry_row, holds_head, is_same_volume, no_holds, holds_table_head, holds_table_end, holds_section};

use crate::fault::ReportFault;
use crate::page::{Page, put};
use std::alloc::{AllocError, Global};
use std::collections::BTreeMap;

/// Records with consecutive numbers: a first one, and so many more.
#[derive(Clone, Copy)]
struct Stretch {
    /// The number of their volume, in an archive of volumes.
    volume: Option<u32>,
    first: u32,
    more: u32,
}

/// The holds of an archive, in byte order of their names, each with the records that it keeps.
pub struct Holds {
    alloc: Global,
    holds: BTreeMap<Vec<u8>, Vec<Stretch>>,
}

impl Drop for Holds {
    fn drop(self) {
        let Holds { alloc: _, holds: _ } = self;
    }
}

impl Stretch {
    /// One record.
    fn of(volume: Option<u32>, number: u32) -> Stretch
        ensures { numbers_in result ≡ (volume, number) ∷ [] }
    {
        Stretch {
            volume,
            first: number,
            more: 0,
        }
    }

    /// The number of its last record.
    fn last(self) -> u64
        ensures { result ≡ self.first + self.more }
    {
        u64::from(self.first) + u64::from(self.more)
    }

    /// Whether the records are those of a volume, or of a store that is one file.
    fn is_of(self, volume: Option<u32>) -> bool
        ensures { result ≡ is_same_volume self.volume volume }
    {
        match (self.volume, volume) {
            (Some(own), Some(other)) => own == other,
            (None, None) => true,
            _ => false,
        }
    }

    /// With the record of the same volume right after its last one. None where a number is another one's.
    #[tactic(auto, using(crate::proofs::KeptLemmas::count_up_next))]
    fn next(self, number: u32) -> Option<Stretch>
        ensures { IfSome result
            (λ s. numbers_in s ≡ numbers_in self ++ (self.volume, number) ∷ []) }
    {
        if u64::from(number) != self.last() + 1 {
            return None;
        }
        let more = self.more.checked_add(1)?;
        Some(Stretch {
            volume: self.volume,
            first: self.first,
            more,
        })
    }

    /// With the record right after its last one. None where a number is that of another record, or of another volume.
    fn with(self, volume: Option<u32>, number: u32) -> Option<Stretch>
        ensures { IfSome result (λ s. numbers_in s ≡ numbers_in self ++ (volume, number) ∷ []) }
    {
        if !self.is_of(volume) {
            return None;
        }
        self.next(number)
    }
}

/// Adds a record to those of a hold, after those of earlier volumes and those with smaller numbers.
fn push_number(
    stretches: &mut Vec<Stretch>,
    volume: Option<u32>,
    number: u32,
) -> Result<(), ReportFault>
    ensures { OnOk result
        (numbers_of stretches.new.items ≡ numbers_of stretches.old.items ++ (volume, number) ∷ []) }
{
    let Some(last) = stretches.pop() else {
        stretches.push(Stretch::of(volume, number))?;
        return Ok(());
    };
    match last.with(volume, number) {
        Some(longer) => stretches.push(longer)?,
        None => {
            stretches.push(last)?;
            stretches.push(Stretch::of(volume, number))?;
        }
    }
    Ok(())
}

/// How many records there are in some stretches, up to 2^64 - 1.
fn count_of(stretches: &[Stretch]) -> u64
    ensures { result ≡ count_shown stretches.now }
{
    let mut count = 0u64;
    for stretch in stretches {
        count = count.saturating_add(u64::from(stretch.more) + 1);
    }
    count
}

/// Adds the numbers of a stretch, as `7` or `1-3`, and as `3/7` or `3/1-3` in volume 3.
fn push_stretch(page: &mut Page, stretch: Stretch) -> Result<(), AllocError>
    ensures { OnOk result (page.new ≡ page.old ++ stretch_text stretch) }
{
    page.record_number(stretch.volume, stretch.first)?;
    if stretch.more == 0 {
        return Ok(());
    }
    put!(page; "\u{2013}" number(stretch.last()))
}

/// Adds the numbers of stretches, each after a comma.
fn push_more_stretches(page: &mut Page, stretches: &[Stretch]) -> Result<(), AllocError>
    ensures { OnOk result (page.new ≡ page.old ++ flat_map more_stretch stretches.now) }
{
    for stretch in stretches {
        page.markup(", ")?;
        push_stretch(page, *stretch)?;
    }
    Ok(())
}

/// Adds the numbers of records, as `1-3, 7`.
fn push_stretches(page: &mut Page, stretches: &[Stretch]) -> Result<(), AllocError>
    ensures { OnOk result (page.new ≡ page.old ++ stretches_text stretches.now) }
{
    match stretches {
        [] => Ok(()),
        [first, others @ ..] => {
            push_stretch(page, *first)?;
            push_more_stretches(page, others)
        }
    }
}

/// Adds the name of a hold at the beginning of its row.
#[tactic(auto, unfolding(crate::specs::KeptNumbers::hold_head))]
fn open_hold(page: &mut Page, name: &[u8]) -> Result<(), AllocError>
    ensures { OnOk result (page.new ≡ page.old ++ hold_head name.now) }
{
    put!(page; "<tr><th scope=\"row\">" name(name) "</th>")
}

/// Adds the numbers of records in a cell, and the end of the row.
#[tactic(auto, unfolding(crate::specs::KeptNumbers::numbers_cell))]
fn push_numbers(page: &mut Page, stretches: &[Stretch]) -> Result<(), AllocError>
    ensures { OnOk result (page.new ≡ page.old ++ numbers_cell stretches.now) }
{
    page.markup("<td>")?;
    push_stretches(page, stretches)?;
    put!(page; "</td></tr>\n")
}

/// Adds the row of a hold: its name, how many records it keeps, and which.
fn push_hold(
    page: &mut Page,
    name: &[u8],
    count: u64,
    stretches: &[Stretch],
) -> Result<(), AllocError>
    ensures { OnOk result (page.new ≡ page.old ++ hold_row name.now count stretches.now) }
{
    open_hold(page, name)?;
    page.number_cell(count)?;
    push_numbers(page, stretches)
}

/// Adds the heading of the section of holds.
#[tactic(auto, unfolding(crate::specs::KeptNumbers::holds_head))]
fn open_section(page: &mut Page) -> Result<(), AllocError>
    ensures { OnOk result (page.new ≡ page.old ++ holds_head) }
{
    page.markup("<section aria-labelledby=\"holds\">\n<h2 id=\"holds\">Holds</h2>\n")
}

/// Adds that there are no holds.
#[tactic(auto, unfolding(crate::specs::KeptNumbers::no_holds))]
fn push_none(page: &mut Page) -> Result<(), AllocError>
    ensures { OnOk result (page.new ≡ page.old ++ no_holds) }
{
    page.markup("<p>No hold keeps a record.</p>\n</section>\n")
}

/// Adds what comes before the rows of holds.
#[tactic(auto, unfolding(crate::specs::KeptNumbers::holds_table_head))]
fn open_table(page: &mut Page) -> Result<(), AllocError>
    ensures { OnOk result (page.new ≡ page.old ++ holds_table_head) }
{
    page.markup(
        "<p>A record is not destroyed while any hold keeps it.</p>\n\
        <table>\n<caption>Holds and the records that they keep</caption>\n<thead><tr>\
        <th scope=\"col\">Hold</th><th scope=\"col\" class=\"n\">Records</th>\
        <th scope=\"col\">Numbers of the records</th></tr></thead>\n<tbody>\n",
    )
}

/// Adds what comes after the rows of holds.
#[tactic(auto, unfolding(crate::specs::KeptNumbers::holds_table_end))]
fn close_table(page: &mut Page) -> Result<(), AllocError>
    ensures { OnOk result (page.new ≡ page.old ++ holds_table_end) }
{
    page.markup("</tbody>\n</table>\n</section>\n")
}

impl Holds {
    /// No holds.
    pub fn new(alloc: Global) -> Holds
        ensures { result.holds.entries ≡ [] }
    {
        let holds = BTreeMap::new(alloc);
        Holds { alloc, holds }
    }

    /// Adds a record that a hold keeps, of a volume in an archive of volumes.
    pub fn add(&mut self, name: &[u8], volume: Option<u32>, number: u32) -> Result<(), ReportFault>
        ensures { OnOk result (KeepsOneMore name.now (volume, number) self.old.holds.entries
            self.new.holds.entries) }
    {
        if let Some(stretches) = self.holds.get_mut(name) {
            return push_number(stretches, volume, number);
        }
        let mut stretches = Vec::new(self.alloc);
        push_number(&mut stretches, volume, number)?;
        let name = Vec::from_slice(self.alloc, name)?;
        self.holds.insert(name, stretches)?;
        Ok(())
    }

    /// Adds a row for each hold, in byte order of their names.
    fn rows(&self, page: &mut Page) -> Result<(), AllocError>
        ensures rows { OnOk result
            (page.new ≡ page.old ++ flat_map entry_row self.now.holds.entries) }
        ensures order { OnOk result (AreInOrder self.now.holds.entries) }
    {
        for (name, stretches) in &self.holds {
            let stretches = stretches.as_slice();
            push_hold(page, name.as_slice(), count_of(stretches), stretches)?;
        }
        Ok(())
    }

    /// Adds the section of holds.
    pub fn section(&self, page: &mut Page) -> Result<(), AllocError>
        ensures { OnOk result (page.new ≡ page.old ++ holds_section self.now.holds.entries) }
    {
        open_section(page)?;
        if self.holds.is_empty() {
            return push_none(page);
        }
        open_table(page)?;
        self.rows(page)?;
        close_table(page)
    }
}
