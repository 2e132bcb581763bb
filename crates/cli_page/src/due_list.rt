//! What is due by the day, for signature.

ghost use Rattle.std.specs.Prelude.{◌≡◌, ◌++◌, ◌∷◌, [], map, flat_map, count_by, option_map, IfOk, OnOk, OnErr};
ghost use Rattle.class_plan.specs.Plans.{schedule_at};
ghost use Rattle.cli_page.specs.DueLists.{ruling_by, due_record, due_view, is_held as is_held_item, is_free as is_free_item, ruling_words, holds_word as holds_word_of, more_names, hold_names, bar_words, texts_shown, number_head, day_cell, free_words, row_tag as row_tag_of, first_cells as first_cells_of, row as row_of, table_head, table_end, counts as counts_of_items, list as list_of, section_head};

use crate::fault::ReportFault;
use crate::page::{Page, put};
use crate::report::Record;
use crate::titles::push_class;
use class_plan::{Action, Date, Plan, Schedule};
use cli_texts::{Headers, ListedTitle};
use std::alloc::{AllocError, Global};

/// What may be done with a record that is due.
#[derive(Clone, Copy)]
enum Ruling {
    /// Its schedule destroys it.
    Destroy,
    /// Its schedule is that somebody reviews it.
    Review,
    /// Its schedule is that it goes to another archive.
    Transfer,
}

/// A record that is due.
struct Item {
    /// The number of its volume, in an archive of volumes.
    volume: Option<u32>,
    number: u32,
    path: Vec<u8>,
    day: Date,
    due: Date,
    ruling: Ruling,
    /// The names of its holds.
    holds: Vec<Vec<u8>>,
    /// What its message's header says, each text cut to 80 columns.
    headers: Option<Headers>,
}

impl Drop for Item {
    fn drop(self) {
        let Item {
            volume: _,
            number: _,
            path: _,
            day: _,
            due: _,
            ruling: _,
            holds: _,
            headers: _,
        } = self;
    }
}

/// What is due by the day, in the order of the records' numbers.
#[derive(Drop)]
pub struct DueList {
    alloc: Global,
    items: Vec<Item>,
}

/// What the schedule of a class says of a record that is due.
fn ruling_of(plan: &Plan, path: &[u8]) -> Ruling
    ensures { result ≡ ruling_by (schedule_at plan.now path.now) }
{
    let Some(Schedule::After { action, .. }) = plan.schedule_of(path) else {
        return Ruling::Review;
    };
    match action {
        Action::Destroy => Ruling::Destroy,
        Action::Transfer => Ruling::Transfer,
        Action::Review => Ruling::Review,
    }
}

/// A copy of the names of holds.
fn copy_of(alloc: Global, holds: &[Vec<u8>]) -> Result<Vec<Vec<u8>>, ReportFault>
    ensures { IfOk result (λ names. map (λ n. n.items) names.items
        ≡ map (λ h. h.items) holds.now) }
{
    let mut names = Vec::new(alloc);
    for name in holds {
        names.push(Vec::from_slice(alloc, name.as_slice())?)?;
    }
    Ok(names)
}

/// What comes before the names of holds.
fn holds_word(others: usize) -> &'static str
    ensures { result.now ≡ holds_word_of others }
{
    if others == 0 { "Hold: " } else { "Holds: " }
}

/// Adds the names of holds, each after a comma.
fn push_more_names(page: &mut Page, holds: &[Vec<u8>]) -> Result<(), AllocError>
    ensures { OnOk result (page.new ≡ page.old ++ more_names (map (λ h. h.items) holds.now)) }
{
    for name in holds {
        put!(page; ", " name(name.as_slice()))?;
    }
    Ok(())
}

/// Adds the names of the holds on a record, if there are any.
fn push_names(page: &mut Page, holds: &[Vec<u8>]) -> Result<(), AllocError>
    ensures { OnOk result (page.new ≡ page.old ++ hold_names (map (λ h. h.items) holds.now)) }
{
    match holds {
        [] => Ok(()),
        [first, others @ ..] => {
            put!(page; markup(holds_word(others.len())) name(first.as_slice()))?;
            push_more_names(page, others)
        }
    }
}

/// Adds what a schedule says of the destruction of a record: also that nothing bars it.
fn push_ruling(page: &mut Page, ruling: Ruling, is_held: bool) -> Result<(), AllocError>
    ensures { OnOk result (page.new ≡ page.old ++ ruling_words ruling is_held) }
{
    match ruling {
        Ruling::Destroy if is_held => Ok(()),
        Ruling::Destroy => page.markup("May be destroyed"),
        Ruling::Review => page.markup("Not destroyed: its schedule is review. "),
        Ruling::Transfer => page.markup("Not destroyed: its schedule is transfer. "),
    }
}

/// Adds the sender and the subject of a message, if they are known.
fn push_texts(page: &mut Page, headers: Option<&Headers>) -> Result<(), AllocError>
    ensures { OnOk result
        (page.new ≡ page.old ++ texts_shown (option_map (λ h. h.now) headers.entry)) }
{
    match headers {
        Some(headers) => put!(page;
            text(headers.sender.as_str()) "<br>" text(headers.subject.as_str())
        ),
        None => Ok(()),
    }
}

/// The tag with which the row of a record begins, by whether something may be done with the record.
pub(crate) fn row_tag(is_free: bool) -> &'static str
    ensures { result.now ≡ row_tag_of is_free }
{
    if is_free {
        "<tr>"
    } else {
        "<tr class=\"barred\">"
    }
}

/// Adds the cell of a record's number, after that of its volume where it has one, and the tag of the next cell.
#[tactic(auto, unfolding(crate::specs::DueLists::number_head))]
pub(crate) fn push_number(
    page: &mut Page,
    volume: Option<u32>,
    number: u32,
) -> Result<(), AllocError>
    ensures { OnOk result (page.new ≡ page.old ++ number_head volume number) }
{
    page.markup("<th scope=\"row\" class=\"n\">")?;
    page.record_number(volume, number)?;
    put!(page; "</th><td>")
}

/// Adds a day in a cell, after the end of the one before.
#[tactic(auto, unfolding(crate::specs::DueLists::day_cell))]
pub(crate) fn push_day(page: &mut Page, day: Date) -> Result<(), AllocError>
    ensures { OnOk result (page.new ≡ page.old ++ day_cell day) }
{
    put!(page; "</td><td class=\"d\">" date(day))
}

impl Item {
    /// Whether a hold keeps it.
    fn is_held(&self) -> bool
        ensures { result ≡ is_held_item self.now }
    {
        !self.holds.is_empty()
    }

    /// Whether it may be destroyed: its schedule destroys it, and no hold keeps it.
    fn is_free(&self) -> bool
        ensures { result ≡ is_free_item self.now }
    {
        matches!(self.ruling, Ruling::Destroy) && !self.is_held()
    }

    /// Adds what bars the destruction of the record, or that nothing does.
    fn bar(&self, page: &mut Page) -> Result<(), AllocError>
        ensures { OnOk result (page.new ≡ page.old ++ bar_words self.now) }
    {
        push_ruling(page, self.ruling, self.is_held())?;
        push_names(page, self.holds.as_slice())
    }

    /// Adds the cells of its number, its class with the title, and its days.
    #[tactic(auto, unfolding(crate::specs::DueLists::first_cells))]
    fn first_cells(&self, page: &mut Page, titles: &[ListedTitle<'_>]) -> Result<(), AllocError>
        ensures { OnOk result (page.new ≡ page.old ++ first_cells_of titles.now self.now) }
    {
        push_number(page, self.volume, self.number)?;
        push_class(page, self.path.as_slice(), titles)?;
        push_day(page, self.day)?;
        push_day(page, self.due)
    }

    /// Adds the row of the record.
    #[tactic(auto, unfolding(crate::specs::DueLists::row))]
    fn row(&self, page: &mut Page, titles: &[ListedTitle<'_>]) -> Result<(), AllocError>
        ensures { OnOk result (page.new ≡ page.old ++ row_of titles.now self.now) }
    {
        page.markup(row_tag(self.is_free()))?;
        self.first_cells(page, titles)?;
        page.markup("</td><td>")?;
        push_texts(page, self.headers.as_ref())?;
        page.markup("</td><td>")?;
        self.bar(page)?;
        page.markup("</td><td class=\"sign\"></td></tr>\n")
    }
}

/// How many records may be destroyed.
fn free_count(items: &[Item]) -> usize
    ensures { result ≡ count_by is_free_item items.now }
{
    items.iter().filter(|item| item.is_free()).count()
}

/// Adds the rows of records.
fn push_rows(page: &mut Page, titles: &[ListedTitle<'_>], items: &[Item]) -> Result<(), AllocError>
    ensures { OnOk result (page.new ≡ page.old ++ flat_map (row_of titles.now) items.now) }
{
    for item in items {
        item.row(page, titles)?;
    }
    Ok(())
}

/// Adds what comes before the rows of records that are due by a day.
#[tactic(auto, unfolding(crate::specs::DueLists::table_head))]
fn open_table(page: &mut Page, day: Date) -> Result<(), AllocError>
    ensures { OnOk result (page.new ≡ page.old ++ table_head day) }
{
    put!(page;
        "<table>\n<caption>Live records that are due by " date(day)
        ", by number</caption>\n<thead><tr><th scope=\"col\" class=\"n\">Record</th>\
        <th scope=\"col\">Class</th><th scope=\"col\">Captured</th>\
        <th scope=\"col\">Due</th><th scope=\"col\" class=\"t\">Sender and subject</th>\
        <th scope=\"col\">What bars destruction</th>\
        <th scope=\"col\" class=\"sign\">Approved (initials)</th></tr></thead>\n<tbody>\n"
    )
}

/// Adds what comes after the rows: who authorizes the destruction.
#[tactic(auto, unfolding(crate::specs::DueLists::table_end))]
fn close_table(page: &mut Page) -> Result<(), AllocError>
    ensures { OnOk result (page.new ≡ page.old ++ table_end) }
{
    page.markup(
        "</tbody>\n</table>\n<div class=\"signature\">\n\
        <p>The destruction of the records that are approved above is authorized by:</p>\n\
        <ul><li>Name</li><li>Function</li><li>Date</li><li>Signature</li></ul>\n\
        </div>\n</section>\n",
    )
}

/// Adds how many of the records may be destroyed.
#[tactic(auto, unfolding(crate::specs::DueLists::free_words))]
fn push_free(page: &mut Page, count: usize) -> Result<(), AllocError>
    ensures { OnOk result (page.new ≡ page.old ++ free_words count) }
{
    put!(page;
        ", of which " number(count as u64) " may be destroyed.</p>\n\
        <p>A record may be destroyed from the day on which it is due, that day included.</p>\n"
    )
}

/// Adds how many records there are, and how many of them may be destroyed.
#[tactic(auto, unfolding(crate::specs::DueLists::counts))]
fn push_counts(page: &mut Page, items: &[Item]) -> Result<(), AllocError>
    ensures { OnOk result (page.new ≡ page.old ++ counts_of_items items.now) }
{
    put!(page; "<p>Records: " number(items.len() as u64))?;
    push_free(page, free_count(items))?;
    Ok(())
}

/// Adds the heading of the section of what is due by a day.
#[tactic(auto, unfolding(crate::specs::DueLists::section_head))]
fn open_section(page: &mut Page, day: Date) -> Result<(), AllocError>
    ensures { OnOk result (page.new ≡ page.old ++ section_head day) }
{
    put!(page;
        "<section aria-labelledby=\"due\" class=\"due\">\n<h2 id=\"due\">Due by " date(day)
        ", for signature</h2>\n"
    )
}

/// Adds the list of records that are due by a day.
#[tactic(auto, unfolding(crate::specs::DueLists::list))]
fn push_list(
    page: &mut Page,
    titles: &[ListedTitle<'_>],
    items: &[Item],
    day: Date,
) -> Result<(), AllocError>
    ensures { OnOk result (page.new ≡ page.old ++ list_of titles.now items.now day) }
{
    match items {
        [] => page.markup("<p>No record is due by this day.</p>\n</section>\n"),
        items => {
            push_counts(page, items)?;
            open_table(page, day)?;
            push_rows(page, titles, items)?;
            close_table(page)
        }
    }
}

impl DueList {
    /// Nothing is due.
    pub fn new(alloc: Global) -> DueList
        ensures { result.items.items ≡ [] }
    {
        let items = Vec::new(alloc);
        DueList { alloc, items }
    }

    /// Adds a record that is due, and what its message's header says.
    pub fn add(
        &mut self,
        plan: &Plan,
        record: &Record<'_>,
        headers: Option<&Headers>,
        due: Date,
    ) -> Result<(), ReportFault>
        ensures ok { OnOk result (map due_view self.new.items.items
            ≡ map due_view self.old.items.items ++ due_record plan.now «record».now due ∷ []) }
        ensures numbers { OnOk result (map (λ d. d.number) (map due_view self.new.items.items)
            ≡ map (λ d. d.number) (map due_view self.old.items.items) ++ «record».now.number ∷ []) }
        ensures err { OnErr result (self.new.items.items ≡ self.old.items.items) }
    {
        let path = Vec::from_slice(self.alloc, record.path)?;
        let holds = copy_of(self.alloc, record.holds)?;
        let headers = match headers {
            Some(headers) => Some(headers.cut(self.alloc)?),
            None => None,
        };
        let item = Item {
            volume: record.volume,
            number: record.number,
            path,
            day: record.day,
            due,
            ruling: ruling_of(plan, record.path),
            holds,
            headers,
        };
        self.items.push(item)?;
        Ok(())
    }

    /// How many records may be destroyed.
    pub(crate) fn free_count(&self) -> usize
        ensures { result ≡ count_by is_free_item self.now.items.items }
    {
        free_count(self.items.as_slice())
    }

    /// Adds the section of what is due, for signature, with the titles of classes.
    pub fn section(
        &self,
        page: &mut Page,
        titles: &[ListedTitle<'_>],
        day: Date,
    ) -> Result<(), AllocError>
        ensures { OnOk result (page.new ≡ page.old
            ++ section_head day ++ list_of titles.now self.now.items.items day) }
    {
        open_section(page, day)?;
        push_list(page, titles, self.items.as_slice(), day)
    }
}
