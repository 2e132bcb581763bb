//! The index of an export: a table of its records, with a link to the file of each message.

ghost use Rattle.std.specs.Prelude.{◌≡◌, ◌++◌, ◌∷◌, [], ℕ, List, map, flat_map, option_map, IfOk, OnOk, OnErr};
ghost use Rattle.cli_page.specs.Indexes.{IsIndex, IsOrdered, IsOrderedBy, has_lower_sender, is_earlier, moment_key, sender_key, choice_facts, condition_words as condition_words_of, due_cell, due_words as due_words_of, facts as facts_of, file_link, have_events, history_link, history_links, index_row, index_end, index_table_head, index_title, letter_cells, letter_for, letter_texts, letter_view, more_link, order_words as order_words_of, row_for, row_view};

use crate::due_list::{push_day, push_number, row_tag};
use crate::head::{close_head, open_head};
use crate::marks::sorting_key;
use crate::page::{Page, put};
use crate::report::Record;
use class_plan::Date;
use cli_texts::Headers;
use jiff::fmt::rfc2822::DateTimeParser;
use std::alloc::{AllocError, Global};

/// The order of the records in an index.
#[derive(Clone, Copy)]
pub enum Order {
    /// By their numbers.
    Number,
    /// By the moments of their headers' dates (RFC 5322, section 3.3), the earliest first; those without a date that can be
    /// read come last. Records of the same moment go by number.
    Date,
    /// By their senders without quotation marks and without case, as octets of UTF-8 in canonical decomposition; records of
    /// the same sender go by number.
    Sender,
}

/// What an index is about.
#[derive(Clone, Copy)]
pub struct IndexHeading<'a> {
    /// The file of the store.
    pub file: &'a str,
    /// When it is made.
    pub moment: &'a str,
    /// The conditions that its records meet, and their numbers, as they are typed. None where it is of all records.
    pub conditions: Option<&'a str>,
    pub order: Order,
    /// The events of its records that are beside it: those of a store, which has no volume, or of each of these volumes.
    pub histories: &'a [Option<u32>],
}

/// What an index has of a message.
struct Letter {
    /// The number of its file.
    file: u32,
    /// Each text cut to 80 columns.
    headers: Headers,
    /// The moment of its date, in seconds since 1970-01-01T00:00:00Z.
    moment: Option<i64>,
    /// What it is sorted by: its sender without quotation marks and without case.
    sender: String,
}

impl Drop for Letter {
    fn drop(self) {
        let Letter {
            file: _,
            headers: _,
            moment: _,
            sender: _,
        } = self;
    }
}

/// A record in an index.
struct Row {
    /// The number of its volume, in an archive of volumes.
    volume: Option<u32>,
    number: u32,
    path: Vec<u8>,
    day: Date,
    due: Option<Date>,
    is_destroyed: bool,
    /// None where it is destroyed, and where its message is not the one that was captured.
    letter: Option<Letter>,
}

impl Drop for Row {
    fn drop(self) {
        let Row {
            volume: _,
            number: _,
            path: _,
            day: _,
            due: _,
            is_destroyed: _,
            letter: _,
        } = self;
    }
}

/// The index of an export. Its memory grows with the number of records, and not with their messages: of each it has a
/// kilobyte or two.
#[derive(Drop)]
pub struct Index {
    alloc: Global,
    rows: Vec<Row>,
}

/// The moment of a date, in seconds since 1970, where it is one of RFC 5322, section 3.3. A day of the week that does not
/// match is let pass.
fn moment_of(date: &str) -> Option<i64> {
    let parser = DateTimeParser::new().relaxed_weekday(true);
    match parser.parse_timestamp(date.as_bytes()) {
        Ok(moment) => Some(moment.floor_second()),
        Err(_) => None,
    }
}

impl Letter {
    fn new(alloc: Global, file: u32, headers: &Headers) -> Result<Letter, AllocError>
        ensures { IfOk result (λ l. letter_view l ≡ letter_for file headers.now) }
    {
        let headers = headers.cut(alloc)?;
        Ok(Letter {
            file,
            moment: moment_of(headers.date.as_str()),
            sender: sorting_key(alloc, headers.sender.as_str())?,
            headers,
        })
    }

    /// Adds what the header of the message says.
    #[tactic(auto, unfolding(crate::specs::Indexes::letter_texts))]
    fn texts(&self, page: &mut Page) -> Result<(), AllocError>
        ensures { OnOk result (page.new ≡ page.old ++ letter_texts (letter_view self.now)) }
    {
        put!(page;
            "<td>" text(self.headers.sender.as_str())
            "</td><td>" text(self.headers.subject.as_str())
            "</td><td>" text(self.headers.date.as_str())
        )
    }

    /// Adds a link to the file of the message, and the end of the row.
    #[tactic(auto, unfolding(crate::specs::Indexes::file_link))]
    fn link(&self, page: &mut Page, volume: Option<u32>) -> Result<(), AllocError>
        ensures { OnOk result (page.new ≡ page.old ++ file_link volume self.now.file) }
    {
        page.markup("</td><td class=\"d\"><a href=\"")?;
        page.file_name(volume, self.file)?;
        page.markup("\">")?;
        page.file_name(volume, self.file)?;
        put!(page; "</a></td></tr>\n")
    }
}

/// Adds the cells of a message, or why there is none, and the end of the row.
fn push_letter(
    page: &mut Page,
    volume: Option<u32>,
    letter: Option<&Letter>,
    is_destroyed: bool,
) -> Result<(), AllocError>
    ensures { OnOk result (page.new ≡ page.old
        ++ letter_cells volume is_destroyed (option_map (λ l. letter_view l.now) letter.entry)) }
{
    match letter {
        Some(letter) => {
            letter.texts(page)?;
            letter.link(page, volume)
        }
        None if is_destroyed => page.markup("<td></td><td></td><td></td><td></td></tr>\n"),
        None => page.markup(
            "<td></td><td></td><td></td><td>message altered, not exported</td></tr>\n",
        ),
    }
}

/// Adds a due date, or what stands in its place.
fn push_due_words(page: &mut Page, is_destroyed: bool, due: Option<Date>) -> Result<(), AllocError>
    ensures { OnOk result (page.new ≡ page.old ++ due_words_of is_destroyed due) }
{
    match due {
        _ if is_destroyed => page.markup("destroyed"),
        Some(due) => page.date(due),
        None => page.markup("never"),
    }
}

/// Adds the cell of a due date.
#[tactic(auto, unfolding(crate::specs::Indexes::due_cell))]
fn push_due(page: &mut Page, is_destroyed: bool, due: Option<Date>) -> Result<(), AllocError>
    ensures { OnOk result (page.new ≡ page.old ++ due_cell is_destroyed due) }
{
    page.markup("</td><td class=\"d\">")?;
    push_due_words(page, is_destroyed, due)?;
    page.markup("</td>")
}

impl Row {
    /// The moment of its date. Without one it is later than any date.
    fn moment(&self) -> i64
        ensures { result ≡ moment_key self.now.letter }
    {
        match &self.letter {
            Some(letter) => letter.moment.unwrap_or(i64::MAX),
            None => i64::MAX,
        }
    }

    /// What its sender is sorted by. A record without a message has none, which comes first.
    fn sender(&self) -> &str
        ensures { result.now ≡ sender_key self.now.letter }
    {
        match &self.letter {
            Some(letter) => letter.sender.as_str(),
            None => "",
        }
    }

    /// Adds the row of the record.
    #[tactic(auto, unfolding(crate::specs::Indexes::index_row))]
    fn write(&self, page: &mut Page) -> Result<(), AllocError>
        ensures { OnOk result (page.new ≡ page.old ++ index_row (row_view self.now)) }
    {
        page.markup(row_tag(self.letter.is_some()))?;
        push_number(page, self.volume, self.number)?;
        page.path(self.path.as_slice())?;
        push_day(page, self.day)?;
        push_due(page, self.is_destroyed, self.due)?;
        push_letter(page, self.volume, self.letter.as_ref(), self.is_destroyed)
    }
}

/// Adds the rows of records.
fn push_rows(page: &mut Page, rows: &[Row]) -> Result<(), AllocError>
    ensures { OnOk result (page.new ≡ page.old ++ flat_map index_row (map row_view rows.now)) }
{
    for row in rows {
        row.write(page)?;
    }
    Ok(())
}

/// Puts rows into the order of the moments of their dates; those without one come last.
fn sort_by_date(rows: &mut Vec<Row>) -> Result<(), AllocError>
    ensures { OnOk result (IsOrderedBy is_earlier rows.old.items rows.new.items) }
{
    rows.sort_by(|one, other| one.moment().cmp(&other.moment()))
}

/// Puts rows into the order of their senders.
fn sort_by_sender(rows: &mut Vec<Row>) -> Result<(), AllocError>
    ensures { OnOk result (IsOrderedBy has_lower_sender rows.old.items rows.new.items) }
{
    rows.sort_by(|one, other| one.sender().cmp(other.sender()))
}

/// Puts rows that are ordered by number into an order. None is lost, and none is there twice.
fn sort_rows(rows: &mut Vec<Row>, order: Order) -> Result<(), AllocError>
    ensures { OnOk result (IsOrdered order rows.old.items rows.new.items) }
{
    match order {
        Order::Number => Ok(()),
        Order::Date => sort_by_date(rows),
        Order::Sender => sort_by_sender(rows),
    }
}

/// The words for an order.
fn order_words(order: Order) -> &'static str
    ensures { result.now ≡ order_words_of order }
{
    match order {
        Order::Number => "by number",
        Order::Date => "by the date in the header; records without a date come last",
        Order::Sender => "by sender",
    }
}

/// Adds the file of the store, when the index is made, and how many records it has.
#[tactic(auto, unfolding(crate::specs::Indexes::facts))]
fn push_facts(page: &mut Page, file: &str, moment: &str, count: usize) -> Result<(), AllocError>
    ensures { OnOk result (page.new ≡ page.old ++ facts_of file.now moment.now count) }
{
    put!(page;
        "<body class=\"index\">\n<header>\n<h1>Exported records</h1>\n<dl class=\"facts\">\n\
        <dt>Store</dt><dd>" text(file)
        "</dd>\n<dt>Made</dt><dd>" text(moment)
        "</dd>\n<dt>Records</dt><dd>" number(count as u64)
    )
}

/// Adds the conditions that the records meet, if there are any.
fn push_conditions(page: &mut Page, conditions: Option<&str>) -> Result<(), AllocError>
    ensures { OnOk result (page.new ≡ page.old
        ++ condition_words_of (option_map (λ c. c.now) conditions.entry)) }
{
    match conditions {
        Some(conditions) => page.text(conditions),
        None => page.markup("none: all records of the store"),
    }
}

/// Adds which records an index has, and in which order.
#[tactic(auto, unfolding(crate::specs::Indexes::choice_facts))]
fn push_choice(page: &mut Page, conditions: Option<&str>, order: Order) -> Result<(), AllocError>
    ensures { OnOk result (page.new ≡ page.old
        ++ choice_facts (option_map (λ c. c.now) conditions.entry) order) }
{
    page.markup("</dd>\n<dt>Conditions</dt><dd>")?;
    push_conditions(page, conditions)?;
    put!(page;
        "</dd>\n<dt>Order</dt><dd>" markup(order_words(order))
        "</dd>\n</dl>\n</header>\n<main>\n"
    )
}

/// Adds a link to the events of a store, or of a volume.
#[tactic(auto, unfolding(crate::specs::Indexes::history_link))]
fn push_history(page: &mut Page, volume: Option<u32>) -> Result<(), AllocError>
    ensures { OnOk result (page.new ≡ page.old ++ history_link volume) }
{
    page.markup("<a href=\"")?;
    page.history_name(volume)?;
    page.markup("\">")?;
    page.history_name(volume)?;
    put!(page; "</a>")
}

/// Adds links to the events of volumes, each after a comma.
fn push_more_histories(page: &mut Page, volumes: &[Option<u32>]) -> Result<(), AllocError>
    ensures { OnOk result (page.new ≡ page.old ++ flat_map more_link volumes.now) }
{
    for volume in volumes {
        page.markup(", ")?;
        push_history(page, *volume)?;
    }
    Ok(())
}

/// What comes after a link to events, and so many more.
fn events_words(others: usize) -> &'static str
    ensures { result.now ≡ have_events others }
{
    if others == 0 {
        " has the events of the records."
    } else {
        " have the events of the records."
    }
}

/// Adds links to the events of the records, where they are beside the index.
fn push_histories(page: &mut Page, volumes: &[Option<u32>]) -> Result<(), AllocError>
    ensures { OnOk result (page.new ≡ page.old ++ history_links volumes.now) }
{
    match volumes {
        [] => Ok(()),
        [first, others @ ..] => {
            page.markup(" ")?;
            push_history(page, *first)?;
            push_more_histories(page, others)?;
            page.markup(events_words(others.len()))
        }
    }
}

/// Adds the head of the table.
#[tactic(auto, unfolding(crate::specs::Indexes::index_table_head))]
fn open_table(page: &mut Page, histories: &[Option<u32>]) -> Result<(), AllocError>
    ensures { OnOk result (page.new ≡ page.old ++ index_table_head histories.now) }
{
    page.markup(
        "<table>\n<caption>Long texts are cut here; manifest.csv has them whole. SHA256SUMS has \
        the sums of the files.",
    )?;
    push_histories(page, histories)?;
    page.markup(
        "</caption>\n<thead><tr><th scope=\"col\" class=\"n\">Record</th>\
        <th scope=\"col\" class=\"k\">Class</th>\
        <th scope=\"col\" class=\"d\">Captured</th><th scope=\"col\" class=\"d\">Due</th>\
        <th scope=\"col\">Sender</th><th scope=\"col\">Subject</th>\
        <th scope=\"col\" class=\"h\">Date in the header</th>\
        <th scope=\"col\" class=\"d\">File</th></tr></thead>\n<tbody>\n",
    )
}

/// Adds what comes after the rows.
#[tactic(auto, unfolding(crate::specs::Indexes::index_end))]
fn close_table(page: &mut Page) -> Result<(), AllocError>
    ensures { OnOk result (page.new ≡ page.old ++ index_end) }
{
    page.markup(
        "</tbody>\n</table>\n</main>\n<footer>Made by mailfile-store export. Captured and Due \
        are days of UTC.</footer>\n</body>\n</html>\n",
    )
}

/// Adds the title of an index.
#[tactic(auto, unfolding(crate::specs::Indexes::index_title))]
fn push_title(page: &mut Page) -> Result<(), AllocError>
    ensures { OnOk result (page.new ≡ page.old ++ index_title) }
{
    page.markup("Exported records")
}

impl Index {
    /// An index without records.
    pub fn new(alloc: Global) -> Index
        ensures { result.rows.items ≡ [] }
    {
        let rows = Vec::new(alloc);
        Index { alloc, rows }
    }

    /// Adds a record, after those of earlier volumes and those with smaller numbers: with the number of its message's file and
    /// what its header says, or with none where it is destroyed, and where its message is not the one that was captured.
    pub fn add(
        &mut self,
        record: &Record<'_>,
        letter: Option<(u32, &Headers)>,
    ) -> Result<(), AllocError>
        ensures ok { OnOk result (map row_view self.new.rows.items
            ≡ map row_view self.old.rows.items
            ++ row_for «record».now (option_map (λ l. (l.0, l.1.now)) letter.entry) ∷ []) }
        ensures err { OnErr result (self.new.rows.items ≡ self.old.rows.items) }
    {
        let letter = match letter {
            Some((file, headers)) => Some(Letter::new(self.alloc, file, headers)?),
            None => None,
        };
        let row = Row {
            volume: record.volume,
            number: record.number,
            path: Vec::from_slice(self.alloc, record.path)?,
            day: record.day,
            due: record.due,
            is_destroyed: record.is_destroyed,
            letter,
        };
        self.rows.push(row)?;
        Ok(())
    }

    /// Writes the index in the order of its heading.
    pub fn write(mut self, page: &mut Page, about: &IndexHeading<'_>) -> Result<(), AllocError>
        ensures { OnOk result ((text : List ℕ) × IsIndex about.now self.rows.items text
            × (page.new ≡ page.old ++ text)) }
    {
        sort_rows(&mut self.rows, about.order)?;
        let rows = self.rows.as_slice();
        open_head(self.alloc, page)?;
        push_title(page)?;
        close_head(page)?;
        push_facts(page, about.file, about.moment, rows.len())?;
        push_choice(page, about.conditions, about.order)?;
        open_table(page, about.histories)?;
        push_rows(page, rows)?;
        close_table(page)
    }
}
