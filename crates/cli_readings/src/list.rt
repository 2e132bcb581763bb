//! `list`: the records, a line each.

ghost use Rattle.std.specs.Prelude.{◌≡◌, ◌∷◌, ◌++◌, [], ℕ, List, IfOk, IfSome, OnOk, is_none, true, string_bytes};
ghost use Rattle.record_archive.specs.Archive.{Archive};
ghost use Rattle.record_choice.specs.Reads.{OnlyReads};
ghost use Rattle.cli_console.specs.Headers.{AreTextsOf};
ghost use Rattle.cli_console.specs.Counts.{one_more};
ghost use Rattle.cli_console.specs.Finds.{IsAtEnd, IsBounded, TakesThese, found_ahead, found_in};
ghost use Rattle.cli_readings.specs.Chosen.{ListsChosen};
ghost use Rattle.cli_readings.specs.Ends.{IsEnded};
ghost use Rattle.cli_readings.specs.Lists.{HasText, IsHeaderOf, IsRowOf, IsTextOf, Lists, PushesRow, WritesList, end_of, head_of, more_listed, none_listed};
ghost use Rattle.cli_console.specs.Sequences.{between};
ghost use Rattle.cli_console.specs.Sinks.{Writes};
ghost use Rattle.cli_choice.specs.Reads.{IsReadOf};

use cli_choice::Questions;
use cli_console::{Failure, Reader, Search, Sink, message_of, text_between};
use cli_texts::{
    Headers, LIST_HEADER, LIST_HEADER_WITH_TEXTS, ListedHeaders, Row, headers_of, json_object,
    listed_line, listed_row, number_text,
};
use command_lines::archives::{Choice, Format, Listing};
use record_choice::Repository;
use record_store::{RecordEntry, StoreFault};
use std::alloc::{AllocError, Global};

/// After how many octets a list is written.
const PIECE: usize = 65_536;

/// A record as it is listed: one of a volume, in an archive of volumes.
pub fn row_of(volume: Option<u32>, entry: &RecordEntry) -> Row<'_>
    ensures { IsRowOf volume entry.now result }
{
    Row {
        volume,
        number: entry.number,
        path: entry.path.as_slice(),
        day: entry.day,
        due: entry.due,
        holds: entry.holds.as_slice(),
        destroyed: entry.destroyed,
    }
}

/// What the header of a record's message says; none where it is destroyed.
pub(crate) fn headers_of_record<R: Repository<Fault = StoreFault>>(
    rt: &HostRuntime,
    archive: &mut R,
    entry: &RecordEntry,
) -> Result<Option<Headers>, Failure>
    ensures reads { OnlyReads R.clean R.stands archive.old archive.new }
    ensures none { IfOk result (λ h. is_none h ≡ entry.now.destroyed) }
    ensures texts { IfOk result (λ o. IsReadOf R.clean R.stands archive.old archive.new
        (λ a. IfSome o (λ h. AreTextsOf a entry.now.number h))) }
{
    if entry.destroyed {
        return Ok(None);
    }
    let message = message_of(rt, archive, entry)?;
    Ok(Some(headers_of(rt.alloc(), message.as_slice())?))
}

/// A record as a JSON object, after what stands between it and the one before.
fn json_row(
    alloc: Global,
    row: &Row<'_>,
    headers: ListedHeaders<'_>,
    is_first: bool,
) -> Result<Vec<u8>, AllocError>
    ensures { IfOk result
        (λ text. (object : List ℕ) × (text.items ≡ between is_first ++ object)) }
{
    let mut text = Vec::from_slice(alloc, text_between(is_first).as_bytes())?;
    let object = json_object(alloc, row, headers)?;
    text.extend_from_slice(object.as_bytes())?;
    Ok(text)
}

/// What is listed of a record in a format.
fn row_text(
    alloc: Global,
    row: &Row<'_>,
    headers: ListedHeaders<'_>,
    format: Format,
    is_first: bool,
) -> Result<Vec<u8>, AllocError>
    ensures { IfOk result (λ text. IsTextOf format is_first row.now headers.entry text.items) }
{
    match format {
        Format::Lines => {
            let line = listed_line(alloc, row, headers)?;
            Vec::from_slice(alloc, line.as_str().as_bytes())
        }
        Format::Csv => listed_row(alloc, row, headers),
        Format::Json => json_row(alloc, row, headers, is_first),
        Format::Numbers => {
            let mut line = number_text(alloc, row.volume, row.number)?.into_bytes();
            line.push(b'\n')?;
            Ok(line)
        }
        Format::Count => Ok(Vec::new(alloc)),
    }
}

/// What a list has before its records.
pub(crate) fn text_before(listing: Listing) -> &'static str
    ensures { result.now ≡ head_of listing.format listing.headers }
{
    match listing.format {
        Format::Lines | Format::Numbers | Format::Count => "",
        Format::Csv if listing.headers => LIST_HEADER_WITH_TEXTS,
        Format::Csv => LIST_HEADER,
        Format::Json => "[",
    }
}

/// What a format has after so many records.
fn text_after(alloc: Global, format: Format, count: u64) -> Result<String, AllocError>
    ensures { IfOk result (λ text. string_bytes text ≡ end_of format count) }
{
    match format {
        Format::Lines | Format::Csv | Format::Numbers => Ok(String::new(alloc)),
        Format::Json => String::from_str(alloc, "\n]\n"),
        Format::Count => format!(in alloc; "{count}\n"),
    }
}

/// The text of a list, which is written piece by piece.
#[derive(Drop)]
pub(crate) struct ListText<'a, K> {
    pub(crate) rt: &'a HostRuntime,
    pub(crate) sink: K,
    pub(crate) listing: Listing,
    /// What is not written yet.
    text: Vec<u8>,
    /// How many records it has.
    pub(crate) count: u64,
}

impl<'a, K: Sink + Drop> ListText<'a, K> {
    /// A list without records, of which nothing is written yet.
    pub(crate) fn new(rt: &'a HostRuntime, listing: Listing, sink: K) -> ListText<'a, K>
        ensures sink { result.sink ≡ sink }
        ensures listing { result.listing ≡ listing }
        ensures text { result.text.items ≡ [] }
        ensures count { result.count ≡ 0 }
    {
        let text = Vec::new(rt.alloc());
        ListText {
            rt,
            sink,
            listing,
            text,
            count: 0,
        }
    }

    /// Adds a text that is no record's to what is to be written.
    pub(crate) fn push(&mut self, text: &str) -> Result<(), AllocError>
        ensures text { OnOk result (Writes (HasText K.written) self.old self.new text.now) }
        ensures count { OnOk result (self.new.count ≡ self.old.count) }
        ensures listing { OnOk result (self.new.listing ≡ self.old.listing) }
    {
        self.text.extend_from_slice(text.as_bytes())?;
        Ok(())
    }

    /// Adds the row of a record, as it was kept, to what is to be written.
    pub(crate) fn push_kept(&mut self, row: &[u8]) -> Result<(), AllocError>
        ensures text { OnOk result (Writes (HasText K.written) self.old self.new row.now) }
        ensures count { OnOk result (self.new.count ≡ one_more self.old.count) }
        ensures listing { OnOk result (self.new.listing ≡ self.old.listing) }
    {
        self.text.extend_from_slice(row)?;
        self.count = self.count.saturating_add(1);
        Ok(())
    }

    /// Adds a record to what is to be written.
    pub(crate) fn push_row(
        &mut self,
        entry: &RecordEntry,
        headers: ListedHeaders<'_>,
        is_first: bool,
    ) -> Result<(), Failure>
        ensures { OnOk result ((a : Archive)
            → IsHeaderOf a self.old.listing.headers entry.now headers.entry
            → PushesRow K.written a is_first self.old entry.now self.new) }
    {
        let row = row_of(self.listing.volume, entry);
        let text = row_text(
            self.rt.alloc(),
            &row,
            headers,
            self.listing.format,
            is_first,
        )?;
        self.text.extend_from_slice(text.as_slice())?;
        self.count = self.count.saturating_add(1);
        Ok(())
    }

    /// Writes what is not written yet.
    pub(crate) fn write(&mut self) -> Result<(), Failure>
        ensures same { OnOk result ((a : Archive) → Lists K.written a self.old [] self.new) }
        ensures all { OnOk result (self.new.text.items ≡ []) }
    {
        self.sink.write(self.text.as_slice())?;
        self.text.clear();
        Ok(())
    }

    /// Writes what is not written yet, where it is long.
    #[tactic(auto, using(crate::specs::Lists::none_listed))]
    fn write_long(&mut self) -> Result<(), Failure>
        ensures { OnOk result ((a : Archive) → Lists K.written a self.old [] self.new) }
    {
        if self.text.len() < PIECE {
            return Ok(());
        }
        self.write()
    }

    /// Adds a record, and writes the text where it is long.
    fn add(&mut self, entry: &RecordEntry, headers: ListedHeaders<'_>) -> Result<(), Failure>
        ensures { OnOk result ((a : Archive)
            → IsHeaderOf a self.old.listing.headers entry.now headers.entry
            → Lists K.written a self.old (entry.now ∷ []) self.new) }
    {
        let is_first = self.count == 0;
        self.push_row(entry, headers, is_first)?;
        self.write_long()?;
        Ok(())
    }

    /// Adds a record, with what the header of its message says, which is read.
    fn add_read<R: Repository<Fault = StoreFault>>(
        &mut self,
        archive: &mut R,
        entry: &RecordEntry,
    ) -> Result<(), Failure>
        requires { self.old.listing.headers ≡ true }
        ensures reads { OnlyReads R.clean R.stands archive.old archive.new }
        ensures added { OnOk result (IsReadOf R.clean R.stands archive.old archive.new
            (λ a. Lists K.written a self.old (entry.now ∷ []) self.new)) }
    {
        match headers_of_record(self.rt, archive, entry)? {
            Some(headers) => self.add(entry, ListedHeaders::Texts(&headers)),
            None => self.add(entry, ListedHeaders::Destroyed),
        }
    }

    /// Adds a text that is no record's, and writes it.
    pub(crate) fn put(&mut self, text: &str) -> Result<(), Failure>
        ensures text { OnOk result (Writes (HasText K.written) self.old self.new text.now) }
        ensures count { OnOk result (self.new.count ≡ self.old.count) }
        ensures listing { OnOk result (self.new.listing ≡ self.old.listing) }
        ensures all { OnOk result (self.new.text.items ≡ []) }
    {
        self.push(text)?;
        self.write()?;
        Ok(())
    }

    /// Adds what its format has after its records, and writes it.
    pub(crate) fn end(&mut self) -> Result<(), Failure>
        ensures text { OnOk result (Writes (HasText K.written) self.old self.new
            (end_of self.old.listing.format self.old.count)) }
        ensures all { OnOk result (self.new.text.items ≡ []) }
    {
        let after = text_after(self.rt.alloc(), self.listing.format, self.count)?;
        self.put(after.as_str())
    }
}

impl<K: Sink + Drop> Reader for ListText<'_, K> {
    ghost takes = { λ old a es new. Lists K.written a old es new };

    /// Adds the record, with what the header of its message says where that is listed. Where the search has not read the
    /// message, it is read here.
    fn take<R: Repository<Fault = StoreFault>>(
        &mut self,
        archive: &mut R,
        entry: &RecordEntry,
        headers: Option<&Headers>,
    ) -> Result<(), Failure> {
        if !self.listing.headers {
            return self.add(entry, ListedHeaders::Unasked);
        }
        match headers {
            Some(headers) => self.add(entry, ListedHeaders::Texts(headers)),
            None => self.add_read(archive, entry),
        }
    }

    fn rest(&mut self) -> Result<(), Failure> {
        self.write()?;
        Ok(())
    }

    ghost takes_none = { λ list a. none_listed K.written a list };

    ghost takes_more = { λ x y z a es fs one other. more_listed K.written a x y z es fs one other };
}

/// Adds the records that are found to a list.
pub(crate) fn add_found<R: Repository<Fault = StoreFault>, K: Sink + Drop>(
    rt: &HostRuntime,
    archive: &mut R,
    search: &mut Search<'_, '_>,
    list: &mut ListText<'_, K>,
) -> Result<(), Failure>
    requires { IsBounded search.old }
    ensures reads { OnlyReads R.clean R.stands archive.old archive.new }
    ensures listed { OnOk result (IsReadOf R.clean R.stands archive.old archive.new
        (λ a. TakesThese (λ old b es new. Lists K.written b old es new) list.old a
        (found_ahead search.old a) list.new)) }
    ensures ended { OnOk result (IsReadOf R.clean R.stands archive.old archive.new
        (λ a. IsAtEnd search.old a search.new)) }
{
    if list.listing.headers {
        search.read_with_headers(rt, archive, list)
    } else {
        search.read_found(rt, archive, list)
    }
}

/// Writes the list of the records that are found to a sink: each of them once, in the order of their numbers, between what its
/// format has before and after them. Answers the search, which is at its end, and the sink. `BadData` where the class is none
/// of the plan.
fn list_to<'s, 'a, R: Repository<Fault = StoreFault>, K: Sink + Drop>(
    rt: &HostRuntime,
    archive: &mut R,
    choice: &'s Choice<'a>,
    questions: &'s Questions,
    listing: Listing,
    sink: K,
) -> Result<(Search<'s, 'a>, K), Failure>
    ensures reads { OnlyReads R.clean R.stands archive.old archive.new }
    ensures listed { IfOk result (λ ended. IsReadOf R.clean R.stands archive.old archive.new
        (λ a. TakesThese (λ before b es after. WritesList K.written b listing before es after)
        sink a (found_in choice.now questions.now a) ended.1)) }
    ensures ended { IfOk result (λ ended. IsReadOf R.clean R.stands archive.old archive.new
        (λ a. IsEnded choice.now questions.now a ended.0)) }
{
    let mut search = Search::new(rt, archive, choice, questions)?;
    let mut list = ListText::new(rt, listing, sink);
    list.put(text_before(listing))?;
    add_found(rt, archive, &mut search, &mut list)?;
    list.end()?;
    let ListText { sink, .. } = list;
    Ok((search, sink))
}

/// Writes to a sink the records that meet a choice, and whose messages have what is asked of them, with what a format has before
/// and after them. Answers the sink. `BadData` where the class is none of the plan, and where a number that is typed by itself is
/// not found.
pub fn write_list<R: Repository<Fault = StoreFault>, K: Sink + Drop>(
    rt: &HostRuntime,
    archive: &mut R,
    choice: &Choice<'_>,
    questions: &Questions,
    listing: Listing,
    sink: K,
) -> Result<K, Failure>
    ensures reads { OnlyReads R.clean R.stands archive.old archive.new }
    ensures listed { IfOk result (λ after. IsReadOf R.clean R.stands archive.old archive.new
        (λ a. ListsChosen K.written listing choice.now questions.now a sink after)) }
{
    let (search, written) = list_to(rt, archive, choice, questions, listing, sink)?;
    search.end(rt, archive)?;
    Ok(written)
}
