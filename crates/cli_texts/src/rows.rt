//! Records as rows of CSV (RFC 4180).

ghost use Rattle.std.specs.Prelude.{◌≡◌, ◌≢◌, nat_eq, ◌∷◌, ◌++◌, [], map, flat_map, option_map, IfOk, OnOk, decimal, string_bytes};
ghost use Rattle.std.specs.List.{list_any, starts_with};
ghost use Rattle.csv.specs.Records.{fields_of};
ghost use Rattle.csv.specs.Writing.{default_writer, row_text, with_style};
ghost use Rattle.csv.specs.declared.writer.QuoteStyle.TheVariants.{NonNumeric};
ghost use Rattle.jiff.specs.Words.{date_text};
ghost use Rattle.cli_texts.specs.Rows.{begins_with_control as begins_with_control_in, begins_with_sign as begins_with_sign_in, captured_fields, cell, csv_line, due_field, due_of, has_semicolon as has_semicolon_in, header_fields, headers_of as headers_of_message, is_formula as is_formula_in, listed_fields, message_fields, number_field, record_fields, shown_octets, spaced, style_for, last_fields, yes_or_no as yes_or_no_for};
ghost use Rattle.cli_texts.specs.Headers.{texts_in};
ghost use Rattle.cli_texts.specs.Words.{words};

use crate::escapes::shown;
use crate::headers::{Headers, ListedHeaders};
use crate::numbers::number_text;
use crate::records::Row;
use class_plan::Date;
use csv::{ByteRecord, QuoteStyle, WriterBuilder};
use std::alloc::{AllocError, Global};
use tool_texts::Shown;

/// The header of a list.
pub const LIST_HEADER: &str = "number,class,day,due,holds,destroyed\n";

/// The header of a list with what the messages' headers say.
pub const LIST_HEADER_WITH_TEXTS: &str =
    "number,class,day,due,holds,destroyed,sender,subject,date\n";

/// The header of a manifest.
pub const MANIFEST_HEADER: &str =
    "number,class,day,due,holds,destroyed,file,octets,sha256,sender,subject,date\n";

/// The message of a record, as an export keeps it.
#[derive(Clone, Copy)]
pub struct Kept<'a> {
    /// The name of its file.
    pub file: &'a str,
    /// How many octets it has.
    pub octets: usize,
    /// Its SHA-256, in hexadecimal digits.
    pub sum: &'a str,
    /// What its header says.
    pub headers: &'a Headers,
}

/// What an export has of a record's message.
#[derive(Clone, Copy)]
pub enum Exported<'a> {
    /// Nothing: it is destroyed.
    Destroyed,
    /// Nothing, since it is not the one that was captured: how many octets that one had and its SHA-256, where they are known.
    Altered(Option<(u64, &'a [u8])>),
    Written(Kept<'a>),
}

/// The signs that begin a formula in a spreadsheet, also in the full-width forms of East Asian ones (U+FF1D, U+FF0B, U+FF0D and
/// U+FF20), in octets of UTF-8.
const FORMULA_SIGNS: [&[u8]; 8] = [
    b"=",
    b"+",
    b"-",
    b"@",
    b"\xef\xbc\x9d",
    b"\xef\xbc\x8b",
    b"\xef\xbc\x8d",
    b"\xef\xbc\xa0",
];

/// Whether a field begins with a control of ASCII.
fn begins_with_control(field: &[u8]) -> bool
    ensures { result ≡ begins_with_control_in field.now }
{
    match field {
        [] => false,
        [first, ..] => first.is_ascii_control(),
    }
}

/// Whether a field begins with one of some signs.
fn begins_with_one(field: &[u8], signs: &[&[u8]]) -> bool
    ensures { result ≡ list_any (λ s. starts_with nat_eq field.now s.now) signs.now }
{
    signs.iter().any(|sign| field.starts_with(sign))
}

/// Whether a field begins with a sign of a formula.
fn begins_with_sign(field: &[u8]) -> bool
    ensures { result ≡ begins_with_sign_in field.now }
{
    begins_with_one(field, &FORMULA_SIGNS)
}

/// Whether a spreadsheet could take a field for a formula, or drop its beginning.
fn is_formula(field: &[u8]) -> bool
    ensures { result ≡ is_formula_in field.now }
{
    begins_with_sign(field) || begins_with_control(field)
}

/// A field as a cell that spreadsheets show as text: an apostrophe comes before what they could take for a formula.
fn cell_of(alloc: Global, field: &[u8]) -> Result<Vec<u8>, AllocError>
    ensures { IfOk result (λ c. c.items ≡ cell field.now) }
{
    let mut octets = Vec::new(alloc);
    if is_formula(field) {
        octets.push(b'\'')?;
    }
    octets.extend_from_slice(field)?;
    Ok(octets)
}

/// Whether a field has a semicolon, at which spreadsheets of many languages begin another cell.
fn has_semicolon(field: &[u8]) -> bool
    ensures { result ≡ has_semicolon_in field.now }
{
    field.iter().any(|octet| *octet == b';')
}

/// Whether one of some fields has a semicolon.
fn have_semicolon(fields: &[&[u8]]) -> bool
    ensures { result ≡ list_any (λ f. has_semicolon_in f.now) fields.now }
{
    fields.iter().any(|field| has_semicolon(field))
}

/// Which fields of a row stand in quotation marks: all, where one has a semicolon, and else those that have to.
#[tactic(auto, using(crate::proofs::FieldLemmas::any_semicolon))]
fn style_of(fields: &[&[u8]]) -> QuoteStyle
    ensures { result ≡ style_for (map (λ f. f.now) fields.now) }
{
    if have_semicolon(fields) {
        QuoteStyle::Always
    } else {
        QuoteStyle::Necessary
    }
}

/// The cells of fields.
fn cells_of(alloc: Global, fields: &[&[u8]]) -> Result<ByteRecord, AllocError>
    ensures { IfOk result (λ r. fields_of r ≡ map cell (map (λ f. f.now) fields.now)) }
{
    let mut cells = ByteRecord::new(alloc);
    for field in fields {
        let octets = cell_of(alloc, field)?;
        cells.push_field(octets.as_slice())?;
    }
    Ok(cells)
}

/// The text of a row with these cells.
fn text_of(alloc: Global, cells: &ByteRecord, style: QuoteStyle) -> Result<Vec<u8>, AllocError>
    requires { style ≢ NonNumeric }
    ensures { IfOk result
        (λ text. text.items ≡ row_text (with_style default_writer style) (fields_of cells.now)) }
{
    let mut writer = WriterBuilder::new()
        .quote_style(style)
        .from_writer(Vec::new(alloc));
    writer.write_byte_record(cells).map_err(|_| AllocError)?;
    writer.into_inner().map_err(|_| AllocError)
}

/// A row of CSV, with its line end.
///
/// The only refusal is no memory (99).
pub fn csv_row(alloc: Global, fields: &[&[u8]]) -> Result<Vec<u8>, AllocError>
    ensures { IfOk result (λ row. row.items ≡ csv_line (map (λ f. f.now) fields.now)) }
{
    let cells = cells_of(alloc, fields)?;
    text_of(alloc, &cells, style_of(fields))
}

/// Adds names of holds, each after a space.
fn push_more_names(alloc: Global, names: &mut String, holds: &[Vec<u8>]) -> Result<(), AllocError>
    ensures { OnOk result (string_bytes names.new ≡ string_bytes names.old
        ++ flat_map (λ m. 32 ∷ shown_octets m) (map (λ h. h.items) holds.now)) }
{
    for name in holds {
        let name = shown(alloc, name.as_slice())?;
        names.push(' ')?;
        names.push_str(name.as_str())?;
    }
    Ok(())
}

/// The names of holds, with spaces between them.
fn hold_names(alloc: Global, holds: &[Vec<u8>]) -> Result<String, AllocError>
    ensures { IfOk result (λ n. string_bytes n ≡ spaced (map (λ h. h.items) holds.now)) }
{
    match holds {
        [] => Ok(String::new(alloc)),
        [first, others @ ..] => {
            let mut names = shown(alloc, first.as_slice())?;
            push_more_names(alloc, &mut names, others)?;
            Ok(names)
        }
    }
}

/// A text of a header as CSV has it: whole, with the numbers of its hidden characters in place of these.
fn visible(alloc: Global, text: &str) -> Result<String, AllocError>
    ensures { IfOk result (λ t. string_bytes t ≡ words text.now) }
{
    let mut shown = Shown::new(alloc);
    shown.value(&text)?;
    Ok(shown.into_string())
}

/// The cells of the texts of a header: the sender, the subject and the date. They are empty where there are none.
fn header_cells(alloc: Global, headers: Option<&Headers>) -> Result<[String; 3], AllocError>
    ensures { IfOk result (λ c. map string_bytes c
        ≡ header_fields (option_map (λ h. h.now) headers.entry)) }
{
    let Some(headers) = headers else {
        return Ok([String::new(alloc), String::new(alloc), String::new(alloc)]);
    };
    Ok([
        visible(alloc, headers.sender.as_str())?,
        visible(alloc, headers.subject.as_str())?,
        visible(alloc, headers.date.as_str())?,
    ])
}

/// A due date, or `never`.
fn due_text(alloc: Global, due: Option<Date>) -> Result<String, AllocError>
    ensures { IfOk result (λ t. string_bytes t ≡ due_field due) }
{
    match due {
        Some(date) => format!(in alloc; "{date}"),
        None => String::from_str(alloc, "never"),
    }
}

/// The due date of a record, or `never`; nothing where it is destroyed.
fn listed_due(alloc: Global, row: &Row<'_>) -> Result<String, AllocError>
    ensures { IfOk result (λ t. string_bytes t ≡ due_of row.now) }
{
    if row.destroyed {
        return Ok(String::new(alloc));
    }
    due_text(alloc, row.due)
}

/// `yes` or `no`.
fn yes_or_no(alloc: Global, is_so: bool) -> Result<String, AllocError>
    ensures { IfOk result (λ t. string_bytes t ≡ yes_or_no_for is_so) }
{
    String::from_str(alloc, if is_so { "yes" } else { "no" })
}

/// The cells that each row of a record begins with, but that of its class: its number, the day of its capture, its due date, its
/// holds, and whether it is destroyed.
fn first_cells(alloc: Global, row: &Row<'_>) -> Result<[String; 5], AllocError>
    ensures { IfOk result (λ c. map string_bytes c ≡ number_field row.now.volume row.now.number
        ∷ date_text row.now.day ∷ due_of row.now
        ∷ spaced (map (λ h. h.items) row.now.holds.now)
        ∷ yes_or_no_for row.now.destroyed ∷ []) }
{
    let day = row.day;
    Ok([
        number_text(alloc, row.volume, row.number)?,
        format!(in alloc; "{day}")?,
        listed_due(alloc, row)?,
        hold_names(alloc, row.holds)?,
        yes_or_no(alloc, row.destroyed)?,
    ])
}

/// The row of a listed record: with the texts of its message's header, where they are asked for, and with empty cells where
/// the message is destroyed.
///
/// The only refusal is no memory (99).
pub fn listed_row(
    alloc: Global,
    row: &Row<'_>,
    headers: ListedHeaders<'_>,
) -> Result<Vec<u8>, AllocError>
    ensures { IfOk result (λ text. text.items ≡ csv_line (listed_fields row.now headers.entry)) }
{
    let [number, day, due, holds, destroyed] = first_cells(alloc, row)?;
    let [sender, subject, date] = header_cells(alloc, headers.texts())?;
    let cells = [
        number.as_bytes(),
        row.path,
        day.as_bytes(),
        due.as_bytes(),
        holds.as_bytes(),
        destroyed.as_bytes(),
        sender.as_bytes(),
        subject.as_bytes(),
        date.as_bytes(),
    ];
    match headers {
        ListedHeaders::Unasked => csv_row(alloc, &cells[..6]),
        ListedHeaders::Destroyed | ListedHeaders::Texts(_) => csv_row(alloc, &cells),
    }
}

/// The cells of a message that was captured as another one: the length and the sum of that one, where they are known.
fn captured_cells(alloc: Global, captured: Option<(u64, &[u8])>) -> Result<[String; 3], AllocError>
    ensures { IfOk result (λ c. map string_bytes c ≡ captured_fields captured.entry) }
{
    match captured {
        Some((octets, sum)) => Ok([
            String::new(alloc),
            format!(in alloc; "{octets}")?,
            shown(alloc, sum)?,
        ]),
        None => Ok([String::new(alloc), String::new(alloc), String::new(alloc)]),
    }
}

/// The cells of a message that is in a file.
fn kept_cells(alloc: Global, kept: Kept<'_>) -> Result<[String; 3], AllocError>
    ensures { IfOk result (λ c. map string_bytes c
        ≡ kept.entry.file.now ∷ decimal kept.entry.octets ∷ kept.entry.sum.now ∷ []) }
{
    let octets = kept.octets;
    Ok([
        String::from_str(alloc, kept.file)?,
        format!(in alloc; "{octets}")?,
        String::from_str(alloc, kept.sum)?,
    ])
}

/// The cells of a message in a manifest: the name of its file, how many octets it has, and its SHA-256.
fn message_cells(alloc: Global, message: Exported<'_>) -> Result<[String; 3], AllocError>
    ensures { IfOk result (λ c. map string_bytes c ≡ message_fields message.entry) }
{
    match message {
        Exported::Destroyed => captured_cells(alloc, None),
        Exported::Altered(captured) => captured_cells(alloc, captured),
        Exported::Written(kept) => kept_cells(alloc, kept),
    }
}

/// What the header of a message says that was written.
fn headers_written<'a>(message: Exported<'a>) -> Option<&'a Headers>
    ensures { option_map (λ h. h.now) result ≡ headers_of_message message.entry }
{
    match message {
        Exported::Written(kept) => Some(kept.headers),
        Exported::Destroyed | Exported::Altered(_) => None,
    }
}

/// The last cells of a manifest's row: those of the message, and those of its header, where it was written.
fn last_cells(alloc: Global, message: Exported<'_>) -> Result<[String; 6], AllocError>
    ensures { IfOk result (λ c. map string_bytes c ≡ last_fields message.entry) }
{
    let [file, octets, sum] = message_cells(alloc, message)?;
    let [sender, subject, date] = header_cells(alloc, headers_written(message))?;
    Ok([file, octets, sum, sender, subject, date])
}

/// The row of a record in a manifest. Where its message is destroyed, the last six fields are empty; where it is not the one
/// that was captured, only the length and the sum of that one are there.
///
/// The only refusal is no memory (99).
pub fn manifest_row(
    alloc: Global,
    row: &Row<'_>,
    message: Exported<'_>,
) -> Result<Vec<u8>, AllocError> {
    let [number, day, due, holds, destroyed] = first_cells(alloc, row)?;
    let [file, octets, sum, sender, subject, date] = last_cells(alloc, message)?;
    csv_row(
        alloc,
        &[
            number.as_bytes(),
            row.path,
            day.as_bytes(),
            due.as_bytes(),
            holds.as_bytes(),
            destroyed.as_bytes(),
            file.as_bytes(),
            octets.as_bytes(),
            sum.as_bytes(),
            sender.as_bytes(),
            subject.as_bytes(),
            date.as_bytes(),
        ],
    )
}
