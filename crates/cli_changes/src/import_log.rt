//! What an import says of its messages.

ghost use Rattle.std.specs.Prelude.{◌≡◌, ◌++◌, option_map, OnOk};
ghost use Rattle.cli_changes.specs.Endings.{EndsWith};
ghost use Rattle.cli_changes.specs.ImportLines.{
  between,
  count_words,
  empty_words,
  known_front,
  known_words,
  line_at,
  maildir_words,
  more_lines,
  passed_words,
  some_words,
  taken_words,
  tally_line,
  undated_line,
  undated_lines,
};
ghost use Rattle.cli_changes.specs.Imports.{status_of};

use crate::no_mail::imported_words;
use cli_console::{Failure, Status, tell, write_text};
use cli_texts::put_number;
use mail_dates::{Dated, Dating};
use mail_import::{FirstRecord, ImportTally, Stay};
use mail_sources::{PassedOver, maildir_around};
use std::alloc::AllocError;
use tool_texts::{Shown, put};

/// Adds how many there are of something.
fn put_count(
    text: &mut Shown,
    count: u64,
    one: &'static str,
    many: &'static str,
) -> Result<(), AllocError>
    ensures { OnOk result (text.new ≡ text.old ++ count_words one.now many.now count) }
{
    put!(text; value(&count) " " words(if count == 1 { one } else { many }))
}

/// Adds how many messages are taken, and were captured already.
#[tactic(auto, unfolding(crate::specs::ImportLines::taken_words))]
fn put_taken(text: &mut Shown, tally: &ImportTally) -> Result<(), AllocError>
    ensures { OnOk result (text.new ≡ text.old ++ taken_words tally.now) }
{
    put!(text; "taken " value(&tally.taken) ", captured already " value(&tally.known))
}

/// Adds the line of what became of messages.
#[tactic(auto, unfolding(crate::specs::ImportLines::tally_line))]
fn put_tally(text: &mut Shown, tally: &ImportTally) -> Result<(), AllocError>
    ensures { OnOk result (text.new ≡ text.old ++ tally_line tally.now) }
{
    let staying = tally.unfit.saturating_add(tally.given_up);
    put_taken(text, tally)?;
    put!(text; ", stay " value(&staying))?;
    text.end_line()
}

/// Writes what became of messages. All is done then, so whatever happens to the line is no failure.
pub(crate) fn write_tally(rt: &HostRuntime, tally: &ImportTally) {
    let mut text = Shown::new(rt.alloc());
    if let Ok(()) = put_tally(&mut text, tally) {
        let _ = write_text(rt, &text);
    }
}

/// Adds how many there are of something, where there are some.
#[tactic(auto, unfolding(crate::specs::ImportLines::some_words))]
fn put_some(
    text: &mut Shown,
    count: u64,
    one: &'static str,
    many: &'static str,
) -> Result<(), AllocError>
    ensures { OnOk result (text.new ≡ text.old ++ some_words one.now many.now count) }
{
    if count > 0 {
        return put_count(text, count, one, many);
    }
    Ok(())
}

/// Adds what stands between files and folders that were passed over, where there are both.
#[tactic(auto, unfolding(crate::specs::ImportLines::between))]
fn put_between(text: &mut Shown, files: u64, folders: u64) -> Result<(), AllocError>
    ensures { OnOk result (text.new ≡ text.old ++ between files folders) }
{
    if files > 0 && folders > 0 {
        return text.words(", ");
    }
    Ok(())
}

/// Adds that files and folders were passed over, of which there is one at least.
#[tactic(auto, unfolding(crate::specs::ImportLines::passed_words))]
fn put_passed(text: &mut Shown, tally: &ImportTally) -> Result<(), AllocError>
    ensures { OnOk result
        (text.new ≡ text.old ++ passed_words tally.now.files tally.now.folders) }
{
    text.words("passed over: ")?;
    put_some(text, tally.files, "file", "files")?;
    put_between(text, tally.files, tally.folders)?;
    put_some(text, tally.folders, "folder", "folders")
}

/// Tells how many files and folders were passed over, if any.
pub(crate) fn tell_passed(rt: &HostRuntime, tally: &ImportTally) {
    if tally.files == 0 && tally.folders == 0 {
        return;
    }
    let mut text = Shown::new(rt.alloc());
    if let Ok(()) = put_passed(&mut text, tally) {
        tell(rt, &text);
    }
}

/// How an import ended that came to its end: `BadData` where messages stay, or a folder has none, and `TryAgain` where some of
/// them were given up.
pub(crate) fn end_of(tally: &ImportTally) -> Result<(), Failure>
    ensures { EndsWith (status_of tally.now) result }
{
    if tally.given_up > 0 {
        return Err(Failure::Reported(Status::TryAgain));
    }
    if tally.unfit > 0 || tally.empty > 0 {
        return Err(Failure::Reported(Status::BadData));
    }
    Ok(())
}

/// Adds that a message is captured already, before the number of its first record.
#[tactic(auto, unfolding(crate::specs::ImportLines::known_front))]
fn put_known_front(text: &mut Shown, name: &str) -> Result<(), AllocError>
    ensures { OnOk result (text.new ≡ text.old ++ known_front name.now) }
{
    text.named(name.as_bytes())?;
    text.words(" is captured already, as record ")
}

/// Adds what is told of a message that is captured already.
fn put_known(text: &mut Shown, name: &str, first: FirstRecord) -> Result<(), AllocError>
    ensures { OnOk result (text.new ≡ text.old ++ known_words name.now first) }
{
    put_known_front(text, name)?;
    put_number(text, first.volume, first.number)
}

/// Tells that a message is captured already, and its first record.
pub(crate) fn tell_known(rt: &HostRuntime, name: &str, first: FirstRecord) {
    let mut text = Shown::new(rt.alloc());
    if let Ok(()) = put_known(&mut text, name, first) {
        tell(rt, &text);
    }
}

/// Adds what is told of a Maildir in a source.
#[tactic(auto, unfolding(crate::specs::ImportLines::maildir_words))]
fn put_maildir(text: &mut Shown, path: &str) -> Result<(), AllocError>
    ensures { OnOk result (text.new ≡ text.old ++ maildir_words path.now) }
{
    text.named(path.as_bytes())?;
    text.words(": a Maildir too, which is not taken; name it to import it")
}

/// Tells of the Maildirs in a source, which are not taken.
pub(crate) fn tell_maildirs(rt: &HostRuntime, passed: &PassedOver) {
    for path in &passed.maildirs {
        let mut text = Shown::new(rt.alloc());
        if let Ok(()) = put_maildir(&mut text, path.as_str()) {
            tell(rt, &text);
        }
    }
}

/// Adds what is told of a folder without a message, with the path of the Maildir to which it belongs, if that is known.
#[tactic(auto, unfolding(crate::specs::ImportLines::empty_words))]
fn put_empty(text: &mut Shown, path: &str, maildir: Option<&str>) -> Result<(), AllocError>
    ensures { OnOk result (text.new
        ≡ text.old ++ empty_words path.now (option_map (λ m. m.now) maildir.entry)) }
{
    text.words("no message is found in ")?;
    text.named(path.as_bytes())?;
    let Some(maildir) = maildir else {
        return Ok(());
    };
    text.words("; to import the Maildir, name ")?;
    text.named(maildir.as_bytes())
}

/// Tells that a folder has no message, and of which Maildir it is a part.
pub(crate) fn tell_empty(rt: &HostRuntime, path: &str) {
    let mut text = Shown::new(rt.alloc());
    if let Ok(()) = put_empty(&mut text, path, maildir_around(rt, path)) {
        tell(rt, &text);
    }
}

/// Adds the number of a line of an mbox.
#[tactic(auto, unfolding(crate::specs::ImportLines::line_at))]
fn put_line_at(text: &mut Shown, path: &str, line: u64) -> Result<(), AllocError>
    ensures { OnOk result (text.new ≡ text.old ++ line_at path.now line) }
{
    put!(text; named(path.as_bytes()) ": line " value(&line))
}

/// Adds the first line of an mbox that looks like a separator and has no date.
#[tactic(auto, unfolding(crate::specs::ImportLines::undated_line))]
fn put_first_undated(text: &mut Shown, path: &str, first: u64) -> Result<(), AllocError>
    ensures { OnOk result (text.new ≡ text.old ++ undated_line path.now first) }
{
    put_line_at(text, path, first)?;
    text.words(" begins with From and has no date, so no message begins there")
}

/// Adds how many such lines there are, where there is more than one.
#[tactic(auto, unfolding(crate::specs::ImportLines::more_lines))]
fn put_more_lines(text: &mut Shown, count: u64) -> Result<(), AllocError>
    ensures { OnOk result (text.new ≡ text.old ++ more_lines count) }
{
    if count > 1 {
        return put!(text; "; there are " value(&count) " such lines");
    }
    Ok(())
}

/// Adds what is told of lines of an mbox that look like separators and have no date.
fn put_undated(text: &mut Shown, path: &str, first: u64, count: u64) -> Result<(), AllocError>
    ensures { OnOk result (text.new ≡ text.old ++ undated_lines path.now first count) }
{
    put_first_undated(text, path, first)?;
    put_more_lines(text, count)
}

/// Tells of the lines of an mbox that look like separators and have no date: the number of the first one, and how many there are.
pub(crate) fn tell_undated(rt: &HostRuntime, path: &str, first: u64, count: u64) {
    let mut text = Shown::new(rt.alloc());
    if let Ok(()) = put_undated(&mut text, path, first, count) {
        tell(rt, &text);
    }
}

/// Why a message has no moment by its `Received` field.
fn received_words(dated: Dated) -> &'static str {
    match dated {
        Dated::NoField => "it has no Received field",
        Dated::NoDate => "its Received field has no date of RFC 5322 from 1970 on",
        Dated::Moment(_) | Dated::ToCome(_) => "the date of its Received field is later than now",
    }
}

/// Why a message has no moment by its `Date` field.
fn date_words(dated: Dated) -> &'static str {
    match dated {
        Dated::NoField => "it has no Date field",
        Dated::NoDate => "its Date field has no date of RFC 5322 from 1970 on",
        Dated::Moment(_) | Dated::ToCome(_) => "the date of its Date field is later than now",
    }
}

/// Why a message has no moment, where `dating` gives messages their moments.
fn undated_words(dating: Dating, dated: Dated) -> &'static str {
    match dating {
        Dating::Received => received_words(dated),
        Dating::Date | Dating::At(_) => date_words(dated),
    }
}

/// The words for why a message stays, where `dating` gives messages their moments.
pub(crate) fn stay_words(dating: Dating, why: &Stay) -> &str {
    match why {
        Stay::NoMail(why) => imported_words(*why),
        Stay::Undated(dated) => undated_words(dating, *dated),
        Stay::TooLong => "more than 8,388,608 octets",
        Stay::For(reason) => reason.words(),
    }
}
