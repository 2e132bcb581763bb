//! `dispose --approved`: the numbers of records that stand in a file.

ghost use Rattle.std.specs.Prelude.{◌≡◌, ◌++◌, false, map, IfOk, IfErr, OnOk};
ghost use Rattle.std.specs.Char.{is_ascii_whitespace};
ghost use Rattle.std.specs.List.{slice_split};
ghost use Rattle.command_lines.specs.Numbers.{AreTyped};
ghost use Rattle.cli_changes.specs.Approvals.{IsAsTyped, IsRefused, are_none, file_words, is_line_end, line_words};

use cli_console::{Failure, Status};
use cli_sources::{payload_of_file, read_payload};
use command_lines::archives::{DisposalAsked, Numbers, TypedDisposal};
use desk_commands::Payload;
use std::alloc::{AllocError, AllocFailed, Global};
use std::fmt::Display;
use std::io::{self, ErrorKind};
use tool_texts::Shown;

/// How many octets a file of numbers may have.
const MOST: usize = 16_777_216;

/// What stands for standard input.
const STANDARD_INPUT: &str = "-";

/// Why a text has no numbers of records.
#[derive(Drop)]
enum NoNumbers {
    /// This word of it is none.
    Word(Vec<u8>),
    /// There is no word.
    Empty,
    NoMemory,
}

impl From<AllocError> for NoNumbers {
    ghost use Rattle.std.specs.Prelude.{◌≡◌};
    ghost use Rattle.cli_changes.specs.declared.approved.NoNumbers.TheVariants.{NoMemory};

    ghost from_gives = { λ _ why. why ≡ NoMemory };

    fn from(_error: AllocError) -> NoNumbers {
        NoNumbers::NoMemory
    }
}

impl<T: Drop> From<AllocFailed<T>> for NoNumbers {
    ghost use Rattle.std.specs.Prelude.{◌≡◌};
    ghost use Rattle.cli_changes.specs.declared.approved.NoNumbers.TheVariants.{NoMemory};

    ghost from_gives = { λ _ why. why ≡ NoMemory };

    fn from(_error: AllocFailed<T>) -> NoNumbers {
        NoNumbers::NoMemory
    }
}

/// The lines of a text.
fn lines_of(alloc: Global, text: &[u8]) -> Result<Vec<&[u8]>, AllocError>
    ensures { IfOk result (λ v. map (λ l. l.now) v.items ≡ slice_split is_line_end text.now) }
{
    text.split(|octet| *octet == b'\n').collect(alloc)
}

/// What stands before, between and after the blanks of a line.
fn parts_of(alloc: Global, line: &[u8]) -> Result<Vec<&[u8]>, AllocError>
    ensures { IfOk result (λ v. map (λ p. p.now) v.items
        ≡ slice_split is_ascii_whitespace line.now) }
{
    line.split(|octet| octet.is_ascii_whitespace())
        .collect(alloc)
}

/// Adds the words of a line, up to one that begins with #.
fn add_line<'t>(alloc: Global, words: &mut Vec<&'t [u8]>, line: &'t [u8]) -> Result<(), AllocError>
    ensures { OnOk result (map (λ w. w.now) words.new.items
        ≡ map (λ w. w.now) words.old.items ++ line_words line.now) }
{
    let parts = parts_of(alloc, line)?;
    for part in parts.as_slice() {
        if part.starts_with(b"#") {
            return Ok(());
        }
        if !part.is_empty() {
            words.push(*part)?;
        }
    }
    Ok(())
}

/// The words of the lines of a text, each line up to a word that begins with #.
fn words_of(alloc: Global, text: &[u8]) -> Result<Vec<&[u8]>, AllocError>
    ensures { IfOk result (λ v. map (λ w. w.now) v.items ≡ file_words text.now) }
{
    let lines = lines_of(alloc, text)?;
    let mut words = Vec::new(alloc);
    for line in lines.as_slice() {
        add_line(alloc, &mut words, *line)?;
    }
    Ok(words)
}

/// The numbers that words are, without a volume or with one. `Word` with the first one that is none.
fn numbers_of(alloc: Global, words: &[&[u8]]) -> Result<Numbers, NoNumbers>
    ensures numbers { IfOk result (AreTyped (map (λ w. w.now) words.now)) }
    ensures refused { IfErr result (IsRefused (map (λ w. w.now) words.now)) }
{
    let mut numbers = Numbers::none(alloc);
    for word in words {
        if !numbers.add(word)? {
            return Err(NoNumbers::Word(Vec::from_slice(alloc, word)?));
        }
    }
    Ok(numbers)
}

/// The numbers in a text, of which there is one at least.
fn numbers_in(alloc: Global, text: &[u8]) -> Result<Numbers, NoNumbers>
    ensures any { IfOk result (λ n. are_none n.alone.items n.of_volumes.items ≡ false) }
    ensures numbers { IfOk result (AreTyped (file_words text.now)) }
    ensures refused { IfErr result (IsRefused (file_words text.now)) }
{
    let words = words_of(alloc, text)?;
    if words.is_empty() {
        return Err(NoNumbers::Empty);
    }
    numbers_of(alloc, words.as_slice())
}

/// The failure of a file of numbers, or of standard input, for a reason.
fn failure_at<T: Display>(alloc: Global, status: Status, path: &str, reason: &T) -> Failure {
    if path == STANDARD_INPUT {
        Failure::at_thing(alloc, status, "standard input", reason)
    } else {
        Failure::at(alloc, status, path, reason)
    }
}

/// The octets of a file, or of standard input.
fn octets_at(rt: &HostRuntime, path: &str) -> io::Result<Payload> {
    if path == STANDARD_INPUT {
        read_payload(rt.alloc(), rt.stdin(), MOST)
    } else {
        payload_of_file(rt, path, MOST)
    }
}

/// The failure of a file that cannot be read.
fn unread(rt: &HostRuntime, path: &str, error: &io::Error) -> Failure {
    match error.kind() {
        ErrorKind::OutOfMemory => Failure::NoMemory,
        ErrorKind::NotFound => { failure_at(rt.alloc(), Status::NoInput, path, &"no such file") }
        _ => failure_at(rt.alloc(), Status::NoInput, path, error),
    }
}

/// The text of a file of numbers.
fn text_at(rt: &HostRuntime, path: &str) -> Result<Vec<u8>, Failure> {
    match octets_at(rt, path) {
        Ok(Payload::Whole(text)) => Ok(text),
        Ok(Payload::TooLong) => Err(failure_at(
            rt.alloc(),
            Status::Usage,
            path,
            &"more than 16,777,216 octets",
        )),
        Ok(Payload::NoMemory) => Err(Failure::NoMemory),
        Err(error) => Err(unread(rt, path, &error)),
    }
}

/// That a word is no numbers.
fn word_words(alloc: Global, word: &[u8]) -> Result<Shown, AllocError> {
    let mut text = Shown::new(alloc);
    text.quoted(word)?;
    text.words(
        " is neither a number of a record, as 3, nor a range of numbers, as 5-9; of a volume as 3/17 and 3/5-9",
    )?;
    Ok(text)
}

/// The failure of a file without numbers.
fn refused(alloc: Global, path: &str, why: NoNumbers) -> Failure {
    match why {
        NoNumbers::Word(word) => match word_words(alloc, word.as_slice()) {
            Ok(words) => failure_at(alloc, Status::Usage, path, &words),
            Err(AllocError) => Failure::NoMemory,
        },
        NoNumbers::Empty => failure_at(
            alloc,
            Status::Usage,
            path,
            &"no number of a record stands in it, so nothing is approved",
        ),
        NoNumbers::NoMemory => Failure::NoMemory,
    }
}

/// The numbers in a file, of which there is one at least.
fn approved_at(rt: &HostRuntime, path: &str) -> Result<Numbers, Failure>
    ensures { IfOk result (λ n. are_none n.alone.items n.of_volumes.items ≡ false) }
{
    let text = text_at(rt, path)?;
    match numbers_in(rt.alloc(), text.as_slice()) {
        Ok(numbers) => Ok(numbers),
        Err(why) => Err(refused(rt.alloc(), path, why)),
    }
}

/// A disposal of the records whose numbers are typed, or stand in the file of those that were approved: words with blanks and
/// line ends between them, each a number or a range, with a volume or without. What stands after a # in a line is passed over. `Usage`
/// where a word is none, and where there is no word: an empty file never stands for all records. `NoInput` where the file cannot be
/// read.
pub fn with_approved(rt: &HostRuntime, asked: DisposalAsked<'_>) -> Result<TypedDisposal, Failure>
    ensures { IfOk result (IsAsTyped asked.entry) }
{
    let DisposalAsked { typed, approved } = asked;
    match approved {
        None => Ok(typed),
        Some(path) => {
            let Numbers { alone, of_volumes } = approved_at(rt, path)?;
            let mut meant = typed;
            meant.alone.numbers = alone;
            meant.of_volumes = of_volumes;
            Ok(meant)
        }
    }
}
