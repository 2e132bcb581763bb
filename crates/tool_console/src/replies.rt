//! Replies with texts after their numbers.

ghost use Rattle.std.specs.Prelude.{◌≤◌, length};

use crate::failure::Failure;
use crate::files::{lines_of, read_file, read_line};
use crate::output::{write_line, write_text};
use std::alloc::{AllocError, Global};
use std::io::BufRead;
use std::str;
use tool_findings::{Finding, judge, push_words};
use tool_places::PlaceMap;
use tool_texts::{Payload, Shown, fault_text, put, refusal_text};

/// The greatest number of octets of a line that are shown before a place in it, and from there on.
const MAX_SHOWN: usize = 500;

/// The greatest number of octets of a character after its first one.
const MAX_CONTINUATION: usize = 3;

/// The script that was refused, and its path.
#[derive(Clone, Copy)]
struct Script<'a> {
    path: &'a str,
    places: &'a PlaceMap<'a>,
    /// The verdict on it; none where it is well made.
    verdict: Option<Finding>,
}

/// What a line of a reply says.
#[derive(Clone, Copy)]
enum Reply {
    /// A refusal by its number, and perhaps the offset at which it stands.
    Refused(u8, Option<usize>),
    /// A fault of a run.
    Fault(u8),
    /// Anything else.
    Other,
}

/// Reads a refusal from what follows its first word.
fn read_refusal(words: &str) -> Option<Reply> {
    match words.split_once(" at ") {
        Some((number, at)) => Some(Reply::Refused(number.parse().ok()?, Some(at.parse().ok()?))),
        None => Some(Reply::Refused(words.parse().ok()?, None)),
    }
}

/// Reads a line, which comes without its LF.
fn read_reply(line: &[u8]) -> Reply {
    let Ok(text) = str::from_utf8(line) else {
        return Reply::Other;
    };
    if let Some(words) = text.strip_prefix("refused ") {
        return read_refusal(words).unwrap_or(Reply::Other);
    }
    text.strip_prefix("fault ")
        .and_then(|words| words.parse().ok())
        .map_or(Reply::Other, Reply::Fault)
}

/// Adds a piece of a line, which ends at a mark or at the end of the line.
fn push_piece(text: &mut Shown, piece: &[u8]) -> Result<(), AllocError> {
    match piece {
        [rest @ .., b'"'] => put!(text; escaped(rest) "\""),
        [rest @ .., b'\\'] => put!(text; escaped(rest) "\\"),
        [rest @ .., b'\t'] => put!(text; escaped(rest) "    "),
        _ => text.escaped(piece),
    }
}

/// Adds a line as people read it: its quotation marks and backslashes as they are, and four blanks for a tab.
fn push_read(text: &mut Shown, line: &[u8]) -> Result<(), AllocError> {
    for piece in line.split_inclusive(|octet| matches!(*octet, b'"' | b'\\' | b'\t')) {
        push_piece(text, piece)?;
    }
    Ok(())
}

/// Adds a blank for each character of a text.
fn push_blanks(text: &mut Shown, shown: &Shown) -> Result<(), AllocError> {
    for _ in shown.as_str().chars() {
        text.words(" ")?;
    }
    Ok(())
}

/// Where the next character begins from an offset on, up to another. A character has at most four octets, so at most
/// three are passed over.
fn character_from(text: &[u8], from: usize, to: usize) -> usize
    requires order { from ≤ to }
    requires within { to ≤ length text.now }
    ensures least { from ≤ result }
    ensures most { result ≤ to }
{
    let to = to.min(from.saturating_add(MAX_CONTINUATION));
    for at in from..to {
        if !matches!(text[at], 0x80..=0xBF) {
            return at;
        }
    }
    to
}

/// The part of a line near an offset, and the column of the offset in it. Columns count from 1.
fn part_at(text: &[u8], at: usize, column: usize) -> (&[u8], usize) {
    let at = at.min(text.len());
    let before = column.saturating_sub(1).min(MAX_SHOWN);
    let start = character_from(text, at.saturating_sub(before), at);
    let after = text[at..]
        .iter()
        .take(MAX_SHOWN)
        .take_while(|octet| **octet != b'\n')
        .count();
    let end = at.saturating_add(after).min(text.len());
    let end = character_from(text, end, text.len());
    (&text[start..end], at - start + 1)
}

/// Adds the line of a script in which a place is, and a line with a mark below that column. Columns count from 1.
fn push_marked(
    alloc: Global,
    text: &mut Shown,
    line: &[u8],
    column: usize,
) -> Result<(), AllocError> {
    let (before, after) = line.split_at(line.len().min(column.saturating_sub(1)));
    let mut shown = Shown::new(alloc);
    push_read(&mut shown, before)?;
    put!(text; "  | " text(&shown))?;
    push_read(text, after)?;
    text.end_line()?;
    text.words("  | ")?;
    push_blanks(text, &shown)?;
    text.words("^")?;
    text.end_line()
}

/// The place of an offset of a script, the line in which it is, and a mark below it. Of a long line the part near the
/// offset is shown.
fn shown_place(alloc: Global, script: Script<'_>, at: usize) -> Result<Shown, AllocError> {
    let place = script.places.place(at);
    let mut text = Shown::new(alloc);
    put!(text;
        "  " named(script.path.as_bytes()) ":" value(&place.line) ":" value(&place.column)
    )?;
    text.end_line()?;
    let (line, column) = part_at(script.places.text(), at, place.column);
    let line = line.strip_suffix(b"\r").unwrap_or(line);
    push_marked(alloc, &mut text, line, column)?;
    Ok(text)
}

/// What is found first in a script, where that is what a refusal says: it has that number, and the offset that the reply
/// gives, if it gives one.
fn finding_of(script: Script<'_>, number: u8, told: Option<usize>) -> Option<Finding> {
    script
        .verdict
        .filter(|verdict| verdict.number == number)
        .filter(|verdict| told.map_or(true, |at| at == verdict.at))
}

/// Writes a line, which comes without its LF, and the text of its number.
fn write_explained(
    rt: &HostRuntime,
    line: &[u8],
    text: Option<&'static str>,
) -> Result<(), Failure> {
    let mut explained = Shown::new(rt.alloc());
    push_read(&mut explained, line)?;
    if let Some(text) = text {
        put!(explained; ": " words(text))?;
    }
    write_line(rt, &mut explained)
}

/// Writes a line, which comes without its LF, with what a finding in a script says, and the place of the finding.
fn write_found(
    rt: &HostRuntime,
    line: &[u8],
    script: Script<'_>,
    finding: &Finding,
) -> Result<(), Failure> {
    let mut explained = Shown::new(rt.alloc());
    push_read(&mut explained, line)?;
    explained.words(": ")?;
    push_words(&mut explained, script.places.text(), finding)?;
    write_line(rt, &mut explained)?;
    write_text(rt, &shown_place(rt.alloc(), script, finding.place)?)
}

/// Writes the line of a refusal of a script, which comes without its LF: with what is found there where that is what was
/// refused, or else with the text of its number; and with its place, where it is known.
fn explain_refusal(
    rt: &HostRuntime,
    line: &[u8],
    script: Script<'_>,
    number: u8,
    told: Option<usize>,
) -> Result<(), Failure> {
    if let Some(finding) = finding_of(script, number, told) {
        return write_found(rt, line, script, &finding);
    }
    write_explained(rt, line, refusal_text(number))?;
    match told {
        Some(at) => write_text(rt, &shown_place(rt.alloc(), script, at)?),
        None => Ok(()),
    }
}

/// Writes a line, which comes without its LF, with its explanation.
fn explain_line(rt: &HostRuntime, line: &[u8], script: Option<Script<'_>>) -> Result<(), Failure> {
    match read_reply(line) {
        Reply::Refused(number, told) => match script {
            Some(script) => explain_refusal(rt, line, script, number, told),
            None => write_explained(rt, line, refusal_text(number)),
        },
        Reply::Fault(number) => write_explained(rt, line, fault_text(number)),
        Reply::Other => write_explained(rt, line, None),
    }
}

/// Reads replies to the end of a reader, and writes each with its text.
fn explain_all<R: BufRead>(
    rt: &HostRuntime,
    reader: &mut R,
    script: Option<Script<'_>>,
) -> Result<(), Failure> {
    let alloc = rt.alloc();
    let mut line = Vec::new(alloc);
    for _ in 0..u64::MAX {
        if !read_line(alloc, reader, &mut line)? {
            break;
        }
        explain_line(rt, line.strip_suffix(b"\n").unwrap_or(&line), script)?;
    }
    Ok(())
}

/// Writes each reply that comes on standard input with the text of its number after it. Where the script of a file was
/// refused, what is wrong there is written in place of that text, as a check of the script has it, and its place follows.
pub fn explain(rt: &HostRuntime, script: Option<&str>) -> Result<(), Failure> {
    let mut replies = lines_of(rt.alloc(), rt.stdin())?;
    let Some(path) = script else {
        return explain_all(rt, &mut replies, None);
    };
    let text = read_file(rt, path, Payload::Script.limit())?;
    let places = PlaceMap::new(rt.alloc(), text.as_slice())?;
    let verdict = judge(rt.alloc(), text.as_slice())?.map(|report| report.verdict);
    let script = Script {
        path,
        places: &places,
        verdict,
    };
    explain_all(rt, &mut replies, Some(script))
}
