//! Commands with the paths of files in place of lengths.

use crate::clock::now;
use crate::failure::Failure;
use crate::faults::failure_of;
use crate::files::{lines_of, open, read_file, read_line};
use crate::output::{copy_to_output, write_data};
use std::alloc::{AllocError, Global};
use std::io::BufRead;
use std::str;
use tool_texts::{Framed, LinePart, Payload, Shown, framed_line, line_fault, parts, path_of, put};

/// The octets of a payload's file, whose path is given as typed.
fn read_payload(rt: &HostRuntime, kind: Payload, typed: &[u8]) -> Result<Vec<u8>, Failure> {
    let path = str::from_utf8(path_of(typed)).map_err(|_| Failure::told(
        rt.alloc(),
        "a path is not UTF-8",
    ))?;
    read_file(rt, path, kind.limit())
}

/// What replaces a part of a command in a session.
fn framed<'a>(rt: &HostRuntime, part: LinePart<'a>) -> Result<Framed<'a>, Failure> {
    match part {
        LinePart::Word(word) => Ok(Framed::Word(word)),
        LinePart::Here(word, count) => Ok(Framed::Here(word, count)),
        LinePart::Moment => Ok(Framed::Moment(now(rt)?)),
        LinePart::File(kind, path) => Ok(Framed::File(read_payload(rt, kind, path)?)),
    }
}

/// The words of a command, with its files read.
fn read_words<'a>(rt: &HostRuntime, parts: &[LinePart<'a>]) -> Result<Vec<Framed<'a>>, Failure> {
    let mut words = Vec::new(rt.alloc());
    for part in parts.iter() {
        words.push(framed(rt, *part)?)?;
    }
    Ok(words)
}

/// What stands for a part of a command before its files are read: 0 for a moment, and an empty file for each other one.
fn outlined<'a>(alloc: Global, part: LinePart<'a>) -> Framed<'a> {
    match part {
        LinePart::Word(word) => Framed::Word(word),
        LinePart::Here(word, count) => Framed::Here(word, count),
        LinePart::Moment => Framed::Moment(0),
        LinePart::File(_, _) => Framed::File(Vec::new(alloc)),
    }
}

/// The words of a command before its files are read.
fn outline<'a>(alloc: Global, parts: &[LinePart<'a>]) -> Result<Vec<Framed<'a>>, AllocError> {
    let mut words = Vec::new(alloc);
    for part in parts.iter() {
        words.push(outlined(alloc, *part))?;
    }
    Ok(words)
}

/// Refuses a line after which a session would not read as many octets as the line says.
fn judge_line(alloc: Global, line: &[u8]) -> Result<(), Failure> {
    let command = line.strip_suffix(b"\n").unwrap_or(line);
    match line_fault(alloc, command)? {
        Some(fault) => Err(failure_of(alloc, command, fault)),
        None => Ok(()),
    }
}

/// The line of these words, with its LF. Refused as `judge_line` does.
fn sound_line(alloc: Global, words: &[Framed<'_>]) -> Result<Vec<u8>, Failure> {
    let line = framed_line(alloc, words)?;
    judge_line(alloc, &line)?;
    Ok(line)
}

/// The words of a command, with its files read. Nothing is read for a line that is refused.
fn framed_words<'a>(rt: &HostRuntime, line: &'a [u8]) -> Result<Vec<Framed<'a>>, Failure> {
    let parts = parts(rt.alloc(), line)?;
    let outline = outline(rt.alloc(), &parts)?;
    sound_line(rt.alloc(), &outline)?;
    read_words(rt, &parts)
}

/// Writes the octets that follow a line for one of its words.
fn write_octets<R: BufRead>(
    rt: &HostRuntime,
    word: &Framed<'_>,
    reader: &mut R,
) -> Result<(), Failure> {
    match word {
        Framed::File(octets) => write_data(rt, octets),
        Framed::Here(_, count) => copy_to_output(rt, reader, u64::from(*count)),
        Framed::Word(_) | Framed::Moment(_) => Ok(()),
    }
}

/// Writes a command: its line, and the octets that follow it.
fn write_words<R: BufRead>(
    rt: &HostRuntime,
    words: &[Framed<'_>],
    reader: &mut R,
) -> Result<(), Failure> {
    write_data(rt, &sound_line(rt.alloc(), words)?)?;
    for word in words.iter() {
        write_octets(rt, word, reader)?;
    }
    Ok(())
}

/// Frames a command. Nothing of it is written before all its files are read and its line is judged.
fn frame_line<R: BufRead>(rt: &HostRuntime, line: &[u8], reader: &mut R) -> Result<(), Failure> {
    let words = framed_words(rt, line)?;
    write_words(rt, &words, reader)
}

/// A text after the number of a line.
fn text_at_line(alloc: Global, number: u64, text: &Shown) -> Result<Shown, AllocError> {
    let mut numbered = Shown::new(alloc);
    put!(numbered; "line " value(&number) ": " text(text))?;
    Ok(numbered)
}

/// A failure with the number of the line at which it came.
fn at_line(alloc: Global, number: u64, failure: Failure) -> Failure {
    let Failure::Message(text) = failure else {
        return failure;
    };
    Failure::of(text_at_line(alloc, number, &text))
}

/// Frames the commands of a reader up to its end. A last line without LF is no command, and is written as it is.
fn frame_all<R: BufRead>(rt: &HostRuntime, reader: &mut R) -> Result<(), Failure> {
    let alloc = rt.alloc();
    let mut line = Vec::new(alloc);
    for number in 0..u64::MAX {
        if !read_line(alloc, reader, &mut line)? {
            break;
        }
        let Some(command) = line.strip_suffix(b"\n") else {
            return write_data(rt, &line);
        };
        if let Err(failure) = frame_line(rt, command, reader) {
            return Err(at_line(alloc, number.saturating_add(1), failure));
        }
    }
    Ok(())
}

/// Frames the commands of a file, or of standard input where none is named: each is written to standard output as a
/// session takes it. A failure at a command has the number of its line.
pub fn frame(rt: &HostRuntime, file: Option<&str>) -> Result<(), Failure> {
    match file {
        Some(path) => frame_all(rt, &mut lines_of(rt.alloc(), open(rt, path)?)?),
        None => frame_all(rt, &mut lines_of(rt.alloc(), rt.stdin())?),
    }
}
