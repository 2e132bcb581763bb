//! The lines of events, as a history is printed.

ghost use Rattle.std.specs.Prelude.{◌≡◌, ◌++◌, None, Some, map, IfOk, OnOk};
ghost use Rattle.std.specs.List.{slice_split};
ghost use Rattle.cli_texts.specs.HistoryLines.{blank_before, history_text, is_at as is_place_at, is_blank, is_number_at, line_in, volume_before, words_in};

use crate::events::put_text;
use std::alloc::{AllocError, Global};
use tool_texts::Shown;

/// Which words of the line of an event are numbers of records, counted from 0. The first word is the number of the event.
#[derive(Clone, Copy)]
pub struct NumberPlaces {
    /// That of the record which the deed is about.
    pub of_record: Option<usize>,
    /// That of a message, which is the number of its first record.
    pub of_message: Option<usize>,
}

/// Whether a place is this one.
fn is_at(place: Option<usize>, at: usize) -> bool
    ensures { result ≡ is_place_at place at }
{
    match place {
        Some(place) => place == at,
        None => false,
    }
}

impl NumberPlaces {
    /// No other word than the first is a number.
    pub fn none() -> NumberPlaces
        ensures { result ≡ record { of_record = None; of_message = None } }
    {
        NumberPlaces {
            of_record: None,
            of_message: None,
        }
    }

    /// Whether the word at a place is the number of an event, of a record or of a message.
    fn has(self, at: usize) -> bool
        ensures { result ≡ is_number_at self at }
    {
        at == 0 || is_at(self.of_record, at) || is_at(self.of_message, at)
    }
}

/// The words of a line, between its blanks.
fn words_of(alloc: Global, line: &[u8]) -> Result<Vec<&[u8]>, AllocError>
    ensures { IfOk result (λ v. map (λ w. w.now) v.items ≡ slice_split is_blank line.now) }
{
    line.split(|octet| *octet == b' ').collect(alloc)
}

/// Adds the blank before a word, unless it is the first.
fn push_blank(line: &mut Vec<u8>, at: usize) -> Result<(), AllocError>
    ensures { OnOk result (line.new.items ≡ line.old.items ++ blank_before at) }
{
    if at == 0 {
        return Ok(());
    }
    line.push(b' ')?;
    Ok(())
}

/// Adds the number of a volume before a word that is a number.
fn push_volume(line: &mut Vec<u8>, volume: &str, is_number: bool) -> Result<(), AllocError>
    ensures { OnOk result (line.new.items ≡ line.old.items ++ volume_before volume.now is_number) }
{
    if !is_number {
        return Ok(());
    }
    line.extend_from_slice(volume.as_bytes())?;
    line.push(b'/')?;
    Ok(())
}

/// Adds the words of a line, each number after that of a volume.
fn push_words(
    line: &mut Vec<u8>,
    volume: &str,
    places: NumberPlaces,
    words: &[&[u8]],
) -> Result<(), AllocError>
    ensures { OnOk result (line.new.items ≡ line.old.items
        ++ words_in volume.now places 0 (map (λ w. w.now) words.now)) }
{
    for (at, word) in words.iter().enumerate() {
        push_blank(line, at)?;
        push_volume(line, volume, places.has(at))?;
        line.extend_from_slice(word)?;
    }
    Ok(())
}

/// The line of an event in a volume, whose number stands before each number of an event, a record or a message.
fn line_in_volume(
    alloc: Global,
    volume: u32,
    places: NumberPlaces,
    line: &[u8],
) -> Result<Vec<u8>, AllocError>
    ensures { IfOk result (λ v. v.items ≡ line_in (Some volume) places line.now) }
{
    let volume = format!(in alloc; "{volume}")?;
    let words = words_of(alloc, line)?;
    let mut named = Vec::new(alloc);
    push_words(&mut named, volume.as_str(), places, words.as_slice())?;
    Ok(named)
}

/// The text of a line, and the end of the line: as it is, where no character of it is hidden.
fn shown_line(alloc: Global, line: &[u8]) -> Result<Shown, AllocError>
    ensures { IfOk result (λ text. text ≡ history_text line.now) }
{
    let mut text = Shown::new(alloc);
    put_text(&mut text, line)?;
    text.end_line()?;
    Ok(text)
}

/// The line of an event, and the end of the line: as it is hashed, where no character of it is hidden. In a volume the number of the
/// volume stands before those of the event, of records and of messages, as in `3/17 2031-01-01T09:30:00Z ann held audit 3/4`.
///
/// The only refusal is no memory (99).
pub fn history_line(
    alloc: Global,
    volume: Option<u32>,
    places: NumberPlaces,
    line: &[u8],
) -> Result<Shown, AllocError>
    ensures { IfOk result (λ text. text ≡ history_text (line_in volume places line.now)) }
{
    match volume {
        Some(volume) => {
            let named = line_in_volume(alloc, volume, places, line)?;
            shown_line(alloc, named.as_slice())
        }
        None => shown_line(alloc, line),
    }
}
