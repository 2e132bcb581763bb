//! What is wrong with a command, in words.

use crate::failure::Failure;
use std::alloc::{AllocError, Global};
use tool_texts::{LineFault, Shown, put, slots};

/// Adds what the words after the name of a command are, with commas between them.
fn push_slot_names(text: &mut Shown, name: &[u8]) -> Result<(), AllocError> {
    for (place, slot) in slots(name).iter().enumerate() {
        if place > 0 {
            text.words(", ")?;
        }
        text.words(slot.name())?;
    }
    Ok(())
}

/// Adds that there is no command of this name.
fn push_unknown(text: &mut Shown, name: &[u8]) -> Result<(), AllocError> {
    put!(text; "there is no command " quoted(name) " (70)")
}

/// Adds that a command has another number of words after its name than the one that is wanted.
fn push_count(
    text: &mut Shown,
    name: &[u8],
    wanted: usize,
    count: usize,
) -> Result<(), AllocError> {
    let noun = if wanted == 1 { "word" } else { "words" };
    put!(text; value(&wanted) " " words(noun) " must follow " named(name) ", namely ")?;
    push_slot_names(text, name)?;
    put!(text; ", and not " value(&count) " (71)")?;
    if count > wanted {
        text.words("; a path with spaces stands in quotation marks, as in @\"my mail.eml\"")?;
    }
    Ok(())
}

/// Adds that a word of a command has not its form, by its place after the name.
fn push_wrong_word(
    text: &mut Shown,
    name: &[u8],
    place: usize,
    word: &[u8],
) -> Result<(), AllocError> {
    let number = place.saturating_add(1);
    let form = slots(name).get(place).map_or("", |slot| slot.text());
    put!(text;
        "word " value(&number) " of " named(name)
        " must be " words(form) ", and not " quoted(word) " (71)"
    )
}

/// Adds what is wrong with a line: a word of it by its place after the name, and the form that it must have.
fn push_fault(text: &mut Shown, line: &[u8], fault: LineFault) -> Result<(), AllocError> {
    let mut words = line.split(|octet| *octet == b' ');
    let name = words.next().unwrap_or(b"");
    match fault {
        LineFault::TooLong => text.words("the line has more than 512 octets (73)"),
        LineFault::UnknownCommand => push_unknown(text, name),
        LineFault::WordCount(wanted) => push_count(text, name, wanted, words.count()),
        LineFault::WrongWord(place) => {
            push_wrong_word(text, name, place, words.nth(place).unwrap_or(b""))
        }
    }
}

/// The failure of a line, which comes without its LF.
pub fn failure_of(alloc: Global, line: &[u8], fault: LineFault) -> Failure {
    let mut text = Shown::new(alloc);
    let done = push_fault(&mut text, line, fault);
    Failure::of(done.map(|()| text))
}
