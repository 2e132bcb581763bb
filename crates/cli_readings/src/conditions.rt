//! Which records a command is about, as it can be typed.

use class_plan::Date;
use cli_console::put_typed;
use cli_texts::number_text;
use command_lines::archives::{Choice, TypedChoice, TypedNumbers};
use std::alloc::{AllocError, Global};
use tool_texts::Shown;

/// Whether a character means nothing but itself to a shell.
fn is_plain(c: char) -> bool {
    c.is_alphanumeric() || matches!(c, '-' | '_' | '.' | '/' | ':' | '@' | ',' | '+')
}

/// Whether a word means nothing but itself to a shell.
fn is_plain_word(word: &str) -> bool {
    for c in word.chars() {
        if !is_plain(c) {
            return false;
        }
    }
    !word.is_empty()
}

/// Adds a character of a word that stands between apostrophes.
fn push_quoted(text: &mut String, c: char) -> Result<(), AllocError> {
    match c {
        '\'' => text.push_str("'\\''"),
        _ => text.push(c),
    }
}

/// Adds a word after a blank, between apostrophes where a shell would read it otherwise. So a value that looks like other
/// conditions is one word.
fn push_word(text: &mut String, word: &str) -> Result<(), AllocError> {
    if !text.is_empty() {
        text.push(' ')?;
    }
    if is_plain_word(word) {
        return text.push_str(word);
    }
    text.push('\'')?;
    for c in word.chars() {
        push_quoted(text, c)?;
    }
    text.push('\'')
}

/// Adds an option with its value, if it is typed.
fn push_typed(text: &mut String, option: &str, value: Option<&str>) -> Result<(), AllocError> {
    if let Some(value) = value {
        push_word(text, option)?;
        push_word(text, value)?;
    }
    Ok(())
}

/// Adds an option with its day, if it is typed.
fn push_day(
    alloc: Global,
    text: &mut String,
    option: &str,
    day: Option<Date>,
) -> Result<(), AllocError> {
    match day {
        Some(day) => {
            let day = format!(in alloc; "{day}")?;
            push_typed(text, option, Some(day.as_str()))
        }
        None => Ok(()),
    }
}

/// Adds a flag, if it is typed.
fn push_flag(text: &mut String, flag: &str, is_typed: bool) -> Result<(), AllocError> {
    if is_typed {
        push_word(text, flag)?;
    }
    Ok(())
}

/// Adds numbers of records as they are typed; those of a volume after its number.
fn push_numbers(
    alloc: Global,
    text: &mut String,
    volume: Option<u32>,
    numbers: TypedNumbers,
) -> Result<(), AllocError> {
    let mut word = Shown::new(alloc);
    put_typed(&mut word, volume, numbers)?;
    push_word(text, word.as_str())
}

/// Adds the number from which on records are looked at, after that of its volume where it has one.
fn push_from(
    alloc: Global,
    text: &mut String,
    volume: Option<u32>,
    number: u32,
) -> Result<(), AllocError> {
    let from = number_text(alloc, volume, number)?;
    push_typed(text, "--from", Some(from.as_str()))
}

/// Adds the conditions of a choice.
fn push_conditions(
    alloc: Global,
    text: &mut String,
    choice: &Choice<'_>,
) -> Result<(), AllocError> {
    push_typed(text, "--sender", choice.sender)?;
    push_typed(text, "--recipient", choice.recipient)?;
    push_typed(text, "--subject", choice.subject)?;
    push_typed(text, "--where", choice.test)?;
    push_typed(text, "--class", choice.class)?;
    push_day(alloc, text, "--since", choice.since)?;
    push_day(alloc, text, "--until", choice.until)?;
    push_day(alloc, text, "--due", choice.due)?;
    push_flag(text, "--held", choice.is_held)?;
    push_flag(text, "--live", choice.is_live)?;
    push_flag(text, "--destroyed", choice.is_destroyed)
}

/// Adds the numbers of a choice, and that from which on records are looked at.
fn push_all_numbers(
    alloc: Global,
    text: &mut String,
    choice: &Choice<'_>,
) -> Result<(), AllocError> {
    if choice.from > 1 {
        push_from(alloc, text, None, choice.from)?;
    }
    for numbers in choice.numbers.as_slice() {
        push_numbers(alloc, text, None, *numbers)?;
    }
    Ok(())
}

/// The same of a choice over an archive of volumes.
fn push_numbers_of_volumes(
    alloc: Global,
    text: &mut String,
    typed: &TypedChoice<'_>,
) -> Result<(), AllocError> {
    if let Some(first) = typed.from {
        push_from(alloc, text, Some(first.volume), first.number)?;
    }
    for numbers in typed.of_volumes.as_slice() {
        push_numbers(alloc, text, Some(numbers.volume), numbers.numbers)?;
    }
    Ok(())
}

/// The conditions of a choice and its numbers, as they can be typed. None where nothing is asked for.
pub fn conditions_of(alloc: Global, choice: &Choice<'_>) -> Result<Option<String>, AllocError> {
    if choice.is_empty() {
        return Ok(None);
    }
    let mut text = String::new(alloc);
    push_conditions(alloc, &mut text, choice)?;
    push_all_numbers(alloc, &mut text, choice)?;
    Ok(Some(text))
}

/// The same of a choice over an archive of volumes, in which a number has its volume.
pub fn conditions_over(
    alloc: Global,
    typed: &TypedChoice<'_>,
) -> Result<Option<String>, AllocError> {
    if typed.is_empty() {
        return Ok(None);
    }
    let mut text = String::new(alloc);
    push_conditions(alloc, &mut text, &typed.alone)?;
    push_numbers_of_volumes(alloc, &mut text, typed)?;
    Ok(Some(text))
}
