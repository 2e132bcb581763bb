//! Help, at most 80 columns wide.

use std::alloc::AllocError;
use tool_texts::Shown;

/// How wide help is, in columns.
const COLUMNS: usize = 80;

/// What a line with the form of a command begins with.
const USAGE: &str = "Usage: ";

/// A line of help: blanks, what is told of, and what is told of it, which begins in a column of its own, counted from 0.
#[derive(Clone, Copy)]
struct Parts<'a> {
    indent: usize,
    label: &'a str,
    told: &'a str,
    column: usize,
}

/// The parts of a line. Two blanks or more stand between what is told of and what is told of it.
fn parts_of(line: &str) -> Parts<'_> {
    let text = line.trim_start();
    let indent = line.len().saturating_sub(text.len());
    if let Some(form) = line.strip_prefix(USAGE) {
        return Parts {
            indent,
            label: USAGE,
            told: form,
            column: USAGE.len(),
        };
    }
    match text.split_once("  ") {
        Some((label, after)) => {
            let told = after.trim_start();
            Parts {
                indent,
                label,
                told,
                column: line.len().saturating_sub(told.len()),
            }
        }
        None => Parts {
            indent,
            label: "",
            told: text,
            column: indent,
        },
    }
}

/// Adds blanks.
fn push_blanks(text: &mut Shown, count: usize) -> Result<(), AllocError> {
    for _ in 0..count {
        text.words(" ")?;
    }
    Ok(())
}

/// Adds words from a column on, and goes on there in a new line before a word that would pass the last column.
fn push_words(text: &mut Shown, words: &str, column: usize) -> Result<(), AllocError> {
    let mut at = column;
    for word in words.split_whitespace() {
        if at > column {
            if at.saturating_add(word.len()) < COLUMNS {
                text.words(" ")?;
                at = at.saturating_add(1);
            } else {
                text.end_line()?;
                push_blanks(text, column)?;
                at = column;
            }
        }
        text.value(&word)?;
        at = at.saturating_add(word.len());
    }
    Ok(())
}

/// Adds a line of help. It goes on below where it began, where it is wider than 80 columns.
pub fn push_wrapped(text: &mut Shown, line: &str) -> Result<(), AllocError> {
    let parts = parts_of(line);
    push_blanks(text, parts.indent)?;
    text.value(&parts.label)?;
    let taken = parts.indent.saturating_add(parts.label.len());
    push_blanks(text, parts.column.saturating_sub(taken))?;
    push_words(text, parts.told, parts.column)?;
    text.end_line()
}
