//! Commands and tests in the words of the script, and their places.

use crate::book::{Book, Mark};
use crate::nodes::Thing;
use sieve_syntax::{Argument, StringList};
use std::alloc::{AllocError, Global};
use tool_texts::{Shown, put};

/// Adds strings in quotation marks, in brackets where they were written so.
fn push_strings(text: &mut Shown, strings: &StringList) -> Result<(), AllocError> {
    match strings {
        StringList::One(only) => text.quoted(only.as_slice()),
        StringList::Listed(first, others) => {
            put!(text; "[" quoted(first.as_slice()))?;
            for other in others.as_slice() {
                put!(text; ", " quoted(other.as_slice()))?;
            }
            text.words("]")
        }
    }
}

/// Adds arguments, each after a space.
fn push_arguments(text: &mut Shown, arguments: &[Argument]) -> Result<(), AllocError> {
    for argument in arguments {
        text.words(" ")?;
        match argument {
            Argument::Strings(strings) => push_strings(text, strings)?,
            Argument::Number(number) => text.value(number)?,
            Argument::Tag(tag) => put!(text; ":" named(tag.as_slice()))?,
        }
    }
    Ok(())
}

/// Adds the name and the arguments of a command or a test, as the script has them.
pub fn push_words(text: &mut Shown, thing: Thing<'_>) -> Result<(), AllocError> {
    let (name, arguments) = match thing {
        Thing::Command(command) => (command.name.as_slice(), command.arguments.as_slice()),
        Thing::Test(test) => (test.name.as_slice(), test.arguments.as_slice()),
    };
    text.named(name)?;
    push_arguments(text, arguments)
}

/// Adds the name and the arguments of what a mark is of; nothing where it is of nothing.
fn push_words_at(text: &mut Shown, book: &Book<'_>, mark: Mark) -> Result<(), AllocError> {
    match book.node(mark) {
        Some(node) => push_words(text, node.thing),
        None => Ok(()),
    }
}

/// The name and the arguments of what a mark is of; empty where it is of nothing.
pub fn words_at(alloc: Global, book: &Book<'_>, mark: Mark) -> Result<Shown, AllocError> {
    let mut text = Shown::new(alloc);
    push_words_at(&mut text, book, mark)?;
    Ok(text)
}

/// Adds the name that a page is shown by; nothing where there is no such page.
pub fn push_label(text: &mut Shown, book: &Book<'_>, page: usize) -> Result<(), AllocError> {
    match book.pages.get(page) {
        Some(page) => text.named(page.label),
        None => Ok(()),
    }
}

/// Adds the line and the column of a mark, as `3:5`; nothing where it has no place.
pub fn push_place(text: &mut Shown, book: &Book<'_>, mark: Mark) -> Result<(), AllocError> {
    match book.place(mark) {
        Some(place) => put!(text; value(&place.line) ":" value(&place.column)),
        None => Ok(()),
    }
}

/// Adds a mark with its script, place and words, as `main.sieve:3:5 fileinto "finance"`.
pub fn push_mark(text: &mut Shown, book: &Book<'_>, mark: Mark) -> Result<(), AllocError> {
    push_label(text, book, mark.page)?;
    text.words(":")?;
    push_place(text, book, mark)?;
    text.words(" ")?;
    push_words_at(text, book, mark)
}
