//! What a run came to, event by event, so that two runs can be compared.

use crate::book::{Book, Mark};
use crate::narrator::{Narration, Told};
use crate::nodes::{Node, Thing};
use crate::way::push_told;
use crate::words::{push_mark, push_words};
use sieve_evaluator::{Act, Inclusion};
use sieve_meaning::{TestWord, test_word};
use std::alloc::{AllocError, Global};
use tool_texts::Shown;

/// A test with its answer, or a command with what it did.
#[derive(Drop)]
pub struct Event {
    /// The words of the script, and what it came to.
    pub words: String,
    /// The same after the script, line and column.
    pub line: String,
}

/// Whether something is an event: what a command did, or the answer of a test that is not made of tests.
fn is_event(node: Node<'_>, told: Told) -> bool {
    match (node.thing, told) {
        (Thing::Test(test), Told::Answered(_)) => !matches!(
            test_word(test.name.as_slice()),
            TestWord::Not | TestWord::AllOf | TestWord::AnyOf
        ),
        (_, Told::Reached | Told::Answered(_)) => false,
        (_, Told::Did(Act::Nothing | Act::Passes)) => false,
        _ => true,
    }
}

/// Adds what an event came to, without the path of a script.
fn push_outcome(
    text: &mut Shown,
    book: &Book<'_>,
    node: Node<'_>,
    told: Told,
) -> Result<(), AllocError> {
    match told {
        Told::Included(Inclusion::Enters) | Told::EnteredAgain => text.words(": runs it"),
        _ => push_told(text, book, node, told, None),
    }
}

/// The words of an event and what it came to.
fn event_words(
    alloc: Global,
    book: &Book<'_>,
    node: Node<'_>,
    told: Told,
) -> Result<String, AllocError> {
    let mut text = Shown::new(alloc);
    push_words(&mut text, node.thing)?;
    push_outcome(&mut text, book, node, told)?;
    Ok(text.into_string())
}

/// The same after the script, line and column.
fn event_line(
    alloc: Global,
    book: &Book<'_>,
    mark: Mark,
    node: Node<'_>,
    told: Told,
) -> Result<String, AllocError> {
    let mut text = Shown::new(alloc);
    push_mark(&mut text, book, mark)?;
    push_outcome(&mut text, book, node, told)?;
    Ok(text.into_string())
}

fn event_of(
    alloc: Global,
    book: &Book<'_>,
    mark: Mark,
    node: Node<'_>,
    told: Told,
) -> Result<Event, AllocError> {
    let words = event_words(alloc, book, node, told)?;
    let line = event_line(alloc, book, mark, node, told)?;
    Ok(Event { words, line })
}

/// The events of a run, in its order: each leaf of a test that was evaluated, with its answer, and each command that
/// did something. The only error is out of memory.
pub fn events_of(
    alloc: Global,
    book: &Book<'_>,
    narration: &Narration,
) -> Result<Vec<Event>, AllocError> {
    let mut events = Vec::new(alloc);
    for row in narration.rows.as_slice() {
        let Some(node) = book.node(row.mark) else {
            continue;
        };
        if is_event(node, row.told) {
            events.push(event_of(alloc, book, row.mark, node, row.told)?)?;
        }
    }
    Ok(events)
}
