//! What a finding in a script says.

use crate::findings::Finding;
use crate::subjects::Subject;
use std::alloc::AllocError;
use std::str;
use tool_texts::{Shown, put, refusal_text};

/// The greatest number of octets of a word that are shown.
const MAX_SHOWN: usize = 60;

/// The text of a refusal's number.
fn text_of(number: u8) -> &'static str {
    refusal_text(number).unwrap_or("refused")
}

/// What is wrong with a word, by the number of the refusal.
fn fault_of_word(number: u8) -> &'static str {
    match number {
        30 => "unknown capability",
        32 => "unknown command",
        33 => "unknown test",
        36 => "this tag stands twice, or beside another of its kind:",
        38 => "unknown comparator",
        _ => "this tag may not stand here:",
    }
}

/// A part of a text: at most sixty octets, and no part of a character.
fn part(text: &[u8], start: usize, end: usize) -> &[u8] {
    let end = end.min(text.len());
    let word = &text[start.min(end)..end];
    let shown = &word[..word.len().min(MAX_SHOWN)];
    match str::from_utf8(shown) {
        Err(error) if shown.len() < word.len() => &shown[..error.valid_up_to().min(shown.len())],
        _ => shown,
    }
}

/// The octets of a word as they are shown: without quotation marks, and at most sixty.
fn shown_word(text: &[u8], start: usize, end: usize) -> &[u8] {
    let word = part(text, start, end);
    let word = word.strip_prefix(b"\"").unwrap_or(word);
    word.strip_suffix(b"\"").unwrap_or(word)
}

/// Adds what is wrong with a word, and the word that was meant or else what the rule advises, if there is either.
fn push_word(
    line: &mut Shown,
    number: u8,
    word: &[u8],
    meant: Option<&'static str>,
) -> Result<(), AllocError> {
    put!(line; words(fault_of_word(number)) " " quoted(word))?;
    match (meant, text_of(number).split_once("; ")) {
        (Some(name), _) => put!(line; "; is it " words(name) "?"),
        (None, Some((_, advice))) => put!(line; "; " words(advice)),
        (None, None) => Ok(()),
    }
}

/// The number with which a word begins, with the unit that its letters may mean.
fn number_meant(word: &[u8]) -> (&[u8], &'static str) {
    let digits = word
        .iter()
        .take_while(|octet| octet.is_ascii_digit())
        .count();
    let (digits, letters) = word.split_at(digits.min(word.len()));
    let unit = match letters.first().map(|octet| octet.to_ascii_uppercase()) {
        Some(b'K') => "K",
        Some(b'M') => "M",
        Some(b'G') => "G",
        _ => "",
    };
    (digits, unit)
}

/// Adds that letters after a number are no unit.
fn push_unit(line: &mut Shown, word: &[u8]) -> Result<(), AllocError> {
    let (digits, unit) = number_meant(word);
    put!(line;
        quoted(word) " is no number; write " escaped(digits) words(unit)
        ", since K, M and G are all the units"
    )
}

/// Adds that a word stands between two tests that another test joins.
fn push_joined(line: &mut Shown, word: &[u8], name: &'static str) -> Result<(), AllocError> {
    put!(line;
        quoted(word) " joins no tests; write " words(name) " (TEST, TEST)"
    )
}

/// Adds that a test follows another one, which no test joins to it.
fn push_unjoined(line: &mut Shown, word: &[u8]) -> Result<(), AllocError> {
    put!(line;
        quoted(word) " is a second test; write allof (TEST, TEST) where both are to hold, "
        "or anyof (TEST, TEST) where one is enough"
    )
}

/// Adds that a mark of typography stands where a plain one must.
fn push_typographic(line: &mut Shown, mark: &[u8], plain: &'static str) -> Result<(), AllocError> {
    match plain {
        "\"" =>
            put!(line; escaped(mark) " is no quotation mark of a script; write \" before and after a string"),
        " " => line.words("this space is one that does not break; write a plain one"),
        _ => put!(line; escaped(mark) " is no mark of a script; write " words(plain)),
    }
}

/// The words of a subject of which something is said whatever they are, by their offsets, and what that is.
fn said_of(subject: Subject) -> Option<(usize, usize, &'static str)> {
    match subject {
        Subject::Surplus(start, end) => Some((start, end, " is too much here")),
        Subject::Unquoted(start, end) => {
            Some((start, end, " is no string; write it in quotation marks"))
        }
        Subject::Untagged(start, end) => {
            Some((start, end, " is a tag; write it with a colon before it"))
        }
        Subject::TestAlone(start, end) => {
            Some((start, end, " is a test and no command; write if before it"))
        }
        _ => None,
    }
}

/// Adds what a finding about some words says.
fn push_subject(line: &mut Shown, text: &[u8], finding: &Finding) -> Result<(), AllocError> {
    match finding.subject {
        Subject::Word(start, end, meant) => {
            push_word(line, finding.number, shown_word(text, start, end), meant)
        }
        Subject::Instead(start, end, word) => {
            put!(line; "write " words(word) " in place of " quoted(part(text, start, end)))
        }
        Subject::Unit(start, end) => push_unit(line, part(text, start, end)),
        Subject::Joined(start, end, name) => push_joined(line, part(text, start, end), name),
        Subject::Unjoined(start, end) => push_unjoined(line, part(text, start, end)),
        Subject::Typographic(start, end, plain) => {
            push_typographic(line, part(text, start, end), plain)
        }
        Subject::Arguments(start, end, form) => {
            put!(line; escaped(part(text, start, end)) " takes " words(form))
        }
        subject => match said_of(subject) {
            Some((start, end, said)) => put!(line; quoted(part(text, start, end)) words(said)),
            None => line.words(text_of(finding.number)),
        },
    }
}

/// Adds what a finding in a text says.
pub fn push_words(line: &mut Shown, text: &[u8], finding: &Finding) -> Result<(), AllocError> {
    match finding.subject {
        Subject::Missing(_, what) if what.len() == 1 =>
            put!(line; "a " words(what) " is missing here"),
        Subject::Missing(_, what) => put!(line; words(what) " is missing here"),
        Subject::OpenBlock(_) => line.words(
            "the block that begins here is not closed; write } at its end",
        ),
        Subject::ByteOrderMark => {
            line.words("the file begins with a byte order mark; save it as UTF-8 without one")
        }
        Subject::Capability(_, name) => put!(line;
            "\"" words(name) "\" is not required; name it in a require at the script's beginning"
        ),
        _ => push_subject(line, text, finding),
    }
}
