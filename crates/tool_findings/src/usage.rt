//! The strings and numbers that commands and tests take.

use crate::rules::name_of;
use crate::subjects::Subject;
use crate::words::is_among;
use sieve_syntax::{Mark, Token, TokenKind};

/// What follows a name, without tags: how many strings or lists of strings, and how many numbers.
#[derive(Clone, Copy, PartialEq, Eq)]
struct Counts {
    strings: usize,
    numbers: usize,
}

/// A name with what it takes.
struct Usage {
    name: &'static str,
    counts: Counts,
    /// How it is written.
    form: &'static str,
}

/// No strings and no numbers.
const NOTHING: Counts = Counts {
    strings: 0,
    numbers: 0,
};

/// What each name takes.
const USAGES: &[Usage] = &[
    Usage {
        name: "header",
        counts: Counts {
            strings: 2,
            numbers: 0,
        },
        form: "the names of fields and then the texts to compare them with, as in header :contains \"subject\" \"invoice\"",
    },
    Usage {
        name: "exists",
        counts: Counts {
            strings: 1,
            numbers: 0,
        },
        form: "the names of fields alone, as in exists \"list-id\"",
    },
    Usage {
        name: "size",
        counts: Counts {
            strings: 0,
            numbers: 1,
        },
        form: ":over or :under and a number, as in size :over 100K",
    },
    Usage {
        name: "require",
        counts: Counts {
            strings: 1,
            numbers: 0,
        },
        form: "the names of capabilities, as in require [\"fileinto\", \"copy\"]",
    },
    Usage {
        name: "fileinto",
        counts: Counts {
            strings: 1,
            numbers: 0,
        },
        form: "the path of one class, as in fileinto \"finance\"",
    },
    Usage {
        name: "include",
        counts: Counts {
            strings: 1,
            numbers: 0,
        },
        form: "the name of one script, as in include \"invoices\"",
    },
];

/// The strings and numbers that follow a name, up to the next name or the end of its command.
fn counts_after(tokens: &[Token]) -> Counts {
    let mut counts = NOTHING;
    let mut is_listed = false;
    let mut is_compared = false;
    for token in tokens {
        let of_tag = is_compared;
        is_compared = false;
        match &token.kind {
            TokenKind::StringValue(_) if is_listed || of_tag => {}
            TokenKind::StringValue(_) => counts.strings = counts.strings.saturating_add(1),
            TokenKind::Number(_) => counts.numbers = counts.numbers.saturating_add(1),
            TokenKind::Tag(name) => is_compared = is_among(name.as_slice(), &["comparator"]),
            TokenKind::Mark(Mark::OpenBracket) => {
                is_listed = true;
                counts.strings = counts.strings.saturating_add(1);
            }
            TokenKind::Mark(Mark::CloseBracket) => is_listed = false,
            TokenKind::Mark(Mark::Comma) if is_listed => {}
            _ => break,
        }
    }
    counts
}

/// What a name takes, if it takes anything.
fn usage_of(name: &[u8]) -> Option<&'static Usage> {
    USAGES.iter().find(|usage| is_among(name, &[usage.name]))
}

/// How the command or test of a name is written, where it takes something else than what follows it.
fn form_broken(name: &[u8], following: &[Token]) -> Option<&'static str> {
    let counts = counts_after(following);
    match usage_of(name) {
        Some(usage) => (usage.counts != counts).then(|| usage.form),
        None => (counts != NOTHING).then(|| "no string and no number"),
    }
}

/// Whether the last name among these tokens takes a string more than those that follow it.
pub(crate) fn lacks_string(tokens: &[Token]) -> bool {
    let Some(place) = tokens.iter().rposition(|token| name_of(token).is_some()) else {
        return false;
    };
    let (before, following) = tokens.split_at(place.saturating_add(1).min(tokens.len()));
    before
        .last()
        .and_then(name_of)
        .and_then(usage_of)
        .is_some_and(|usage| counts_after(following).strings < usage.counts.strings)
}

/// The first name that takes one string outside brackets, or needs a tag, and how it is written.
fn narrow_name(tokens: &[Token]) -> Subject {
    for token in tokens {
        let narrow = name_of(token)
            .filter(|name| is_among(*name, &["size", "fileinto", "include"]))
            .and_then(usage_of);
        if let Some(usage) = narrow {
            return Subject::Arguments(token.start as usize, token.end as usize, usage.form);
        }
    }
    Subject::Whole
}

/// The first name of a command or test that takes other strings or numbers than those that follow it.
pub(crate) fn wrong_arguments(tokens: &[Token]) -> Subject {
    for (number, token) in tokens.iter().enumerate() {
        let following = &tokens[number.saturating_add(1).min(tokens.len())..];
        if let Some(form) = name_of(token).and_then(|name| form_broken(name, following)) {
            return Subject::Arguments(token.start as usize, token.end as usize, form);
        }
    }
    narrow_name(tokens)
}
