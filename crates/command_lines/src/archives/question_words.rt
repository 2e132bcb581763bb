//! The words with which records are asked for: by their numbers, and by conditions that they meet.

use super::names;
use crate::table::{FLAG, Form, Hint, OPTION, PLACE, Word};

/// The numbers of records, and ranges of them.
pub const NUMBERS: Word = Word {
    name: names::NUMBERS,
    form: Form::Places,
    value: "NUMBER",
    is_required: false,
    help: Some(
        "The records with these numbers, as 3, or in these ranges, as 5-9; of a volume as 3/17 and 3/5-9",
    ),
    ..PLACE
};

pub const NUMBER: Word = Word {
    name: names::NUMBER,
    value: "NUMBER",
    help: Some("The number of the record, as list prints it"),
    ..PLACE
};

pub const FROM: Word = Word {
    name: names::FROM,
    value: "N",
    help: Some("Records with this number or a greater one"),
    ..OPTION
};

pub const CLASS: Word = Word {
    name: names::CLASS,
    value: "PATH",
    help: Some("Records of this class and of those below it"),
    ..OPTION
};

pub const SINCE: Word = Word {
    name: names::SINCE,
    value: "YYYY-MM-DD",
    help: Some("Records that were captured on this day or later"),
    ..OPTION
};

pub const UNTIL: Word = Word {
    name: names::UNTIL,
    value: "YYYY-MM-DD",
    help: Some("Records that were captured on this day or before"),
    ..OPTION
};

pub const DUE: Word = Word {
    name: names::DUE,
    value: "YYYY-MM-DD",
    help: Some("Records that are due by this day, which is not later than today"),
    ..OPTION
};

pub const HELD: Word = Word {
    name: names::HELD,
    help: Some("Records that a hold keeps"),
    ..FLAG
};

pub const LIVE: Word = Word {
    name: names::LIVE,
    help: Some("Records that are not destroyed"),
    ..FLAG
};

pub const DESTROYED: Word = Word {
    name: names::DESTROYED,
    help: Some("Records that are destroyed"),
    conflict: Some("live"),
    ..FLAG
};

pub const WHERE: Word = Word {
    name: names::WHERE,
    value: "TEST",
    help: Some(
        "Records whose message meets this test, written as in a rule; none that are destroyed",
    ),
    ..OPTION
};

pub const SENDER: Word = Word {
    name: names::SENDER,
    value: "TEXT",
    help: Some(
        "Records whose message has this text in its senders, whatever the case of its letters",
    ),
    ..OPTION
};

pub const RECIPIENT: Word = Word {
    name: names::RECIPIENT,
    value: "TEXT",
    help: Some("Records whose message has this text in its recipients"),
    ..OPTION
};

pub const SUBJECT: Word = Word {
    name: names::SUBJECT,
    value: "TEXT",
    help: Some("Records whose message has this text in its subject"),
    ..OPTION
};

/// The conditions of a choice of records.
pub const CONDITIONS: &[Word] = &[
    SENDER, RECIPIENT, SUBJECT, WHERE, CLASS, SINCE, UNTIL, DUE, HELD, LIVE, DESTROYED,
];

/// What people type for conditions.
pub const HINTS: &[Hint] = &[
    Hint {
        typed: "--to",
        meant: "--recipient",
    },
    Hint {
        typed: "--cc",
        meant: "--recipient",
    },
    Hint {
        typed: "--after",
        meant: "--since",
    },
    Hint {
        typed: "--before",
        meant: "--until",
    },
];
