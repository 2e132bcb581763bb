//! The words with which old mail is taken in, and the one for a message that looks like none.

use super::names;
use crate::table::{FLAG, Form, OPTION, PLACE, Word};

/// What gives the moment of capture.
pub const DATED: Word = Word {
    name: names::DATED,
    value: "WHEN",
    is_required: true,
    help: Some(
        "The moment of each capture: received (that of the topmost Received field), date (that of the Date field), now, or the beginning of a day, as 2019-12-31",
    ),
    ..OPTION
};

pub const AGAIN: Word = Word {
    name: names::AGAIN,
    help: Some(
        "Captures messages too that are captured already for the officer, as the history has it",
    ),
    ..FLAG
};

pub const VERBOSE: Word = Word {
    name: names::VERBOSE,
    help: Some("Names each message that is captured already, with its first record"),
    conflict: Some("quiet"),
    ..FLAG
};

/// Where old mail is.
pub const SOURCES: Word = Word {
    name: names::SOURCES,
    form: Form::Places,
    value: "SOURCE",
    help: Some("An mbox, a folder of .eml files, or a Maildir; one or many"),
    ..PLACE
};

pub const AS_IS: Word = Word {
    name: names::AS_IS,
    help: Some("Captures it also where it is empty, an mbox, or without any header field"),
    ..FLAG
};
