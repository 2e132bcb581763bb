//! The words with which mail is captured: by which rules, as of which moment, and from where.

use super::names;
use crate::table::{FLAG, OPTION, PLACE, Word};

/// The rules by which mail is filed.
pub const RULES: Word = Word {
    name: names::RULES,
    value: "FOLDER",
    is_required: true,
    help: Some(
        "The folder of the rules: OFFICER/main.sieve, and global/NAME.sieve for all officers",
    ),
    ..OPTION
};

pub const OFFICER: Word = Word {
    name: names::OFFICER,
    value: "OFFICER",
    help: Some(
        "The officer by whose rules mail is filed: the name of a folder in that of the rules",
    ),
    ..PLACE
};

pub const UNFILED_ON_FAULT: Word = Word {
    name: names::UNFILED_ON_FAULT,
    help: Some(
        "Captures mail in unfiled where the officer or a script is missing, or a script or a run is at fault",
    ),
    ..FLAG
};

pub const AT: Word = Word {
    name: names::AT,
    value: "MOMENT",
    help: Some(
        "The moment of the capture, not later than now: in seconds since 1970, or YYYY-MM-DD for the beginning of a day in UTC; now takes the clock as it is; if none is given, the clock, unless it stands before the days of the store",
    ),
    ..OPTION
};

pub const LIMIT: Word = Word {
    name: names::LIMIT,
    value: "SECONDS",
    help: Some(
        "How long the rules may work on a message, from 1 second to 86,400; 60 if none is given. After that it is not captured",
    ),
    ..OPTION
};

pub const QUIET: Word = Word {
    name: names::QUIET,
    help: Some("Tells nothing of what is captured, only of messages that stay and of faults"),
    ..FLAG
};

pub const TIMES: Word = Word {
    name: names::TIMES,
    help: Some("Begins each line with the time of day in UTC, as for a log"),
    ..FLAG
};

pub const MAILDIR: Word = Word {
    name: names::MAILDIR,
    value: "MAILDIR",
    help: Some("The folder of the mail, which has the folders new and cur"),
    ..PLACE
};
