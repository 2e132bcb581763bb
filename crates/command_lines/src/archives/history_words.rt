//! The words of histories: who makes a change and why, and what is asked of the events.

use super::names;
use crate::table::{FLAG, OPTION, Word};

/// Who makes a change.
pub const BY: Word = Word {
    name: names::BY,
    value: "NAME",
    help: Some(
        "Who does this, for the history: 1 to 64 visible ASCII characters; LOGNAME or USER of the environment if none is given",
    ),
    takes_hyphens: true,
    ..OPTION
};

/// For what reason a change is made.
pub const REASON: Word = Word {
    name: names::REASON,
    value: "TEXT",
    help: Some("For what reason, for the history: at most 500 octets in one line"),
    ..OPTION
};

pub const BEGIN: Word = Word {
    name: names::BEGIN,
    help: Some(
        "Begins the history of a store that has none: it states the plan, messages, records and holds that are there",
    ),
    ..FLAG
};

pub const REQUIRE_REASON: Word = Word {
    name: names::REQUIRE_REASON,
    help: Some("Requires --reason of hold, release, dispose --yes and plan --set from now on"),
    ..FLAG
};

pub const WAIVE_REASON: Word = Word {
    name: names::WAIVE_REASON,
    help: Some("Requires it no more, for a reason that --reason says"),
    ..FLAG
};

pub const ACCEPT_FOUND: Word = Word {
    name: names::ACCEPT_FOUND,
    help: Some(
        "Accepts what a program that keeps no history has left, for a reason that --reason says; until then release, refile, dispose --yes and a plan that keeps less are refused",
    ),
    ..FLAG
};

pub const EVENTS_SINCE: Word = Word {
    name: names::EVENTS_SINCE,
    value: "YYYY-MM-DD",
    help: Some("Events of this day or later, in UTC"),
    ..OPTION
};

/// The name by which events are chosen, or of who changes what a history is.
pub const CHOSEN_BY: Word = Word {
    help: Some(
        "Events that this name stands for; with --begin, --require-reason, --waive-reason or --accept-found, who does it",
    ),
    ..BY
};

pub const BEGIN_REASON: Word = Word {
    help: Some(
        "For what reason, with --begin, --require-reason, --waive-reason or --accept-found; the last two need one",
    ),
    ..REASON
};

pub const DEEDS: Word = Word {
    name: names::DEEDS,
    value: "WORD",
    help: Some(
        "Events of this kind: captured, held, released, refiled, destroyed, added, replaced, titled, made, found or accepted",
    ),
    ..OPTION
};

pub const HEAD: Word = Word {
    name: names::HEAD,
    value: "MARK",
    help: Some("Also says which event of the history has this mark, which was noted elsewhere"),
    conflict: Some("rules"),
    ..OPTION
};
