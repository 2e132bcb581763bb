//! The words by which records get another class, and classes their titles.

use super::names;
use crate::table::{OPTION, Word};

/// The class that records get.
pub const TO: Word = Word {
    name: names::TO,
    value: "CLASS",
    is_required: true,
    help: Some("The class that they get: one of the plan, open or closed"),
    ..OPTION
};

/// The file of titles.
pub const NEW_TITLES: Word = Word {
    name: names::NEW_TITLES,
    value: "FILE",
    help: Some(
        "The file of the titles: for each class a table, as [\"finance/tax\"], with title and basis",
    ),
    ..OPTION
};
