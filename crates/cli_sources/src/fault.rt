//! Why an officer has no rules.

ghost use Rattle.std.specs.Prelude.{◌≡◌};
ghost use Rattle.cli_sources.specs.Faults.{IsRefusedBy, is_of_rules as is_fault_of_rules};

use std::alloc::{AllocError, AllocFailed, Global};
use std::io;
use tool_texts::{Place, Shown, put, refusal_text};

/// Why an officer has no rules.
#[derive(Drop)]
pub enum RulesFault {
    /// The word is no officer's name that can be a folder's: 1 to 64 octets from 33 to 126 without `/`, not `global`, and
    /// not beginning with a dot.
    BadOfficer(String),
    /// There is no such folder or script.
    Missing(String),
    /// The folder or script at a path cannot be read.
    Unreadable(String, io::Error),
    /// The script at a path is refused by a number, at a place where one is known.
    Refused {
        path: String,
        place: Option<Place>,
        number: u8,
    },
    /// There was no memory.
    NoMemory,
}

impl RulesFault {
    /// The fault of a word that is no officer's name.
    pub(crate) fn bad_officer(alloc: Global, officer: &str) -> RulesFault {
        match String::from_str(alloc, officer) {
            Ok(officer) => RulesFault::BadOfficer(officer),
            Err(_) => RulesFault::NoMemory,
        }
    }

    /// The fault of a folder or script that cannot be read.
    pub(crate) fn unreadable(alloc: Global, path: &str, error: io::Error) -> RulesFault {
        match String::from_str(alloc, path) {
            Ok(path) if error.kind() == io::ErrorKind::NotFound => RulesFault::Missing(path),
            Ok(_) if error.kind() == io::ErrorKind::OutOfMemory => RulesFault::NoMemory,
            Ok(path) => RulesFault::Unreadable(path, error),
            Err(_) => RulesFault::NoMemory,
        }
    }

    /// The fault of a script that is refused.
    pub(crate) fn refused(alloc: Global, path: &str, place: Option<Place>, number: u8) -> RulesFault
        ensures { IsRefusedBy path.now number result }
    {
        match String::from_str(alloc, path) {
            Ok(path) => RulesFault::Refused {
                path,
                place,
                number,
            },
            Err(_) => RulesFault::NoMemory,
        }
    }

    /// Adds why there are no rules.
    fn push(&self, text: &mut Shown) -> Result<(), AllocError> {
        match self {
            RulesFault::BadOfficer(officer) => {
                put!(text; named(officer.as_bytes()) ": not a name of an officer")
            }
            RulesFault::Missing(path) => put!(text; named(path.as_bytes()) ": not there"),
            RulesFault::Unreadable(path, error) => {
                put!(text; named(path.as_bytes()) ": " value(error))
            }
            RulesFault::Refused {
                path,
                place,
                number,
            } => push_refused(text, path.as_str(), *place, *number),
            RulesFault::NoMemory => text.words("out of memory"),
        }
    }

    /// Why there are no rules, in words.
    pub fn text(&self, alloc: Global) -> Result<Shown, AllocError> {
        let mut text = Shown::new(alloc);
        self.push(&mut text)?;
        Ok(text)
    }

    /// Whether the officer's own rules are at fault: missing, or with a script that is refused.
    pub fn is_of_rules(&self) -> bool
        ensures { result ≡ is_fault_of_rules self.now }
    {
        matches!(self, RulesFault::Missing(_) | RulesFault::Refused { .. })
    }
}

/// Adds that a script is refused by a number, with its place where one is known.
fn push_refused(
    text: &mut Shown,
    path: &str,
    place: Option<Place>,
    number: u8,
) -> Result<(), AllocError> {
    text.named(path.as_bytes())?;
    if let Some(place) = place {
        put!(text; ":" value(&place.line) ":" value(&place.column))?;
    }
    put!(text; ": " value(&number) ": " words(refusal_text(number).unwrap_or("refused")))
}

impl From<AllocError> for RulesFault {
    fn from(_error: AllocError) -> RulesFault {
        RulesFault::NoMemory
    }
}

impl<T: Drop> From<AllocFailed<T>> for RulesFault {
    fn from(_error: AllocFailed<T>) -> RulesFault {
        RulesFault::NoMemory
    }
}
