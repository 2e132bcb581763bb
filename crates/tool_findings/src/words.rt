//! The words that a script may use, and the nearest of them to a word that is none.

ghost use Rattle.std.specs.Prelude.{◌≡◌};
ghost use Rattle.std.specs.List.{list_any};
ghost use Rattle.std.specs.Str.{str_eq_ignore_ascii_case};

use std::alloc::{AllocError, Global};
use std::str;
use strsim::osa_distance;

/// The names of commands.
pub const COMMANDS: &[&str] = &[
    "require", "if", "elsif", "else", "stop", "keep", "discard", "return", "fileinto", "include",
];

/// The names of the commands that have a block.
pub const BRANCHES: &[&str] = &["if", "elsif", "else"];

/// The names of tests.
pub const TESTS: &[&str] = &[
    "header", "exists", "size", "not", "allof", "anyof", "true", "false",
];

/// The names of tags, without their colon.
pub const TAGS: &[&str] = &[
    "comparator",
    "is",
    "contains",
    "matches",
    "over",
    "under",
    "copy",
    "personal",
    "global",
    "once",
    "optional",
];

/// What a `require` may name.
pub const CAPABILITIES: &[&str] = &[
    "fileinto",
    "copy",
    "include",
    "comparator-i;octet",
    "comparator-i;ascii-casemap",
];

/// The capabilities that a command or a tag can need.
pub const NEEDED: &[&str] = &["fileinto", "copy", "include"];

/// The names of comparators.
pub const COMPARATORS: &[&str] = &["i;octet", "i;ascii-casemap"];

/// A longer word, in octets, is not compared with those that are known.
const MAX_WORD: usize = 80;

/// A word of fewer letters is no slip of one that differs by two of them.
const LONG_WORD: usize = 6;

/// Whether a word is one of these, whatever the case of its letters.
pub fn is_among(word: &[u8], known: &[&str]) -> bool
    ensures { result ≡ list_any (λ name. str_eq_ignore_ascii_case word.now name.now) known.now }
{
    known
        .iter()
        .any(|name| word.eq_ignore_ascii_case(name.as_bytes()))
}

/// How many letters of a word of that many octets may be wrong: one, or two of six or more.
fn slips_in(length: usize) -> usize {
    if length < LONG_WORD { 1 } else { 2 }
}

/// A word whose slips are counted, and the nearest known word so far.
pub struct Guess<'w> {
    alloc: Global,
    /// In lower case; empty where no word is near to it.
    word: String,
    /// The nearest word so far has fewer slips than these.
    fewest: usize,
    found: Option<&'w str>,
}

impl Drop for Guess<'_> {
    fn drop(self) {
        let Guess {
            alloc: _,
            word: _,
            fewest: _,
            found: _,
        } = self;
    }
}

impl<'w> Guess<'w> {
    /// A word before it is compared with any.
    pub fn new(alloc: Global, word: &[u8]) -> Result<Guess<'w>, AllocError> {
        let text = match str::from_utf8(word) {
            Ok(text) if text.len() <= MAX_WORD => text,
            _ => "",
        };
        let word = text.to_ascii_lowercase(alloc)?;
        Ok(Guess {
            alloc,
            fewest: slips_in(word.len()).saturating_add(1).min(word.len()),
            word,
            found: None,
        })
    }

    /// Compares it with a known word.
    pub fn compare(&mut self, name: &'w str) -> Result<(), AllocError> {
        if self.word.len().abs_diff(name.len()) >= self.fewest {
            return Ok(());
        }
        let slips = osa_distance(self.alloc, self.word.as_str(), name)?;
        if slips < self.fewest {
            self.fewest = slips;
            self.found = Some(name);
        }
        Ok(())
    }

    /// The known word that was meant, perhaps: the first of those that it has the fewest slips from. A slip is a letter that
    /// is wrong, missing, too much, or changed places with the next one. A word has at most one, and one of six letters or
    /// more at most two.
    pub fn found(&self) -> Option<&'w str> {
        self.found
    }
}

/// The one of these words that was meant, perhaps, as a [`Guess`] finds it.
pub fn nearest(
    alloc: Global,
    word: &[u8],
    known: &[&'static str],
) -> Result<Option<&'static str>, AllocError> {
    let mut guess = Guess::new(alloc, word)?;
    for name in known.iter() {
        guess.compare(*name)?;
    }
    Ok(guess.found())
}
