//! What a refusal is about.

use crate::repaired::Repaired;

/// What a refusal is about. Each number is an offset in octets, and each word has one where it begins and one where it ends.
#[derive(Clone, Copy)]
pub enum Subject {
    /// The command or the place as a whole.
    Whole,
    /// A word or string that is not among those of its place, and the known one that was meant, perhaps.
    Word(usize, usize, Option<&'static str>),
    /// What is missing at an offset: a mark, or some words.
    Missing(usize, &'static str),
    /// A word or mark that is one too many.
    Surplus(usize, usize),
    /// A word, and how it is written instead.
    Instead(usize, usize, &'static str),
    /// A word without the quotation marks of a string.
    Unquoted(usize, usize),
    /// The name of a tag without its colon.
    Untagged(usize, usize),
    /// A number and the letters after it that are no unit.
    Unit(usize, usize),
    /// The name of a test where a command begins.
    TestAlone(usize, usize),
    /// A word between two tests, and the name of the test that joins them.
    Joined(usize, usize, &'static str),
    /// The name of a test that directly follows another test, which no test joins to it.
    Unjoined(usize, usize),
    /// A mark of typography in place of a plain one.
    Typographic(usize, usize, &'static str),
    /// A byte order mark.
    ByteOrderMark,
    /// The brace of a block that is not closed.
    OpenBlock(usize),
    /// A capability that is not required, and where it is needed.
    Capability(usize, &'static str),
    /// The name of a command or test that takes other strings or numbers, and how it is written.
    Arguments(usize, usize, &'static str),
}

impl Subject {
    /// The subject by its offsets in a script as it was.
    pub(crate) fn in_original(self, script: &Repaired) -> Subject {
        let at = |offset: usize| script.offset(offset);
        match self {
            Subject::Whole => Subject::Whole,
            Subject::ByteOrderMark => Subject::ByteOrderMark,
            Subject::Word(start, end, meant) => Subject::Word(at(start), at(end), meant),
            Subject::Missing(place, what) => Subject::Missing(at(place), what),
            Subject::Surplus(start, end) => Subject::Surplus(at(start), at(end)),
            Subject::Instead(start, end, word) => Subject::Instead(at(start), at(end), word),
            Subject::Unquoted(start, end) => Subject::Unquoted(at(start), at(end)),
            Subject::Untagged(start, end) => Subject::Untagged(at(start), at(end)),
            Subject::Unit(start, end) => Subject::Unit(at(start), at(end)),
            Subject::TestAlone(start, end) => Subject::TestAlone(at(start), at(end)),
            Subject::Joined(start, end, name) => Subject::Joined(at(start), at(end), name),
            Subject::Unjoined(start, end) => Subject::Unjoined(at(start), at(end)),
            Subject::Typographic(start, end, mark) => Subject::Typographic(
                at(start),
                at(end),
                mark,
            ),
            Subject::OpenBlock(brace) => Subject::OpenBlock(at(brace)),
            Subject::Capability(place, name) => Subject::Capability(at(place), name),
            Subject::Arguments(start, end, usage) => Subject::Arguments(at(start), at(end), usage),
        }
    }

    /// Where it is shown; none where it is about a command or a place as a whole.
    pub(crate) fn place(self) -> Option<usize> {
        match self {
            Subject::Whole | Subject::ByteOrderMark => None,
            Subject::Missing(at, _) | Subject::OpenBlock(at) | Subject::Capability(at, _) => Some(
                at,
            ),
            Subject::Word(at, _, _)
            | Subject::Surplus(at, _)
            | Subject::Instead(at, _, _)
            | Subject::Unquoted(at, _)
            | Subject::Untagged(at, _)
            | Subject::Unit(at, _)
            | Subject::TestAlone(at, _)
            | Subject::Joined(at, _, _)
            | Subject::Unjoined(at, _)
            | Subject::Typographic(at, _, _)
            | Subject::Arguments(at, _, _) => Some(at),
        }
    }
}
