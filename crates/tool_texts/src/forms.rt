//! The forms that the words of a command must have, so that a session reads the octets after its line as they are meant.

ghost use Rattle.std.specs.Prelude.{◌≡◌, map, IfOk};
ghost use Rattle.std.specs.List.{slice_split};
ghost use Rattle.session_words.specs.Words.{words_of};
ghost use Rattle.tool_texts.specs.Forms.{has_form as has_form_of, slots_after as slots_after_of, slots_of, first_wrong as first_wrong_of, misfit as misfit_of, fault_of_words as fault_of_words_of, fault_of};

use crate::framing::words;
use session_words::{Verb, is_name, read_length, read_number, verb_of};
use std::alloc::{AllocError, Global};

/// The greatest number of octets that a line has before its line feed.
const LINE_OCTETS: usize = 512;

/// The kind of a payload of a command.
#[derive(Clone, Copy)]
pub enum Payload {
    Script,
    Message,
    Image,
    Plan,
}

impl Payload {
    /// The greatest length of such a payload, in octets. A longer one is refused: a script with 15, a message with 95,
    /// an image with 61, a plan with 58.
    pub fn limit(self) -> u64 {
        match self {
            Payload::Script => 262_144,
            Payload::Message => 8_388_608,
            Payload::Image => 16_777_216,
            Payload::Plan => 1_048_576,
        }
    }
}

/// What a word after the name of a command is.
#[derive(Clone, Copy)]
pub enum Slot {
    /// An officer: 1 to 64 octets from 33 to 126.
    Officer,
    /// The name of a script: 1 to 64 octets from 33 to 126.
    ScriptName,
    /// A moment, in seconds since 1970-01-01T00:00:00Z: decimal without leading zeros, at most 2^64 - 1.
    Moment,
    /// The length of a payload, in octets: decimal without leading zeros, at most 4,294,967,295.
    Length(Payload),
}

impl Slot {
    /// What such a word is.
    pub fn name(self) -> &'static str {
        match self {
            Slot::Officer => "an officer",
            Slot::ScriptName => "the name of a script",
            Slot::Moment => "a moment",
            Slot::Length(_) => "a length",
        }
    }

    /// What such a word is, with the form that it must have.
    pub fn text(self) -> &'static str {
        match self {
            Slot::Officer => "an officer, 1 to 64 octets from 33 to 126",
            Slot::ScriptName => "the name of a script, 1 to 64 octets from 33 to 126",
            Slot::Moment => "a moment, @now or seconds since 1970 without leading zeros",
            Slot::Length(_) =>
                "a length, @PATH, @\"PATH\" or a number of octets without leading zeros",
        }
    }
}

/// The words after the first word of a command whose line octets follow. None for any other command.
fn slots_after(verb: Verb) -> &'static [Slot]
    ensures { result.now ≡ slots_after_of verb }
{
    match verb {
        Verb::Plan => &[Slot::Length(Payload::Plan)],
        Verb::Script => &[
            Slot::Officer,
            Slot::ScriptName,
            Slot::Length(Payload::Script),
        ],
        Verb::Global => &[Slot::ScriptName, Slot::Length(Payload::Script)],
        Verb::Image => &[Slot::Officer, Slot::Length(Payload::Image)],
        Verb::File => &[
            Slot::Length(Payload::Script),
            Slot::Length(Payload::Message),
        ],
        Verb::Try => &[Slot::Length(Payload::Image), Slot::Length(Payload::Message)],
        Verb::Begin => &[Slot::Officer, Slot::Moment, Slot::Length(Payload::Message)],
        Verb::Class
        | Verb::Active
        | Verb::Inactive
        | Verb::Turn
        | Verb::Finish
        | Verb::Hold
        | Verb::Release
        | Verb::Due
        | Verb::Destroy
        | Verb::Quit => &[],
    }
}

/// The words after the name of a command whose line octets follow. None for any other name.
pub fn slots(name: &[u8]) -> &'static [Slot]
    ensures { result.now ≡ slots_of name.now }
{
    match verb_of(name) {
        Some(verb) => slots_after(verb),
        None => &[],
    }
}

/// Why a session would not read what follows a line as it was meant.
#[derive(Clone, Copy)]
pub enum LineFault {
    /// The line has more than 512 octets (73).
    TooLong,
    /// The first word is no command (70), so nobody can say how many octets are to follow.
    UnknownCommand,
    /// The command takes another number of words after its name, namely so many (71).
    WordCount(usize),
    /// The word at this place has not its form; places count from 0 at the first word after the name (71).
    WrongWord(usize),
}

/// Whether a word has the form of its slot.
fn has_form(slot: Slot, word: &[u8]) -> bool
    ensures { result ≡ has_form_of slot word.now }
{
    match slot {
        Slot::Officer | Slot::ScriptName => is_name(word),
        Slot::Moment => read_number(word, u64::MAX).is_some(),
        Slot::Length(_) => read_length(word).is_some(),
    }
}

/// The place of the first word that has not the form of its slot.
fn first_wrong(slots: &[Slot], words: &[&[u8]]) -> Option<usize>
    ensures { result ≡ first_wrong_of slots.now (map (λ w. w.now) words.now) }
{
    slots
        .iter()
        .zip(words.iter())
        .position(|(slot, word)| !has_form(*slot, *word))
}

/// How words break the forms of their slots.
fn misfit(slots: &[Slot], words: &[&[u8]]) -> Option<LineFault>
    ensures { result ≡ misfit_of slots.now (map (λ w. w.now) words.now) }
{
    if words.len() != slots.len() {
        return Some(LineFault::WordCount(slots.len()));
    }
    match first_wrong(slots, words) {
        Some(place) => Some(LineFault::WrongWord(place)),
        None => None,
    }
}

/// How the words of a line break the forms of their command.
fn fault_of_words(words: &[&[u8]]) -> Option<LineFault>
    ensures { result ≡ fault_of_words_of (map (λ w. w.now) words.now) }
{
    let [name, rest @ ..] = words else {
        return Some(LineFault::UnknownCommand);
    };
    match verb_of(*name) {
        Some(verb) => match slots_after(verb) {
            [] => None,
            slots => misfit(slots, rest),
        },
        None => Some(LineFault::UnknownCommand),
    }
}

/// Why a session would not read what follows a line as it was meant: it would refuse the line with 70, 71 or 73. The
/// line comes without its line feed. None where the session reads as many octets after the line as the line says. Of a
/// command that no octets follow only the name is judged. Fails only if memory runs out.
#[tactic(auto, unfolding(crate::specs::Forms::fault_of))]
pub fn line_fault(alloc: Global, line: &[u8]) -> Result<Option<LineFault>, AllocError>
    ensures { IfOk result (λ f. f ≡ fault_of line.now) }
{
    if line.len() > LINE_OCTETS {
        return Ok(Some(LineFault::TooLong));
    }
    let words = words(alloc, line)?;
    Ok(fault_of_words(&words))
}
