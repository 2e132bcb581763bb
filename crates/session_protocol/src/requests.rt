//! What a command line asks: the table of the commands.

ghost use Rattle.std.specs.Prelude.{◌≡◌};
ghost use Rattle.session_protocol.specs.LineRequests as spec;
ghost use Rattle.session_protocol.specs.WordsLeft.{words_left};

use self::Request::{Alone, One, Two};
use crate::day::Day;
use crate::words::Words;
use session_words::{Verb, verb_of};

/// A command that has no payload.
#[derive(Clone, Copy)]
pub enum NoPayload<'a> {
    /// Adds the class of this path.
    AddClass(&'a [u8]),
    /// Sets an officer's script of that name as the officer's program.
    Activate { officer: &'a [u8], name: &'a [u8] },
    /// Sets no program for this officer.
    Deactivate(&'a [u8]),
    /// Lets the capture of a ticket make `count` more steps, at most.
    Turn { ticket: u64, count: u32 },
    /// Makes the records of the capture of this ticket.
    Finish(u64),
    /// Places a hold of that name on a record.
    Hold { name: &'a [u8], number: u64 },
    /// Ends a hold of that name on a record.
    Release { name: &'a [u8], number: u64 },
    /// Lists the records that are due by this day.
    Due(Day),
    /// Destroys a record that is due by a day.
    Destroy { number: u64, day: Day },
}

/// A command with one payload.
#[derive(Clone, Copy)]
pub enum OnePayload<'a> {
    /// Takes the payload over as the plan.
    SetPlan,
    /// Keeps the payload as an officer's script, under this name.
    SetScript { officer: &'a [u8], name: &'a [u8] },
    /// Keeps the payload as a global script, under this name.
    SetGlobal(&'a [u8]),
    /// Sets the payload, an image, as this officer's program.
    SetImage(&'a [u8]),
    /// Begins a capture of the payload, a message, by an officer's program, at a moment in seconds since
    /// 1970-01-01T00:00:00Z.
    Begin { officer: &'a [u8], moment: u64 },
}

/// A command with two payloads.
#[derive(Clone, Copy)]
pub enum TwoPayloads {
    /// Files the second, a message, by the first, a script.
    File,
    /// Runs the first, an image, on the second, a message.
    Try,
}

/// What a line asks.
#[derive(Clone, Copy)]
pub enum Request<'a> {
    /// A command without a payload.
    Alone(NoPayload<'a>),
    /// A command with one payload, of this length in octets.
    One(OnePayload<'a>, usize),
    /// A command with two payloads, of these lengths in octets.
    Two(TwoPayloads, usize, usize),
    /// To end the session.
    Quit,
    /// Nothing: the first word names no command (70).
    Unknown,
    /// Nothing: a word, or the number of words, is wrong (71).
    BadWord,
}

/// Reads the words that a command has after its name. None where one of them is missing or wrong.
#[tactic(auto, unfolding(crate::specs::LineRequests::row))]
fn read_arguments<'a>(verb: Verb, words: &mut Words<'a>) -> Option<Request<'a>>
    ensures { spec.row verb (words_left words.old)
        ≡ spec.request_at_end result (words_left words.new) }
{
    match verb {
        Verb::Class => Some(Alone(NoPayload::AddClass(words.path()?))),
        Verb::Plan => Some(One(OnePayload::SetPlan, words.size()?)),
        Verb::Script => {
            let (officer, name) = (words.name()?, words.name()?);
            Some(One(OnePayload::SetScript { officer, name }, words.size()?))
        }
        Verb::Global => Some(One(OnePayload::SetGlobal(words.name()?), words.size()?)),
        Verb::Active => Some(Alone(NoPayload::Activate {
            officer: words.name()?,
            name: words.name()?,
        })),
        Verb::Inactive => Some(Alone(NoPayload::Deactivate(words.name()?))),
        Verb::Image => Some(One(OnePayload::SetImage(words.name()?), words.size()?)),
        Verb::File => Some(Two(TwoPayloads::File, words.size()?, words.size()?)),
        Verb::Try => Some(Two(TwoPayloads::Try, words.size()?, words.size()?)),
        Verb::Begin => {
            let (officer, moment) = (words.name()?, words.number()?);
            Some(One(OnePayload::Begin { officer, moment }, words.size()?))
        }
        Verb::Turn => Some(Alone(NoPayload::Turn {
            ticket: words.number()?,
            count: words.count()?,
        })),
        Verb::Finish => Some(Alone(NoPayload::Finish(words.number()?))),
        Verb::Hold => Some(Alone(NoPayload::Hold {
            name: words.name()?,
            number: words.number()?,
        })),
        Verb::Release => Some(Alone(NoPayload::Release {
            name: words.name()?,
            number: words.number()?,
        })),
        Verb::Due => Some(Alone(NoPayload::Due(words.day()?))),
        Verb::Destroy => Some(Alone(NoPayload::Destroy {
            number: words.number()?,
            day: words.day()?,
        })),
        Verb::Quit => Some(Request::Quit),
    }
}

/// Reads what a command line asks. The line comes without its LF. A line that is no command is `Unknown` (70) or
/// `BadWord` (71).
#[tactic(auto, unfolding(crate::specs::LineRequests::request_of))]
pub fn read_request(line: &[u8]) -> Request<'_>
    ensures { spec.request_view result ≡ spec.request_of line.now }
{
    let mut words = Words::new(line);
    let Some(word) = words.next() else {
        return Request::Unknown;
    };
    let Some(verb) = verb_of(word) else {
        return Request::Unknown;
    };
    let (Some(request), None) = (read_arguments(verb, &mut words), words.next()) else {
        return Request::BadWord;
    };
    request
}
