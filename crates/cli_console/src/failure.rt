//! Why something is not done, and the status that says so.

ghost use Rattle.std.specs.Prelude.{◌≡◌};
ghost use Rattle.cli_console.specs.Failures.{status_number, IsInVolume, IsToldAs, IsOfStore, IsKept};

use record_store::{Cause, StoreFault};
use std::alloc::{AllocError, AllocFailed, Global};
use std::fmt::Display;
use std::process::ExitCode;
use tool_texts::{Shown, put, refusal_text};

/// The statuses of `sysexits` with which the program ends.
#[derive(Clone, Copy)]
pub enum Status {
    /// The command line is wrong.
    Usage,
    /// What was read is wrong, or an archive refuses.
    BadData,
    /// What is to be read is not there.
    NoInput,
    /// What is to be made cannot be made.
    CannotMake,
    /// What was done could not be written.
    NotWritten,
    /// It may be done later.
    TryAgain,
}

impl Status {
    /// Its number (`sysexits.h`).
    fn number(self) -> u8
        ensures { result ≡ status_number self }
    {
        match self {
            Status::Usage => 64,
            Status::BadData => 65,
            Status::NoInput => 66,
            Status::CannotMake => 73,
            Status::NotWritten => 74,
            Status::TryAgain => 75,
        }
    }

    /// The status as the system has it.
    pub fn code(self) -> ExitCode {
        ExitCode::from(self.number())
    }
}

/// Why something is not done.
#[derive(Drop)]
pub enum Failure {
    /// The reader of the output has gone, which is not reported.
    Closed,
    /// Reported as out of memory.
    NoMemory,
    /// Reported by this text.
    Told(Status, Shown),
    /// It was reported already.
    Reported(Status),
}

/// Words of the program.
fn words_of(alloc: Global, words: &'static str) -> Result<Shown, AllocError> {
    let mut text = Shown::new(alloc);
    text.words(words)?;
    Ok(text)
}

/// What a reason displays, with escapes.
fn text_of<T: Display>(alloc: Global, reason: &T) -> Result<Shown, AllocError> {
    let mut text = Shown::new(alloc);
    text.value(reason)?;
    Ok(text)
}

/// The name of something, in quotation marks where it is not visible ASCII, and what is said of it.
fn text_at<T: Display>(alloc: Global, name: &str, reason: &T) -> Result<Shown, AllocError> {
    let mut text = Shown::new(alloc);
    put!(text; named(name.as_bytes()) ": " value(reason))?;
    Ok(text)
}

/// Something as it is called, and what is said of it, with escapes.
fn text_at_thing<T: Display>(alloc: Global, thing: &str, reason: &T) -> Result<Shown, AllocError> {
    let mut text = Shown::new(alloc);
    put!(text; value(&thing) ": " value(reason))?;
    Ok(text)
}

/// What is said of the number of a refusal.
pub fn refusal_words(number: u8) -> &'static str {
    refusal_text(number).unwrap_or("refused")
}

/// Something as it is called, and the number of a refusal with its text.
fn refusal_at(alloc: Global, thing: &str, number: u8) -> Result<Shown, AllocError> {
    let words = refusal_words(number);
    let mut text = Shown::new(alloc);
    put!(text; value(&thing) ": " value(&number) ": " words(words))?;
    Ok(text)
}

/// What is said of a volume, after its number.
fn text_of_volume(alloc: Global, volume: u32, said: &Shown) -> Result<Shown, AllocError> {
    let mut text = Shown::new(alloc);
    put!(text; "volume " value(&volume) ": " text(said))?;
    Ok(text)
}

impl Failure {
    /// A failure that is reported by a text that was just made, if there was memory for it.
    pub fn shown(status: Status, text: Result<Shown, AllocError>) -> Failure
        ensures { IsToldAs status result }
    {
        match text {
            Ok(text) => Failure::Told(status, text),
            Err(AllocError) => Failure::NoMemory,
        }
    }

    /// A failure that is reported in these words.
    pub fn told(alloc: Global, status: Status, words: &'static str) -> Failure
        ensures { IsToldAs status result }
    {
        Failure::shown(status, words_of(alloc, words))
    }

    /// A failure that is reported by the reason alone.
    pub fn by<T: Display>(alloc: Global, status: Status, reason: &T) -> Failure
        ensures { IsToldAs status result }
    {
        Failure::shown(status, text_of(alloc, reason))
    }

    /// A failure at a file or a record, reported with the name that was given and the reason.
    pub fn at<T: Display>(alloc: Global, status: Status, name: &str, reason: &T) -> Failure
        ensures { IsToldAs status result }
    {
        Failure::shown(status, text_at(alloc, name, reason))
    }

    /// A failure at something that the program names, as a stream, reported with the reason.
    pub fn at_thing<T: Display>(alloc: Global, status: Status, thing: &str, reason: &T) -> Failure
        ensures { IsToldAs status result }
    {
        Failure::shown(status, text_at_thing(alloc, thing, reason))
    }

    /// The failure of a refusal's number, reported with its text.
    pub fn numbered(alloc: Global, status: Status, name: &str, number: u8) -> Failure
        ensures { IsToldAs status result }
    {
        Failure::shown(status, refusal_at(alloc, name, number))
    }

    /// The failure of a call of the store, at something of this name. A refusal is `BadData` with its number; what the
    /// database refuses is `TryAgain`.
    pub fn of_store(alloc: Global, name: &str, fault: StoreFault) -> Failure
        ensures { IsOfStore fault result }
    {
        match fault {
            StoreFault::NoMemory => Failure::NoMemory,
            StoreFault::Database(Cause::Sqlite(error)) => {
                Failure::at_thing(alloc, Status::TryAgain, name, &error)
            }
            StoreFault::Database(Cause::Lost) => {
                let reason = "a row that was written is gone";
                Failure::at_thing(alloc, Status::TryAgain, name, &reason)
            }
            StoreFault::Database(Cause::Busy) => {
                Failure::at_thing(alloc, Status::TryAgain, name, &"a transaction is open")
            }
            StoreFault::Refused(refusal) => {
                Failure::numbered(alloc, Status::BadData, name, refusal.number())
            }
        }
    }

    /// The same failure, told with the number of a volume before its words, in an archive of volumes.
    pub fn in_volume(self, alloc: Global, volume: Option<u32>) -> Failure
        ensures { IsInVolume volume self result }
    {
        let Some(volume) = volume else {
            return self;
        };
        match self {
            Failure::Told(status, text) => {
                Failure::shown(status, text_of_volume(alloc, volume, &text))
            }
            Failure::Closed => Failure::Closed,
            Failure::NoMemory => Failure::NoMemory,
            Failure::Reported(status) => Failure::Reported(status),
        }
    }

    /// The same failure with `TryAgain`, by which a mail server keeps its mail.
    pub fn kept(self) -> Failure
        ensures { IsKept self result }
    {
        match self {
            Failure::Told(_, text) => Failure::Told(Status::TryAgain, text),
            Failure::Closed => Failure::Closed,
            Failure::NoMemory => Failure::NoMemory,
            Failure::Reported(status) => Failure::Reported(status),
        }
    }
}

impl From<AllocError> for Failure {
    ghost use Rattle.std.specs.Prelude.{◌≡◌};
    ghost use Rattle.cli_console.specs.declared.failure.Failure.TheVariants.{NoMemory};

    ghost from_gives = { λ _ failure. failure ≡ NoMemory };

    fn from(_error: AllocError) -> Failure {
        Failure::NoMemory
    }
}

impl<T: Drop> From<AllocFailed<T>> for Failure {
    ghost use Rattle.std.specs.Prelude.{◌≡◌};
    ghost use Rattle.cli_console.specs.declared.failure.Failure.TheVariants.{NoMemory};

    ghost from_gives = { λ _ failure. failure ≡ NoMemory };

    fn from(_error: AllocFailed<T>) -> Failure {
        Failure::NoMemory
    }
}
