//! The rounds of an import: one for each volume into which it captures.

ghost use Rattle.std.specs.Prelude.{◌≡◌, ◌-◌, OnOk};
ghost use Rattle.mail_import.specs.Tallies.{one_more};
ghost use Rattle.cli_changes.specs.ImportRounds.{IsBeginning, KnowsAlso, at_start, next_source};

use mail_import::{AllKnown, ImportTally, Progress, StoreKnown};
use mail_sources::MailFiles;
use record_known::Known;
use std::alloc::{AllocError, Global};

/// How far an import is in its sources.
#[derive(Clone, Copy)]
pub(crate) struct Reached {
    /// How many sources are done.
    pub sources: usize,
    /// How many messages these have.
    pub before: usize,
    /// How many messages are done: they are taken, passed over, or stay.
    pub messages: usize,
}

impl Reached {
    /// At the first message of the first source.
    pub fn start() -> Reached
        ensures { result ≡ at_start }
    {
        Reached {
            sources: 0,
            before: 0,
            messages: 0,
        }
    }

    /// How many messages of the source are done.
    pub fn in_source(&self) -> usize
        ensures { result ≡ self.now.messages - self.now.before }
    {
        self.messages.saturating_sub(self.before)
    }

    /// Counts a message that is done.
    pub fn pass(&mut self)
        ensures { self.new ≡ record self.old { messages = one_more self.old.messages } }
    {
        self.messages = self.messages.saturating_add(1);
    }

    /// Goes on with the next source.
    pub fn pass_source(&mut self)
        ensures { self.new ≡ next_source self.old }
    {
        self.sources = self.sources.saturating_add(1);
        self.before = self.messages;
    }
}

/// What the rounds of an import came to so far.
#[derive(Drop)]
pub struct ImportRounds {
    /// What is captured already, and what became of the messages.
    pub(crate) progress: Progress,
    /// Whether the first one was made.
    pub(crate) has_begun: bool,
    /// The message at which the last one ended, since its volume was full.
    pub(crate) reached: Reached,
    /// The files of its source, as they were listed in the round that began with it.
    pub(crate) files: Option<MailFiles>,
    /// Whether anything was said of a message.
    pub(crate) has_spoken: bool,
}

impl ImportRounds {
    /// None was made.
    pub fn none(alloc: Global) -> ImportRounds
        ensures { IsBeginning result }
    {
        ImportRounds {
            progress: Progress {
                known: AllKnown::none(alloc),
                tally: ImportTally::none(),
            },
            has_begun: false,
            reached: Reached::start(),
            files: None,
            has_spoken: false,
        }
    }

    /// Notes which messages are captured already in a store, or in a volume of an archive. The only refusal is no memory (99).
    pub fn know(&mut self, volume: Option<u32>, known: Known) -> Result<(), AllocError>
        ensures { OnOk result (KnowsAlso volume known self.old self.new) }
    {
        self.progress.known.put(StoreKnown { volume, known })?;
        Ok(())
    }
}
