//! How many messages of old mail were taken, and how many not.

ghost use Rattle.std.specs.Prelude.{◌≡◌};
ghost use Rattle.mail_import.specs.Fates.{why_of};
ghost use Rattle.mail_import.specs.Tallies.{more, no_messages, one_more, with_beside, with_staying};

use crate::fate::Stay;
use mail_intake::Reason;
use mail_sources::PassedOver;

/// How many messages of an import were taken, and how many not.
#[derive(Clone, Copy)]
pub struct ImportTally {
    /// Captured or discarded.
    pub taken: u64,
    /// Passed over, since they were captured already.
    pub known: u64,
    /// That stay, for a reason of their own.
    pub unfit: u64,
    /// That were given up, and may be taken later.
    pub given_up: u64,
    /// Folders and Maildirs in which no message was found.
    pub empty: u64,
    /// Files beside the messages of folders.
    pub files: u64,
    /// Folders beside them.
    pub folders: u64,
}

impl ImportTally {
    /// Of no messages.
    pub fn none() -> ImportTally
        ensures { result ≡ no_messages }
    {
        ImportTally {
            taken: 0,
            known: 0,
            unfit: 0,
            given_up: 0,
            empty: 0,
            files: 0,
            folders: 0,
        }
    }

    /// Counts what lies beside the messages of a source.
    pub(crate) fn count_beside(&mut self, passed: &PassedOver)
        ensures { self.new ≡ with_beside passed.now.files passed.now.folders self.old }
    {
        self.files = self.files.saturating_add(passed.files as u64);
        self.folders = self.folders.saturating_add(passed.folders as u64);
    }

    /// Counts a message that stays for a reason.
    pub(crate) fn count_staying(&mut self, why: &Stay)
        ensures { self.new ≡ with_staying (why_of why.now) self.old }
    {
        match why {
            Stay::NoMail(_) | Stay::Undated(_) | Stay::TooLong | Stay::For(Reason::Unfit(_)) => {
                self.unfit = self.unfit.saturating_add(1);
            }
            Stay::For(Reason::NoMemory | Reason::GivenUp(_)) => {
                self.given_up = self.given_up.saturating_add(1);
            }
        }
    }

    /// Counts messages that stay since their names are no UTF-8.
    pub(crate) fn count_nameless(&mut self, count: usize)
        ensures { self.new ≡ record self.old { unfit = more count self.old.unfit } }
    {
        self.unfit = self.unfit.saturating_add(count as u64);
    }

    /// Counts a folder without a message.
    pub(crate) fn count_empty(&mut self)
        ensures { self.new ≡ record self.old { empty = one_more self.old.empty } }
    {
        self.empty = self.empty.saturating_add(1);
    }

    /// Counts a message that is captured already.
    pub(crate) fn count_known(&mut self)
        ensures { self.new ≡ record self.old { known = one_more self.old.known } }
    {
        self.known = self.known.saturating_add(1);
    }

    /// Counts a message that is taken.
    pub(crate) fn count_taken(&mut self)
        ensures { self.new ≡ record self.old { taken = one_more self.old.taken } }
    {
        self.taken = self.taken.saturating_add(1);
    }
}
