//! What an intake says of its messages.

use crate::deliver::{report_capture, tell_fault};
use crate::fault_words::Cause;
use crate::rules::FilingRules;
use crate::time_of_day::put_start;
use cli_console::{tell, tell_words, write_text};
use command_lines::archives::Telling;
use desk_commands::Capture;
use mail_intake::Tally;
use std::alloc::AllocError;
use std::io::{self, IsTerminal};
use tool_texts::{Shown, put};

/// After how many messages progress is shown.
const STEP: u64 = 100;

/// Where an intake says what becomes of its messages.
#[derive(Clone, Copy)]
pub struct IntakeLog<'a> {
    rt: &'a HostRuntime,
    telling: Telling,
}

impl<'a> IntakeLog<'a> {
    /// Where an intake says it as it is asked to.
    pub fn new(rt: &'a HostRuntime, telling: Telling) -> IntakeLog<'a> {
        IntakeLog { rt, telling }
    }

    /// Adds what is told of a message that stays.
    fn put_stay(&self, text: &mut Shown, name: &str, reason: &str) -> Result<(), AllocError> {
        put_start(self.rt, text, self.telling.has_times)?;
        text.named(name.as_bytes())?;
        text.words(" stays: ")?;
        text.value(&reason)
    }

    /// Names a message that stays, with the reason. Without memory for that, it is only said that one stays.
    pub fn name_one(&self, name: &str, reason: &str) {
        let mut text = Shown::new(self.rt.alloc());
        match self.put_stay(&mut text, name, reason) {
            Ok(()) => tell(self.rt, &text),
            Err(_) => tell_words(
                self.rt,
                "a message stays, and there is no memory to name it",
            ),
        }
    }

    /// Adds what is told of a file of a Maildir in which it cannot be remembered what was told.
    fn put_forgotten(
        &self,
        text: &mut Shown,
        path: &str,
        error: &io::Error,
    ) -> Result<(), AllocError> {
        put_start(self.rt, text, self.telling.has_times)?;
        text.named(path.as_bytes())?;
        text.words(": ")?;
        text.value(error)?;
        text.words("; what stays may be told again on this day")
    }

    /// Tells that it cannot be remembered in a file of a Maildir what was told.
    pub fn tell_forgotten(&self, maildir: &str, name: &str, error: &io::Error) {
        let alloc = self.rt.alloc();
        let Ok(path) = format!(in alloc; "{maildir}/{name}") else {
            return;
        };
        let mut text = Shown::new(alloc);
        if let Ok(()) = self.put_forgotten(&mut text, path.as_str(), error) {
            tell(self.rt, &text);
        }
    }

    /// Adds the name of a message before what is said of it.
    fn put_name(&self, text: &mut Shown, name: &str) -> Result<(), AllocError> {
        put_start(self.rt, text, self.telling.has_times)?;
        text.named(name.as_bytes())?;
        text.words(": ")
    }

    /// Reports a capture, in a volume of an archive of volumes, each line after the name of its message, as far as there is memory for
    /// that, with what is known of the fault in which its run ended, if it did. A quiet intake tells of a fault alone.
    pub fn report(
        &self,
        name: &str,
        volume: Option<u32>,
        capture: &Capture,
        undecoded: &[Shown],
        cause: Option<&Cause>,
    ) {
        let mut before = Shown::new(self.rt.alloc());
        if let Ok(()) = self.put_name(&mut before, name) {
            if self.telling.is_quiet {
                tell_fault(self.rt, &before, capture, cause);
            } else {
                report_capture(self.rt, &before, volume, capture, undecoded, cause);
            }
        }
    }

    /// Tells of scripts that are not used, unless it is quiet.
    pub fn tell_unused(&self, filing: &FilingRules<'_>) {
        if !self.telling.is_quiet {
            filing.tell_unused(self.rt);
        }
    }

    /// Shows on a terminal how many messages are taken.
    pub fn show_progress(&self, taken: u64) {
        if taken % STEP == 0 && !self.telling.is_quiet && self.rt.stderr().is_terminal() {
            let _ = eprint!(self.rt; "\r{taken} messages");
        }
    }

    /// Adds what is told of messages whose names are no UTF-8.
    fn put_nameless(&self, text: &mut Shown, count: usize) -> Result<(), AllocError> {
        put_start(self.rt, text, self.telling.has_times)?;
        text.words("messages that stay, since their names are no UTF-8: ")?;
        text.value(&count)
    }

    /// Tells how many messages stay, since their names are no UTF-8.
    pub fn tell_nameless(&self, count: usize) {
        let mut text = Shown::new(self.rt.alloc());
        match self.put_nameless(&mut text, count) {
            Ok(()) => tell(self.rt, &text),
            Err(_) => tell_words(self.rt, "messages stay whose names are no UTF-8"),
        }
    }

    /// Adds what became of all messages, and since when, as a line.
    fn put_summary(
        &self,
        text: &mut Shown,
        tally: &Tally,
        nameless: usize,
        since: &Shown,
    ) -> Result<(), AllocError> {
        put_start(self.rt, text, self.telling.has_times)?;
        put!(text;
            "taken " value(&tally.taken) ", stay " value(&tally.staying(nameless))
            ", since " text(since))?;
        text.end_line()
    }

    /// Writes what became of all messages, and since when, unless it is quiet or there were none. All is done then, so
    /// whatever happens to the line is no failure.
    pub fn write_summary(&self, tally: &Tally, nameless: usize, since: &Shown) {
        let is_of_none = tally.taken == 0 && tally.staying(nameless) == 0;
        if self.telling.is_quiet || is_of_none {
            return;
        }
        let mut text = Shown::new(self.rt.alloc());
        if let Ok(()) = self.put_summary(&mut text, tally, nameless, since) {
            let _ = write_text(self.rt, &text);
        }
    }
}
