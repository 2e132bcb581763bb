//! Which records a command is about, as it is typed.

ghost use Rattle.std.specs.Prelude.{◌≡◌};
ghost use Rattle.choice_words.specs.Choices.{asks_no_message, asks_no_day, is_empty};

use crate::numbers::TypedNumbers;
use jiff::civil::Date;

/// Which records a command is about, as it is typed: those that meet each condition that is given.
pub struct Choice<'a> {
    /// With one of these numbers, where there are any.
    pub numbers: Vec<TypedNumbers>,
    /// With this number or a greater one.
    pub from: u32,
    /// In this class or below it.
    pub class: Option<&'a str>,
    /// Live, and due by this day.
    pub due: Option<Date>,
    /// Captured on this day or later.
    pub since: Option<Date>,
    /// Captured on this day or before.
    pub until: Option<Date>,
    /// Kept by a hold.
    pub is_held: bool,
    /// Not destroyed.
    pub is_live: bool,
    pub is_destroyed: bool,
    /// With a message that meets this test.
    pub test: Option<&'a str>,
    /// With a message one of whose senders has this text.
    pub sender: Option<&'a str>,
    /// With a message one of whose recipients has this text.
    pub recipient: Option<&'a str>,
    /// With a message whose subject has this text.
    pub subject: Option<&'a str>,
}

impl Drop for Choice<'_> {
    fn drop(self) {
        let Choice {
            numbers: _,
            from: _,
            class: _,
            due: _,
            since: _,
            until: _,
            is_held: _,
            is_live: _,
            is_destroyed: _,
            test: _,
            sender: _,
            recipient: _,
            subject: _,
        } = self;
    }
}

impl Choice<'_> {
    /// Whether no text is asked for, and no test.
    fn is_without_question(&self) -> bool
        ensures { result ≡ asks_no_message self.now }
    {
        self.test.is_none()
            && self.sender.is_none()
            && self.recipient.is_none()
            && self.subject.is_none()
    }

    /// Whether no day is asked for.
    fn is_without_day(&self) -> bool
        ensures { result ≡ asks_no_day self.now }
    {
        self.since.is_none() && self.until.is_none() && self.due.is_none()
    }

    /// Whether nothing is asked for, neither a number nor a condition: then each record is meant.
    pub fn is_empty(&self) -> bool
        ensures { result ≡ is_empty self.now }
    {
        self.numbers.is_empty()
            && self.from <= 1
            && self.class.is_none()
            && self.is_without_day()
            && !self.is_held
            && !self.is_live
            && !self.is_destroyed
            && self.is_without_question()
    }
}
