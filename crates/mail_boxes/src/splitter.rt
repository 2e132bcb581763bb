//! The messages of an mbox, as its lines come.

ghost use Rattle.std.specs.Prelude.{◌≡◌, ◌&&◌, ◌∷◌, [], ◌++◌, List, ℕ, false, MatchOption, IfOk, OnOk, Some, if◌then◌else◌};
ghost use Rattle.mail_boxes.specs.Boxes.{added, blank_of, handed, message_view, messages_of, nothing_read, to_come, with_line};
ghost use Rattle.mail_boxes.specs.Marks.{is_empty_line, is_separator};
ghost use Rattle.mail_boxes.specs.Splitters.{octets_of};

use crate::marks::{is_empty_line, is_separator, unquoted};
use mail_head::MAX_OCTETS;
use std::alloc::{AllocError, Global};
use std::marker::Model;
use std::mem;

/// A message of an mbox.
#[derive(Drop)]
pub enum BoxMessage {
    /// Its octets, with the quoting undone.
    Whole(Vec<u8>),
    /// It has more than 8,388,608 octets, which are not kept.
    TooLong,
}

/// The line that was read last, as far as it may end a message.
#[derive(Clone, Copy)]
enum LastLine {
    /// One that is not empty, or none.
    Full,
    /// An LF.
    Lf,
    /// A CR and an LF.
    CrLf,
}

impl LastLine {
    /// What a line is.
    fn of(line: &[u8]) -> LastLine
        ensures { octets_of result ≡ blank_of line.now }
    {
        match line {
            [b'\n'] => LastLine::Lf,
            [b'\r', b'\n'] => LastLine::CrLf,
            _ => LastLine::Full,
        }
    }

    /// Whether it is empty.
    fn is_empty(self) -> bool
        ensures { result ≡ is_empty_line (octets_of self) }
    {
        match self {
            LastLine::Full => false,
            LastLine::Lf | LastLine::CrLf => true,
        }
    }

    /// Its octets, where it is empty.
    fn octets(self) -> &'static [u8]
        ensures { result.now ≡ octets_of self }
    {
        match self {
            LastLine::Full => b"",
            LastLine::Lf => b"\n",
            LastLine::CrLf => b"\r\n",
        }
    }
}

/// A message with more octets at its end. The one error is out of memory.
fn extended(message: BoxMessage, more: &[u8]) -> Result<BoxMessage, AllocError>
    ensures { IfOk result (λ m. message_view m ≡ added (message_view message) more.now) }
{
    let BoxMessage::Whole(mut octets) = message else {
        return Ok(BoxMessage::TooLong);
    };
    if (octets.len() + more.len()) as u64 > MAX_OCTETS {
        return Ok(BoxMessage::TooLong);
    }
    octets.extend_from_slice(more)?;
    Ok(BoxMessage::Whole(octets))
}

/// The messages of an mbox, whose lines come one after the other. It keeps one message, and no more than 8,388,608 octets.
#[derive(Drop)]
pub struct MessageSplitter {
    alloc: Global,
    /// The message so far, without an empty line that may end it.
    message: BoxMessage,
    last: LastLine,
}

impl Model for MessageSplitter {
    ghost use Rattle.mail_boxes.specs.Boxes.{Open, message_view};
    ghost use Rattle.mail_boxes.specs.Splitters.{octets_of};

    ghost Value = { Open };

    ghost view = { λ s. record { text = message_view s.message; blank = octets_of s.last } };
}

impl MessageSplitter {
    /// The messages of an mbox with this first line; none where that is no separator.
    pub fn begin(alloc: Global, first: &[u8]) -> Option<MessageSplitter>
        ensures { MatchOption result (is_separator first.now ≡ false)
            (λ s. (lines : List (List ℕ)) →
            messages_of (first.now ∷ lines) ≡ Some (to_come s lines)) }
    {
        if !is_separator(first) {
            return None;
        }
        Some(MessageSplitter {
            alloc,
            message: BoxMessage::Whole(Vec::new(alloc)),
            last: LastLine::Full,
        })
    }

    /// Adds octets to the message.
    fn add(&mut self, octets: &[u8]) -> Result<(), AllocError>
        ensures { OnOk result (self.new ≡
            record self.old { text = added self.old.text octets.now }) }
    {
        let message = mem::replace(&mut self.message, BoxMessage::TooLong);
        self.message = extended(message, octets)?;
        Ok(())
    }

    /// Whether a line separates the message from the next one.
    fn is_ended_by(&self, line: &[u8]) -> bool
        ensures { result ≡ (is_empty_line self.now.blank && is_separator line.now) }
    {
        self.last.is_empty() && is_separator(line)
    }

    /// Begins the next message, and answers the one before it.
    fn begin_next(&mut self) -> BoxMessage
        ensures before { message_view result ≡ self.old.text }
        ensures next { self.new ≡ nothing_read }
    {
        self.last = LastLine::Full;
        let next = BoxMessage::Whole(Vec::new(self.alloc));
        mem::replace(&mut self.message, next)
    }

    /// Adds a line to the message.
    fn take_line(&mut self, line: &[u8]) -> Result<(), AllocError>
        ensures { OnOk result (self.new ≡ with_line self.old line.now) }
    {
        self.add(self.last.octets())?;
        self.last = LastLine::of(line);
        if is_empty_line(line) {
            return Ok(());
        }
        self.add(unquoted(line))
    }

    /// Takes the next line, with its end, and answers the message before it, where the line separates it from the next one.
    /// The one error is out of memory, and no more lines are taken after it.
    pub fn feed(&mut self, line: &[u8]) -> Result<Option<BoxMessage>, AllocError>
        ensures { IfOk result (λ found. (lines : List (List ℕ)) →
            to_come self.old (line.now ∷ lines) ≡ handed found ++ to_come self.new lines) }
    {
        if self.is_ended_by(line) {
            return Ok(Some(self.begin_next()));
        }
        self.take_line(line)?;
        Ok(None)
    }

    /// The last message.
    pub fn finish(self) -> BoxMessage
        ensures { to_come self [] ≡ message_view result ∷ [] }
    {
        let MessageSplitter { message, .. } = self;
        message
    }
}
