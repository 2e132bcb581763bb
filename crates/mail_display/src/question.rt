//! Whether a message has given texts in its fields.

ghost use Rattle.std.specs.Prelude.{◌≡◌, ◌+◌, ◌≤◌, ◌||◌, [], length, IfOk, IfErr, MatchOption, None, false, option_map, string_bytes};
ghost use Rattle.mail_head.specs.Fields.{fields_of};
ghost use Rattle.mail_display.specs.Comparing.{is_blank, comparable};
ghost use Rattle.mail_display.specs.Asking.{compared_text, is_blank_text, asked_of, first_blank, IsFaultOf, IsFaultIn};
ghost use Rattle.mail_display.specs.Question.{key_of, finding, with_group, is_unasked, is_all, unasked, unread_in, asks};

use crate::comparing::{comparable, is_blank};
use crate::groups::{FieldGroup, group_of};
use crate::showing::display;
use mail_head::{Field, first_field};
use sieve_match::{Comparator, contains};
use std::alloc::{AllocError, Global};
use std::marker::Model;
use thiserror::Error;

/// Why a text is no question. What is empty stands in each field, and a space in most of them.
#[derive(Debug, Drop, Error)]
pub enum FieldQuestionFault {
    /// A text is empty or has nothing but white space.
    #[error("the text is empty or blank")]
    Empty(FieldGroup),
    #[error("out of memory")]
    NoMemory(#[from] AllocError),
}

/// A question on a message's fields: texts that its senders, its recipients and its subjects are to have.
#[derive(Drop)]
pub struct FieldQuestion {
    // Each text is as it is compared.
    sender: Option<String>,
    recipient: Option<String>,
    subject: Option<String>,
}

impl Model for FieldQuestion {
    ghost use Rattle.std.specs.Prelude.{option_map, string_bytes};
    ghost use Rattle.mail_display.specs.Question.{Asked};

    ghost Value = { Asked };

    ghost view = { λ q. record {
      sender = option_map string_bytes q.sender;
      recipient = option_map string_bytes q.recipient;
      subject = option_map string_bytes q.subject;
    } };
}

/// What a message answers a question.
#[derive(Clone, Copy)]
pub struct Found {
    pub is_found: bool,
    /// How much of the fields that the question looks at could not be read. Where it is not nought, a text may stand in
    /// a field and not be found.
    pub unread: usize,
}

/// What a field adds to an answer: the group whose text it has, and how much of it could not be read.
#[derive(Clone, Copy)]
struct Finding {
    group: Option<FieldGroup>,
    unread: usize,
}

/// Which texts of a question were found, or not asked for.
#[derive(Clone, Copy)]
struct Seen {
    sender: bool,
    recipient: bool,
    subject: bool,
}

impl Seen {
    /// Whether no text is left.
    fn is_all(self) -> bool
        ensures { result ≡ is_all self }
    {
        self.sender && self.recipient && self.subject
    }

    /// The same with one more text found.
    fn with(self, group: Option<FieldGroup>) -> Seen
        ensures { result ≡ with_group group self }
    {
        match group {
            Some(FieldGroup::Sender) => Seen {
                sender: true,
                ..self
            },
            Some(FieldGroup::Recipient) => Seen {
                recipient: true,
                ..self
            },
            Some(FieldGroup::Subject) => Seen {
                subject: true,
                ..self
            },
            None => self,
        }
    }
}

/// Whether a text is not asked for.
fn is_unasked(text: &Option<String>) -> bool
    ensures { result ≡ is_unasked (option_map string_bytes text.now) }
{
    match text {
        Some(_) => false,
        None => true,
    }
}

/// A text as it is compared, if there is one. One that is empty or has nothing but white space is refused.
fn compared_text(
    alloc: Global,
    group: FieldGroup,
    text: Option<&str>,
) -> Result<Option<String>, FieldQuestionFault>
    ensures ok { IfOk result (λ key. option_map string_bytes key ≡ compared_text text.entry) }
    ensures some { IfOk result (λ key. is_blank_text text.entry ≡ false) }
    ensures err { IfErr result (λ e. IsFaultOf group text.entry e) }
{
    let Some(text) = text else {
        return Ok(None);
    };
    if is_blank(text) {
        return Err(FieldQuestionFault::Empty(group));
    }
    match comparable(alloc, text) {
        Ok(key) => Ok(Some(key)),
        Err(error) => Err(FieldQuestionFault::NoMemory(error)),
    }
}

impl FieldQuestion {
    /// The question whether each given text stands in one of the fields of its group. A message without the field
    /// lacks the text, and a question without texts finds each message. The errors: the first text that is empty or
    /// has nothing but white space, and out of memory.
    pub fn new(
        alloc: Global,
        sender: Option<&str>,
        recipient: Option<&str>,
        subject: Option<&str>,
    ) -> Result<FieldQuestion, FieldQuestionFault>
        ensures ok { IfOk result (λ q. q ≡ asked_of sender.entry recipient.entry subject.entry) }
        ensures some { IfOk result (λ q.
            first_blank sender.entry recipient.entry subject.entry ≡ None) }
        ensures err { IfErr result (λ e.
            IsFaultIn (first_blank sender.entry recipient.entry subject.entry) e) }
    {
        Ok(FieldQuestion {
            sender: compared_text(alloc, FieldGroup::Sender, sender)?,
            recipient: compared_text(alloc, FieldGroup::Recipient, recipient)?,
            subject: compared_text(alloc, FieldGroup::Subject, subject)?,
        })
    }

    /// The texts that are not asked for.
    fn unasked(&self) -> Seen
        ensures { result ≡ unasked self.now }
    {
        Seen {
            sender: is_unasked(&self.sender),
            recipient: is_unasked(&self.recipient),
            subject: is_unasked(&self.subject),
        }
    }

    /// The text that fields of a group are to have, if there is one.
    fn key(&self, group: FieldGroup) -> Option<&str>
        ensures { MatchOption result (key_of self.now group ≡ None)
            (λ key. key_of self.now group ≡ Some key.now) }
    {
        match group {
            FieldGroup::Sender => self.sender.as_deref(),
            FieldGroup::Recipient => self.recipient.as_deref(),
            FieldGroup::Subject => self.subject.as_deref(),
        }
    }

    #[tactic(auto, unfolding(crate::specs::Question::finding))]
    fn judge_field(&self, alloc: Global, field: &Field<'_>) -> Result<Finding, AllocError>
        ensures group { IfOk result (λ f. f.group ≡ (finding self.now field.now).0) }
        ensures unread { IfOk result (λ f. f.unread ≡ (finding self.now field.now).1) }
        ensures few { IfOk result (λ f. f.unread ≤ length field.now.1 + 1) }
    {
        let Some(group) = group_of(field.name()) else {
            return Ok(Finding {
                group: None,
                unread: 0,
            });
        };
        let Some(key) = self.key(group) else {
            return Ok(Finding {
                group: None,
                unread: 0,
            });
        };
        let shown = display(alloc, field.raw())?;
        let text = comparable(alloc, shown.text.as_str())?;
        let has_key = contains(key.as_bytes(), text.as_bytes(), Comparator::Octet);
        Ok(Finding {
            group: if has_key { Some(group) } else { None },
            unread: shown.unread,
        })
    }

    /// Whether each text of the question stands in one of the message's fields of its group, and how much of these
    /// fields could not be read. Texts are compared as people read them (`display`), without case, with composed and
    /// decomposed letters alike (The Unicode Standard, section 3.13, D145), and with each run of white space as one space,
    /// so that it does not matter where and how a field is folded (RFC 5322, section 2.2.3). Other fields and the message's
    /// body are not looked at. The one error is out of memory.
    pub fn judge(&self, alloc: Global, message: &[u8]) -> Result<Found, AllocError>
        ensures found { IfOk result (λ f. f.is_found ≡ asks self.now message.now) }
        ensures unread { IfOk result (λ f. f.unread ≡ unread_in self.now message.now) }
    {
        let mut seen = self.unasked();
        let mut unread = 0;
        let mut rest = message;
        while let Some(found) = first_field(rest) {
            let finding = self.judge_field(alloc, &found.field)?;
            seen = seen.with(finding.group);
            unread += finding.unread;
            rest = found.after;
        }
        Ok(Found {
            is_found: seen.is_all(),
            unread,
        })
    }
}
