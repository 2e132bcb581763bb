//! What is asked of messages.

ghost use Rattle.std.specs.Prelude.{◌≡◌, None, IfOk};
ghost use Rattle.record_choice.specs.Choices.{where_asked};
ghost use Rattle.record_question.specs.Questions.{is_yes};
ghost use Rattle.cli_choice.specs.Faults.{blank_typed, IsExplained};
ghost use Rattle.cli_choice.specs.Questions.{IsTestTyped, types_no_texts, fields_typed, asks_nothing, is_found, is_missed, is_found_answer, is_unread_answer, meets_fields, misses_fields};

use choice_words::Choice;
use mail_display::{FieldGroup, FieldQuestion, FieldQuestionFault};
use record_choice::Judge;
use record_question::{QuestionFault, TestQuestion};
use std::alloc::{AllocError, Global};

/// Why what is typed asks nothing.
#[derive(Clone, Copy)]
pub enum QuestionsFault {
    /// The test is none, or none that a rule may have.
    Test(QuestionFault),
    /// The text for fields of this group is empty or blank, so that each field would have it.
    EmptyText(FieldGroup),
    /// No memory.
    NoMemory,
}

/// What is asked of the messages of records.
pub struct Questions {
    /// A test of a rule.
    test: Option<TestQuestion>,
    /// Texts in fields.
    fields: Option<FieldQuestion>,
}

impl Drop for Questions {
    fn drop(self) {
        let Questions { test: _, fields: _ } = self;
    }
}

/// What a message answers.
#[derive(Clone, Copy)]
pub enum Answer {
    /// It has all that is asked.
    Found,
    /// It lacks a text, but fields that the text is looked for in could not be read in full.
    Unread,
    /// It lacks something.
    Lacking,
}

impl From<QuestionFault> for QuestionsFault {
    ghost use Rattle.std.specs.Prelude.{◌≡◌};
    ghost use Rattle.cli_choice.specs.Faults.{of_test};

    ghost from_gives = { λ e f. f ≡ of_test e };

    fn from(fault: QuestionFault) -> QuestionsFault {
        match fault {
            QuestionFault::NoMemory => QuestionsFault::NoMemory,
            fault => QuestionsFault::Test(fault),
        }
    }
}

impl From<FieldQuestionFault> for QuestionsFault {
    ghost use Rattle.std.specs.Prelude.{◌≡◌};
    ghost use Rattle.cli_choice.specs.Faults.{of_fields};

    ghost from_gives = { λ e f. f ≡ of_fields e };

    fn from(fault: FieldQuestionFault) -> QuestionsFault {
        match fault {
            FieldQuestionFault::Empty(group) => QuestionsFault::EmptyText(group),
            FieldQuestionFault::NoMemory(_) => QuestionsFault::NoMemory,
        }
    }
}

/// The test that is typed, if one is.
#[tactic(auto, using(crate::proofs::FaultLemmas::test_explained))]
fn read_test(alloc: Global, typed: &Choice<'_>) -> Result<Option<TestQuestion>, QuestionsFault>
    ensures test { IfOk result (λ o. IsTestTyped typed.now.test o) }
    ensures refused { IsExplained typed.now result }
{
    let Some(text) = typed.test else {
        return Ok(None);
    };
    let question = TestQuestion::read(alloc, text.as_bytes())?;
    Ok(Some(question))
}

/// Whether no text is typed for fields.
fn has_no_texts(typed: &Choice<'_>) -> bool
    ensures { result ≡ types_no_texts typed.now }
{
    typed.sender.is_none() && typed.recipient.is_none() && typed.subject.is_none()
}

/// The texts that are typed for fields, if one is.
#[tactic(auto, using(crate::proofs::FaultLemmas::fields_explained, crate::proofs::FaultLemmas::none_blank))]
fn read_fields(alloc: Global, typed: &Choice<'_>) -> Result<Option<FieldQuestion>, QuestionsFault>
    ensures fields { IfOk result (λ o. o ≡ fields_typed typed.now) }
    ensures texts { IfOk result (λ o. blank_typed typed.now ≡ None) }
    ensures refused { IsExplained typed.now result }
{
    if has_no_texts(typed) {
        return Ok(None);
    }
    let question = FieldQuestion::new(alloc, typed.sender, typed.recipient, typed.subject)?;
    Ok(Some(question))
}

impl Questions {
    /// What is typed of messages: the test of a rule, and texts in fields. Refused are a test that no rule may have, and an
    /// empty or blank text: the first of these. The one refusal else is no memory.
    pub fn read(alloc: Global, typed: &Choice<'_>) -> Result<Questions, QuestionsFault>
        ensures test { IfOk result (λ q. IsTestTyped typed.now.test q.test) }
        ensures fields { IfOk result (λ q. q.fields ≡ fields_typed typed.now) }
        ensures texts { IfOk result (λ q. blank_typed typed.now ≡ None) }
        ensures refused { IsExplained typed.now result }
    {
        Ok(Questions {
            test: read_test(alloc, typed)?,
            fields: read_fields(alloc, typed)?,
        })
    }

    /// Whether nothing is asked, so that no message is read.
    pub(crate) fn is_nothing(&self) -> bool
        ensures { result ≡ asks_nothing self.now }
    {
        self.test.is_none() && self.fields.is_none()
    }

    /// Whether a message meets the test, if there is one.
    fn meets_test(&self, alloc: Global, message: &[u8]) -> Result<bool, AllocError>
        ensures { IfOk result (λ b. b ≡ where_asked (λ t. is_yes t message.now) self.now.test) }
    {
        match &self.test {
            Some(test) => test.judge(alloc, message),
            None => Ok(true),
        }
    }

    /// What a message answers to the texts, if there are any.
    fn answer_by_fields(&self, alloc: Global, message: &[u8]) -> Result<Answer, AllocError>
        ensures found { IfOk result
            (λ x. is_found_answer x ≡ meets_fields self.now.fields message.now) }
        ensures unread { IfOk result
            (λ x. is_unread_answer x ≡ misses_fields self.now.fields message.now) }
    {
        let Some(fields) = &self.fields else {
            return Ok(Answer::Found);
        };
        let found = fields.judge(alloc, message)?;
        if found.is_found {
            Ok(Answer::Found)
        } else if found.unread > 0 {
            Ok(Answer::Unread)
        } else {
            Ok(Answer::Lacking)
        }
    }

    /// What a message answers. Fails only for want of memory.
    pub fn answer(&self, alloc: Global, message: &[u8]) -> Result<Answer, AllocError>
        ensures found { IfOk result (λ x. is_found_answer x ≡ is_found self.now message.now) }
        ensures unread { IfOk result (λ x. is_unread_answer x ≡ is_missed self.now message.now) }
    {
        let is_met = self.meets_test(alloc, message)?;
        if !is_met {
            return Ok(Answer::Lacking);
        }
        self.answer_by_fields(alloc, message)
    }
}
