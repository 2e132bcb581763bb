//! A test of a rule (RFC 5228, section 5) as a question on messages. What a question finds is what a rule with the same
//! test would file: the answer is the truth of the test in the case of the message, by the definition that rules have.
//!
//! In `specs/`, `Questions` says which texts are questions, and for which messages the answer is yes.
#![tactic(auto)]

mod fault;
mod question;

pub use fault::QuestionFault;
pub use question::TestQuestion;
