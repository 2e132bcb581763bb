//! Mboxes (RFC 4155): the messages in one, a line at a time, so that no more than one message is in memory.
//!
//! - `marks`: which lines separate messages, and which are quoted;
//! - `splitter`: the messages, as lines come;
//! - `undated`: lines that look like separators and have no date;
//! - `judging`: octets that are no message, since they are an mbox, or have no field, or are none.
//!
//! An mbox begins with a separator, which is a line that begins with "From " and has a date as C's `asctime` writes it. Each
//! separator after an empty line begins another message. That empty line is no part of the message before it. Of a line of one
//! `>` or more before "From " one is taken away, which is the rule of mboxrd. A line ends in an LF, or in a CR and an LF.
//!
//! In `specs/`, `Marks` and `Boxes` say which messages an mbox has, by its lines, `Undated` which of its lines look like
//! separators and are none, and `NoMail` what is no message.
#![tactic(auto)]

mod judging;
mod marks;
mod splitter;
mod undated;

pub use judging::{NoMail, is_mbox, judge_message};
pub use marks::is_separator;
pub use splitter::{BoxMessage, MessageSplitter};
pub use undated::UndatedLines;
