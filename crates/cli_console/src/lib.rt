//! What the subcommands of `mailfile-store` share: how they report, and how they go over an archive.
//!
//! - `failure`: why something is not done, and the status that says so; `joined`: what it comes to in several stores;
//! - `output`: what is written for people and programs; `sink`: where lists are written;
//! - `clock`: the time and the day; `counts`: counts that end at the greatest number;
//! - `walk`: the records of an archive, a page at a time; `search`: those that a command line asks for;
//! - `reader`: who takes records one by one; `readings`: how it is handed all that is found.
//!
//! No contract speaks of a clock, a terminal or a stream. So most of these calls are only proved to be safe, and tests of the
//! program show what they do. In `specs/`, `Turns` says what a call for the next page answers, and `Finds` what a reader is handed.
#![tactic(auto)]

mod clock;
mod counts;
mod failure;
mod joined;
mod output;
mod reader;
mod readings;
mod search;
mod sink;
mod walk;

pub use clock::{day_or_today, is_by, judge_day, now, today};
pub use counts::counted;
pub use failure::{Failure, Status, refusal_words};
pub use joined::Joined;
pub use output::{
    agrees, in_array, put_numbers, put_typed, tell, tell_in, tell_words, tell_words_in,
    text_between, told_now, write_data, write_text,
};
pub use reader::Reader;
pub use readings::read_chosen;
pub use search::Search;
pub use sink::{Sink, StandardOutput};
pub use walk::{Walk, message_of};
