//! The history of an archive: its events, the line of each, the chain of marks over the lines, and what the events say of the
//! archive.
//!
//! In `specs/`, `Events` says what an event is, `Lines` how it is written, `Spelled` which events have a line, `Chain` how
//! lines are marked, `Replay` what events make of an archive, and `Laws` that each command of the archive with its event
//! keeps the history true. `Readable` and `OneReading` say which events have a line of their own, and `Titles` which title
//! a class has. `Reading` follows the code that reads a line, and `Views` leads from its types to the definitions.
#![tactic(auto)]

mod dates;
mod days;
mod deed_readers;
mod deeds;
mod events;
mod faults;
mod laws;
mod lines;
mod marks;
mod readable;
mod readers;
mod reading;
mod seals;
mod texts;
mod words;

pub use events::{Deed, Event, Filing, Listing, Seal};
pub use faults::LineFault;
pub use laws::{commands_are_told, lines_have_one_reading};
pub use lines::{LAST_DAY, LAST_MOMENT, event_line};
pub use marks::next_mark;
pub use reading::{read_line, read_line_again};
pub use seals::seal_of;
