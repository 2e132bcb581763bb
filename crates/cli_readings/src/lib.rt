//! What `mailfile-store` reads of an archive, for each of its subcommands that change nothing.
//!
//! - `choice`: what is asked of the records that a command is about; `conditions`: the same as it can be typed;
//! - `list`, `show`, `export`, `judge` (for `check`), `why` and `report`: these subcommands;
//! - `exporting`: what an export makes of each record; `outgoing` and `destination`: where that goes, and how much it is;
//! - `twice`: what `list --twice` lists; `groups`: records by the seals of their messages;
//! - `altered`: records whose messages are not the ones that were captured;
//! - `folder`: the files of an export;
//! - `sums`: what a copy is compared by;
//! - `volume_reader`: who reads the records of an archive of volumes; `volume_lists`, `volume_twice`, `volume_exports` and
//!   `volume_reports`: what `list` lists, `export` exports and `report` reports of one.
//!
//! Each works on a store that is lent to it. What a list, a check, a report and an export hand over, contracts say; that it
//! comes to a terminal or a file, tests of the program show.
#![tactic(auto)]

mod altered;
mod choice;
mod conditions;
mod destination;
mod export;
mod exporting;
mod folder;
mod groups;
mod judge;
mod list;
mod outgoing;
mod report;
mod show;
mod sums;
mod twice;
mod volume_exports;
mod volume_lists;
mod volume_reader;
mod volume_reports;
mod volume_twice;
mod why;

pub use altered::Altered;
pub use choice::judge_choice;
pub use export::export_to;
pub use judge::{Contents, Totals, write_contents, write_totals};
pub use list::write_list;
pub use report::write_report;
pub use show::{message_of_record, write_message};
pub use sums::{Judged, Summary, judged_summary, summary_of};
pub use twice::write_twice;
pub use volume_exports::VolumeExport;
pub use volume_lists::VolumeList;
pub use volume_reader::VolumeReader;
pub use volume_reports::VolumeReport;
pub use volume_twice::{TwiceGroups, TwiceList};
pub use why::{Captured, read_captured, write_why};
