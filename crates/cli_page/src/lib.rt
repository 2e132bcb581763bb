//! Pages of HTML on an archive, without scripts and without anything that they would load: a report, and the index of an
//! export.
//!
//! A [`Report`] counts records one after the other, and keeps what it lists: the holds, and what is due by its day. Then it
//! writes its parts. An [`Index`] lists exported records, with links to their files. What a page has of an archive's names and
//! messages goes through [`Page::text`], and so cannot be taken for markup.
#![tactic(auto)]

mod counts;
mod dates;
mod due_list;
mod escaping;
mod fault;
mod head;
mod holds;
mod index;
mod marks;
mod names;
mod page;
mod report;
mod style;
mod summary;
mod tally;
mod tallying;
mod timeline;
mod titles;
mod years;

pub use counts::{Counts, Seen};
pub use dates::{DueDay, due_day};
pub use escaping::escaped;
pub use fault::ReportFault;
pub use index::{Index, IndexHeading, Order};
pub use names::{file_name, history_name};
pub use page::Page;
pub use report::{Heading, Record, Report};
pub use tally::{ClassCounts, Tally};
pub use years::{Column, Year, Years};
