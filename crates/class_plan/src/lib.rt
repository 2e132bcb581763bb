//! Classes of records and their disposal schedules: which classes there are, which of them are
//! open, and when a record of a class falls due.
#![tactic(auto)]

mod changes;
mod dates;
mod document;
mod entries;
mod faults;
mod files;
mod parts;
mod plan_rules;
mod plans;
mod readers;
mod schedules;
mod texts;

pub use dates::{date_of, day_number, day_of, due_date};
pub use faults::PlanFault;
pub use jiff::civil::Date;
pub use plans::Plan;
pub use schedules::{Action, Schedule, Unit};
pub use texts::{schedule_of_text, schedule_text};
