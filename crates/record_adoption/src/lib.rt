//! An archive's tables, taken over: they are read and judged, moved over from version 1, and their due days are renewed
//! where they are wrong.
#![tactic(auto)]

mod common_rows;
mod counts;
mod overview;
mod plan_days;
mod plan_rows;
mod settle;
mod tallies;
mod text_rows;
mod version;

pub use counts::Counts;
pub use overview::Overview;
pub use plan_days::{LAST_CAPTURE_DAY, due_day_of, due_rows_by, number_of};
pub use settle::settle_version;
pub use version::{First, Second, Version};
