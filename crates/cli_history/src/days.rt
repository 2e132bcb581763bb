//! Days of events, as texts.

use class_plan::date_of;
use std::alloc::{AllocError, Global};

/// A day by its number from 1970-01-01 on, as `2033-11-28`.
pub fn day_text(alloc: Global, number: u32) -> Result<String, AllocError> {
    match date_of(i64::from(number)) {
        Some(day) => format!(in alloc; "{day}"),
        None => format!(in alloc; "day {number}"),
    }
}
