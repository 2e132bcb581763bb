//! Due dates, as a report counts them.

ghost use Rattle.cli_page.specs.Days.{IsDueDay};

use class_plan::{Date, day_number};

/// A due date, as a report counts it.
#[derive(Clone, Copy)]
pub struct DueDay {
    /// Its day, counted from 1970-01-01.
    pub day: u32,
    /// Its year.
    pub year: u16,
}

/// A date as a report counts it. None for one before 1970.
pub fn due_day(date: Date) -> Option<DueDay>
    ensures { IsDueDay date result }
{
    let Ok(day) = u32::try_from(day_number(date)) else {
        return None;
    };
    let Ok(year) = u16::try_from(date.year()) else {
        return None;
    };
    Some(DueDay { day, year })
}
