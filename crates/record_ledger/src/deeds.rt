//! The deeds that changes are noted by.

ghost use Rattle.std.specs.Prelude.{◌≡◌, ◌≤◌, map, IfOk};
ghost use Rattle.class_plan.specs.Calendar.{number_of_day};
ghost use Rattle.class_plan.specs.Dates.{IsCaptureDay};
ghost use Rattle.record_ledger.specs.Notes.{number_since_1970 as number_since};

use class_paths::Paths;
use class_plan::{Date, day_number};
use std::alloc::{AllocError, Global};

/// The number of a day on which messages are captured, from 1970-01-01 on.
pub(crate) fn capture_number(day: Date) -> u32
    requires { IsCaptureDay day }
    ensures number { result ≡ number_of_day day }
    ensures small { result ≤ 84005 }
{
    day_number(day) as u32
}

/// The number of a day from 1970-01-01 on; 0 for a day before it, by which nothing is destroyed.
pub(crate) fn number_since_1970(day: Date) -> u32
    ensures number { result ≡ number_since day }
    ensures small { result ≤ 2932896 }
{
    let number = day_number(day);
    if number < 0 {
        return 0;
    }
    number as u32
}

/// The paths of classes.
pub(crate) fn path_list(alloc: Global, paths: &Paths) -> Result<Vec<&[u8]>, AllocError>
    ensures { IfOk result (λ v. map (λ p. p.now) v.items ≡ paths.now) }
{
    let mut list = Vec::with_capacity(alloc, paths.as_slice().len())?;
    for path in paths.as_slice() {
        list.push(path.as_slice())?;
    }
    Ok(list)
}
