//! The schedule of a class, and where it comes from.

use class_plan::{Date, Plan, Schedule, day_of, schedule_text};
use std::alloc::{AllocError, Global};
use std::str;
use tool_texts::{Shown, put};

/// Which class of a plan states the schedule of a class.
#[derive(Clone, Copy)]
pub enum StatedBy<'p> {
    Itself,
    Ancestor(&'p [u8]),
    Root,
}

/// Whether a class of a plan, all of whose classes are given in order, states a schedule of its own.
fn states_own(classes: &[(&[u8], bool, Option<Schedule>)], path: &[u8]) -> bool {
    match classes.binary_search_by(|class| class.0.cmp(path)) {
        Ok(place) => classes.get(place).is_some_and(|class| class.2.is_some()),
        Err(_) => false,
    }
}

/// Which class states the schedule of a path, given all classes of the plan in order.
pub fn stated_by<'p>(classes: &[(&[u8], bool, Option<Schedule>)], path: &'p [u8]) -> StatedBy<'p> {
    if states_own(classes, path) {
        return StatedBy::Itself;
    }
    for end in (0..path.len()).rev() {
        if path[end] == b'/' && states_own(classes, &path[..end]) {
            return StatedBy::Ancestor(&path[..end]);
        }
    }
    StatedBy::Root
}

/// Adds where a schedule comes from.
pub fn push_stated(text: &mut Shown, stated: StatedBy<'_>) -> Result<(), AllocError> {
    match stated {
        StatedBy::Itself => text.words("its own"),
        StatedBy::Root => text.words("the root's"),
        StatedBy::Ancestor(path) => {
            text.words("that of ")?;
            text.named(path)
        }
    }
}

/// The schedule of a class as text; none where the path is no class.
pub fn schedule_words(
    alloc: Global,
    plan: &Plan,
    path: &[u8],
) -> Result<Option<String>, AllocError> {
    let Some(schedule) = plan.schedule_of(path) else {
        return Ok(None);
    };
    let octets = schedule_text(alloc, schedule)?;
    let text = str::from_utf8(&octets).unwrap_or("");
    Ok(Some(String::from_str(alloc, text)?))
}

/// When a record of a moment falls due in a class; none for never.
pub fn due_date(plan: &Plan, path: &[u8], moment: u64) -> Option<Date> {
    plan.due_of(path, day_of(moment)?)
}

/// Adds when a record of a moment falls due in a class.
pub fn push_due(text: &mut Shown, plan: &Plan, path: &[u8], moment: u64) -> Result<(), AllocError> {
    match (day_of(moment), due_date(plan, path, moment)) {
        (Some(day), Some(due)) => put!(text; "from " value(&day) " due " value(&due)),
        _ => text.words("due never"),
    }
}
