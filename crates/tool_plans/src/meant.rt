//! The class that was meant by a path that is none.

use class_plan::Plan;
use std::alloc::{AllocError, Global};
use std::str;
use tool_findings::Guess;

/// Whether a path of more segments ends with a word, whatever the case of its letters.
fn ends_with_segment(path: &str, word: &[u8]) -> bool {
    match path.rsplit_once('/') {
        Some((_, last)) => last.as_bytes().eq_ignore_ascii_case(word),
        None => false,
    }
}

/// The class of a plan that was meant, perhaps, by a path that the plan does not have: the one that it has the fewest slips from,
/// as a [`Guess`] finds it, or else the first whose last segment it is.
pub fn meant_class<'p>(
    alloc: Global,
    plan: &'p Plan,
    path: &[u8],
) -> Result<Option<&'p str>, AllocError> {
    let mut by_slips = Guess::new(alloc, path)?;
    let mut by_segment = None;
    let classes = plan.classes(alloc)?;
    for (class, _, _) in classes.as_slice() {
        let Ok(class) = str::from_utf8(*class) else {
            continue;
        };
        by_slips.compare(class)?;
        if by_segment.is_none() && ends_with_segment(class, path) {
            by_segment = Some(class);
        }
    }
    Ok(by_slips.found().or(by_segment))
}
