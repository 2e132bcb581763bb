//! Classes and schedules that a plan may not have (51 to 56).

ghost use Rattle.std.specs.Prelude.{◌≡◌, IfOk, IfSome, is_some, string_bytes, true};
ghost use Rattle.class_plan.specs.Texts.{schedule_of_bytes};

use crate::findings::Findings;
use crate::outline::{Key, Outline, Owner, Written};
use class_paths::{UNFILED, fits_path};
use class_plan::{PlanFault, schedule_of_text};
use std::alloc::{AllocError, Global};
use std::collections::BTreeMap;
use tool_texts::{place_of, quoted, refusal_text};

/// The most classes of a plan, `unfiled` among them.
const MAX_CLASSES: usize = 4096;

/// What a schedule looks like.
const FORM: &str =
    "write permanent, or a count, a unit and an action as in 7 years destroy, with year-end after it or without: up to 366000 days, 12000 months or 1000 years, and review, transfer or destroy";

/// A text of a file and where it begins, an offset in octets.
#[derive(Clone, Copy)]
struct Stated<'o> {
    text: &'o str,
    at: usize,
}

/// A class as it is listed.
#[derive(Clone, Copy)]
struct Class<'o> {
    /// Where it begins, an offset in octets.
    at: usize,
    path: Option<Stated<'o>>,
    schedule: Option<Stated<'o>>,
    /// Where it is closed, an offset in octets.
    closed_at: Option<usize>,
}

/// The text of a key's value, if it is one.
fn text_of(key: &Key) -> Option<Stated<'_>> {
    match &key.value {
        Written::Text(text) => Some(Stated {
            text: text.as_str(),
            at: key.value_at,
        }),
        _ => None,
    }
}

/// Notes a key of a class.
fn note<'o>(class: &mut Class<'o>, key: &'o Key) {
    match key.name.as_str() {
        "path" => class.path = text_of(key),
        "schedule" => class.schedule = text_of(key),
        "open" => {
            if let Written::Truth(false) = key.value {
                class.closed_at = Some(key.value_at);
            }
        }
        _ => {}
    }
}

/// The classes of a file, in the order of its text.
fn classes_of(alloc: Global, outline: &Outline) -> Result<Vec<Class<'_>>, AllocError> {
    let mut classes = Vec::new(alloc);
    for at in outline.classes.as_slice() {
        classes.push(Class {
            at: *at,
            path: None,
            schedule: None,
            closed_at: None,
        })?;
    }
    for key in outline.keys.as_slice() {
        if let Owner::Class(number) = key.owner {
            if let Some(class) = classes.get_mut(number) {
                note(class, key);
            }
        }
    }
    Ok(classes)
}

/// Whether a path is that of `unfiled`.
fn is_unfiled(path: &str) -> bool {
    path.as_bytes() == UNFILED
}

/// Adds that a class has no path, or closes `unfiled`.
fn judge_class(
    alloc: Global,
    findings: &mut Findings,
    class: &Class<'_>,
) -> Result<(), AllocError> {
    match (class.path, class.closed_at) {
        (None, _) => {
            let words = String::from_str(alloc, "this class has no path in quotation marks")?;
            findings.add(PlanFault::BadShape, class.at, words)
        }
        (Some(path), Some(at)) if is_unfiled(path.text) => {
            let words = String::from_str(alloc, "the class \"unfiled\" cannot be closed")?;
            findings.add(PlanFault::BadShape, at, words)
        }
        _ => Ok(()),
    }
}

/// Adds that a path is not well made.
fn judge_path(alloc: Global, findings: &mut Findings, path: Stated<'_>) -> Result<(), AllocError> {
    if fits_path(path.text.as_bytes()) {
        return Ok(());
    }
    let shown = quoted(alloc, path.text.as_bytes())?;
    let rule = "1 to 8 segments of 1 to 40 of the letters a to z, digits and -, joined by /";
    let words = format!(in alloc; "the path {shown} is not {rule}")?;
    findings.add(PlanFault::BadPath, path.at, words)
}

/// The first place of each path, an offset in octets.
fn first_places(
    alloc: Global,
    classes: &[Class<'_>],
) -> Result<BTreeMap<Vec<u8>, usize>, AllocError> {
    let mut places = BTreeMap::new(alloc);
    for class in classes {
        if let Some(path) = class.path {
            if places.get(path.text.as_bytes()).is_none() {
                places.insert(Vec::from_slice(alloc, path.text.as_bytes())?, path.at)?;
            }
        }
    }
    Ok(places)
}

/// Adds that the parent of a path that is well made is no class.
fn judge_parent(
    alloc: Global,
    findings: &mut Findings,
    places: &BTreeMap<Vec<u8>, usize>,
    path: Stated<'_>,
) -> Result<(), AllocError> {
    let Some((parent, _)) = path.text.rsplit_once('/') else {
        return Ok(());
    };
    if !fits_path(path.text.as_bytes()) {
        return Ok(());
    }
    if is_unfiled(parent) || places.get(parent.as_bytes()).is_some() {
        return Ok(());
    }
    let shown = quoted(alloc, path.text.as_bytes())?;
    let parent = quoted(alloc, parent.as_bytes())?;
    let words = format!(in alloc; "there is no class {parent}, the parent of {shown}; add it")?;
    findings.add(PlanFault::ParentMissing, path.at, words)
}

/// Adds that a path is listed a second time.
fn judge_twice(
    alloc: Global,
    findings: &mut Findings,
    text: &[u8],
    places: &BTreeMap<Vec<u8>, usize>,
    path: Stated<'_>,
) -> Result<(), AllocError> {
    match places.get(path.text.as_bytes()) {
        Some(first) if *first != path.at && findings.is_full() => {
            findings.count();
            Ok(())
        }
        Some(first) if *first != path.at => {
            let shown = quoted(alloc, path.text.as_bytes())?;
            let line = place_of(text, *first).line;
            let words = format!(in alloc; "the class {shown} is listed in line {line} already")?;
            findings.add(PlanFault::PathTwice, path.at, words)
        }
        _ => Ok(()),
    }
}

/// The schedule that was likely meant by a text with its unit in the singular, as `1 month destroy`. None where that is no
/// schedule either.
fn meant_schedule(alloc: Global, text: &str) -> Result<Option<String>, AllocError>
    ensures { IfOk result (λ o. IfSome o
        (λ s. is_some (schedule_of_bytes (string_bytes s)) ≡ true)) }
{
    let Some((count, rest)) = text.split_once(' ') else {
        return Ok(None);
    };
    let Some((unit, action)) = rest.split_once(' ') else {
        return Ok(None);
    };
    if !matches!(unit, "day" | "month" | "year") {
        return Ok(None);
    }
    let meant = format!(in alloc; "{count} {unit}s {action}")?;
    match schedule_of_text(meant.as_bytes()) {
        Some(_) => Ok(Some(meant)),
        None => Ok(None),
    }
}

/// What a schedule looks like: the one that was likely meant, or else each form.
fn form_for(alloc: Global, text: &str) -> Result<String, AllocError> {
    match meant_schedule(alloc, text)? {
        Some(meant) => format!(in alloc; "write {meant}, with the unit in the plural"),
        None => String::from_str(alloc, FORM),
    }
}

/// Adds that a schedule is not well made.
fn judge_schedule(
    alloc: Global,
    findings: &mut Findings,
    owner: Option<Stated<'_>>,
    schedule: Stated<'_>,
) -> Result<(), AllocError> {
    if schedule_of_text(schedule.text.as_bytes()).is_some() {
        return Ok(());
    }
    let shown = quoted(alloc, schedule.text.as_bytes())?;
    let form = form_for(alloc, schedule.text)?;
    let words = match owner {
        Some(path) => {
            let path = quoted(alloc, path.text.as_bytes())?;
            format!(in alloc; "{shown} of the class {path} is no schedule; {form}")?
        }
        None => format!(in alloc; "{shown} is no schedule; {form}")?,
    };
    findings.add(PlanFault::BadSchedule, schedule.at, words)
}

/// Adds each schedule that is not well made, the root's first.
fn judge_schedules(
    alloc: Global,
    findings: &mut Findings,
    outline: &Outline,
    classes: &[Class<'_>],
) -> Result<(), AllocError> {
    for key in outline.keys.as_slice() {
        if key.owner == Owner::File && key.name.as_str() == "root" {
            if let Some(schedule) = text_of(key) {
                judge_schedule(alloc, findings, None, schedule)?;
            }
        }
    }
    for class in classes {
        if let Some(schedule) = class.schedule {
            judge_schedule(alloc, findings, class.path, schedule)?;
        }
    }
    Ok(())
}

/// Adds that there are too many classes, where the last one is.
fn judge_count(
    findings: &mut Findings,
    alloc: Global,
    places: &BTreeMap<Vec<u8>, usize>,
    classes: &[Class<'_>],
) -> Result<(), AllocError> {
    let count = places
        .len()
        .saturating_add(usize::from(places.get(UNFILED).is_none()));
    match classes.last() {
        Some(last) if count > MAX_CLASSES => {
            let words = refusal_text(PlanFault::TooManyClasses.number()).unwrap_or("");
            let words = format!(in alloc; "{words}: with unfiled there are {count}")?;
            findings.add(PlanFault::TooManyClasses, last.at, words)
        }
        _ => Ok(()),
    }
}

/// Adds what is wrong with the paths of classes: not well made, then without a parent, then there twice.
fn judge_paths(
    alloc: Global,
    findings: &mut Findings,
    text: &[u8],
    places: &BTreeMap<Vec<u8>, usize>,
    classes: &[Class<'_>],
) -> Result<(), AllocError> {
    let mut paths = Vec::new(alloc);
    for class in classes {
        if let Some(path) = class.path {
            judge_path(alloc, findings, path)?;
            paths.push(path)?;
        }
    }
    for path in paths.as_slice() {
        judge_parent(alloc, findings, places, *path)?;
    }
    for path in paths.as_slice() {
        judge_twice(alloc, findings, text, places, *path)?;
    }
    Ok(())
}

/// Adds what is wrong with the classes and schedules of a file, in the order of the numbers of refusals.
pub(crate) fn judge_classes(
    alloc: Global,
    findings: &mut Findings,
    text: &[u8],
    outline: &Outline,
) -> Result<(), AllocError> {
    let classes = classes_of(alloc, outline)?;
    for class in classes.as_slice() {
        judge_class(alloc, findings, class)?;
    }
    let places = first_places(alloc, classes.as_slice())?;
    judge_paths(alloc, findings, text, &places, classes.as_slice())?;
    judge_schedules(alloc, findings, outline, classes.as_slice())?;
    judge_count(findings, alloc, &places, classes.as_slice())
}
