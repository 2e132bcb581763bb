//! The plan that listed classes make, or the fault with the smallest number that holds.
ghost use Rattle.std.specs.Prelude.{◌≡◌, ◌≢◌, not, is_some, Ok, Err, IfOk, IfErr, OnOk, MatchResult, map, unwrap_or, []};
ghost use Rattle.std.specs.List.{list_any};
ghost use Rattle.std.specs.List.Sorted.{IsStrictlySortedBy};
ghost use Rattle.std.specs.Ordering.{nat_cmp};
ghost use Rattle.std.specs.Cmp.Lexicographic.{slice_cmp};
ghost use Rattle.class_paths.specs.Path.{is_path, has_parent_in, unfiled};
ghost use Rattle.class_plan.specs.Faults.{verdict, HoldsNone, IsSmallest};
ghost use Rattle.class_plan.specs.Plans.{has, paths_of};
ghost use Rattle.class_plan.specs.Fields.{rows_in};
ghost use Rattle.class_plan.specs.Entries.{entry_view, is_faulty, own_of, rows_from, comes_again, with_unfiled, contents_faults, contents, plan_of, IsListable};
ghost use Rattle.class_plan.specs.declared.faults.PlanFault.TheVariants.{NoMemory};
ghost use Rattle.class_plan.specs.declared.schedules.Schedule.TheVariants.{Permanent};

use crate::entries::{Listed, Stated};
use crate::faults::PlanFault;
use crate::plans::{Class, MAX_CLASSES, Plan, class_at, has_parent};
use crate::schedules::Schedule;
use class_paths::{UNFILED, fits_path};
use std::alloc::{AllocError, Global};
use std::collections::BTreeMap;

/// Listed classes as a plan keeps them, with `unfiled` among them.
#[derive(Drop)]
struct Gathered {
    classes: BTreeMap<Vec<u8>, Class>,
    /// Whether a path was listed twice.
    is_twice: bool,
}

fn own_schedule(stated: Stated) -> Option<Schedule>
    ensures { result ≡ own_of stated }
{
    match stated {
        Stated::Own(schedule) => Some(schedule),
        Stated::Nothing | Stated::Faulty => None,
    }
}

/// The listed classes as a map, and whether a path appears twice.
fn insert_all(
    alloc: Global,
    listed: &[Listed<'_>],
) -> Result<(BTreeMap<Vec<u8>, Class>, bool), AllocError>
    ensures rows { IfOk result (λ p. rows_in p.0 ≡ rows_from [] (map entry_view listed.now)) }
    ensures twice { IfOk result (λ p. p.1 ≡ comes_again [] (map entry_view listed.now)) }
{
    let mut classes = BTreeMap::new(alloc);
    let mut is_twice = false;
    for class in listed {
        let path = Vec::from_slice(alloc, class.path)?;
        let held = Class {
            is_open: class.is_open,
            schedule: own_schedule(class.stated),
        };
        let old = classes.insert(path, held)?;
        is_twice = is_twice || old.is_some();
    }
    Ok((classes, is_twice))
}

/// Adds `unfiled`, open and without a schedule of its own, where it is missing.
fn add_unfiled(
    alloc: Global,
    mut classes: BTreeMap<Vec<u8>, Class>,
) -> Result<BTreeMap<Vec<u8>, Class>, AllocError>
    ensures { IfOk result (λ m. rows_in m ≡ with_unfiled (rows_in classes)) }
{
    if class_at(&classes, UNFILED).is_none() {
        let path = Vec::from_slice(alloc, UNFILED)?;
        let class = Class {
            is_open: true,
            schedule: None,
        };
        classes.insert(path, class)?;
    }
    Ok(classes)
}

fn gather(alloc: Global, listed: &[Listed<'_>]) -> Result<Gathered, AllocError>
    ensures rows { IfOk result
        (λ g. rows_in g.classes ≡ with_unfiled (rows_from [] (map entry_view listed.now))) }
    ensures twice { IfOk result (λ g. g.is_twice ≡ comes_again [] (map entry_view listed.now)) }
{
    let (classes, is_twice) = insert_all(alloc, listed)?;
    Ok(Gathered {
        classes: add_unfiled(alloc, classes)?,
        is_twice,
    })
}

fn has_bad_path(listed: &[Listed<'_>]) -> bool
    ensures { result ≡ list_any (λ c. not (is_path c.path.now)) listed.now }
{
    listed.iter().any(|class| !fits_path(class.path))
}

/// Whether the parent of some path is no class.
fn lacks_parent(classes: &BTreeMap<Vec<u8>, Class>, listed: &[Listed<'_>]) -> bool
    ensures { result
        ≡ list_any (λ c. not (has_parent_in (has (rows_in classes.now)) c.path.now)) listed.now }
{
    listed.iter().any(|class| !has_parent(classes, class.path))
}

fn states_faulty(stated: Stated) -> bool
    ensures { result ≡ is_faulty stated }
{
    match stated {
        Stated::Faulty => true,
        Stated::Nothing | Stated::Own(_) => false,
    }
}

fn has_bad_schedule(listed: &[Listed<'_>]) -> bool
    ensures { result ≡ list_any (λ c. is_faulty c.stated) listed.now }
{
    listed.iter().any(|class| states_faulty(class.stated))
}

/// The root's schedule, or the smallest of the faults 52 to 56 that holds.
fn checked_root(
    root: Option<Schedule>,
    gathered: &Gathered,
    listed: &[Listed<'_>],
) -> Result<Schedule, PlanFault>
    requires rows { rows_in gathered.now.classes
        ≡ with_unfiled (rows_from [] (map entry_view listed.now)) }
    requires twice { gathered.now.is_twice ≡ comes_again [] (map entry_view listed.now) }
    ensures judged { result
        ≡ verdict (contents_faults (contents root listed.now)) (unwrap_or root Permanent) }
    ensures in_order { OnOk result
        (IsStrictlySortedBy (slice_cmp nat_cmp) (paths_of (rows_in gathered.now.classes))) }
{
    if has_bad_path(listed) {
        return Err(PlanFault::BadPath);
    }
    if lacks_parent(&gathered.classes, listed) {
        return Err(PlanFault::ParentMissing);
    }
    if gathered.is_twice {
        return Err(PlanFault::PathTwice);
    }
    let Some(root) = root else {
        return Err(PlanFault::BadSchedule);
    };
    if has_bad_schedule(listed) {
        return Err(PlanFault::BadSchedule);
    }
    if gathered.classes.len() > MAX_CLASSES {
        return Err(PlanFault::TooManyClasses);
    }
    Ok(root)
}

/// The plan of a root's schedule, which is `None` where it is not well made, and of listed classes.
///
/// Refused with the smallest of 52 to 56 that holds, or with 99 (no memory).
pub(crate) fn plan_from(
    alloc: Global,
    root: Option<Schedule>,
    listed: &[Listed<'_>],
) -> Result<Plan, PlanFault>
    requires { IsListable (contents root listed.now) }
    ensures plan { IfOk result (λ p. plan_of (contents root listed.now) ≡ Ok p) }
    ensures refused { IfErr result
        (λ f. f ≢ NoMemory → plan_of (contents root listed.now) ≡ Err f) }
{
    let gathered = gather(alloc, listed)?;
    let root = checked_root(root, &gathered, listed)?;
    let Gathered { classes, .. } = gathered;
    Ok(Plan {
        alloc,
        root,
        classes,
    })
}
