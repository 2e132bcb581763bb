//! A plan from its parts, as a store keeps them.
ghost use Rattle.std.specs.Prelude.{◌≡◌, ◌≢◌, ◌&&◌, not, Ok, Err, IfOk, IfErr, MatchResult, map};
ghost use Rattle.std.specs.List.{list_any};
ghost use Rattle.class_plan.specs.Faults.{HoldsNone, IsSmallest};
ghost use Rattle.class_plan.specs.Plans.{Listing, IsPlan};
ghost use Rattle.class_plan.specs.Entries.{entry_view};
ghost use Rattle.class_plan.specs.Parts.{in_range, if_in_range, part_entry, part_row, parts_contents, is_closed_unfiled, parts_faults, plan_of_parts};
ghost use Rattle.class_plan.specs.declared.faults.PlanFault.TheVariants.{NoMemory};

use crate::entries::{Listed, Stated};
use crate::faults::PlanFault;
use crate::plan_rules::plan_from;
use crate::plans::Plan;
use crate::schedules::Schedule;
use crate::texts::limit_of;
use class_paths::UNFILED;
use std::alloc::{AllocError, Global};

/// Whether the count, if there is one, is in its unit's range.
fn is_in_range(schedule: Schedule) -> bool
    ensures { result ≡ in_range schedule }
{
    match schedule {
        Schedule::Permanent => true,
        Schedule::After { count, unit, .. } => 1 <= count && count <= limit_of(unit),
    }
}

/// The schedule, if its count is in range.
fn in_range_only(schedule: Schedule) -> Option<Schedule>
    ensures { result ≡ if_in_range schedule }
{
    if is_in_range(schedule) {
        Some(schedule)
    } else {
        None
    }
}

fn listed_part(part: &(Vec<u8>, bool, Option<Schedule>)) -> Listed<'_>
    ensures { entry_view result ≡ part_entry part.now }
{
    let stated = match part.2 {
        Some(schedule) => match in_range_only(schedule) {
            Some(schedule) => Stated::Own(schedule),
            None => Stated::Faulty,
        },
        None => Stated::Nothing,
    };
    Listed {
        path: part.0.as_slice(),
        is_open: part.1,
        stated,
    }
}

fn list_parts(
    alloc: Global,
    parts: &[(Vec<u8>, bool, Option<Schedule>)],
) -> Result<Vec<Listed<'_>>, AllocError>
    ensures { IfOk result (λ v. map entry_view v.items ≡ map part_entry parts.now) }
{
    let mut listed = Vec::with_capacity(alloc, parts.len())?;
    for part in parts {
        listed.push(listed_part(part))?;
    }
    Ok(listed)
}

fn is_unfiled_closed(class: &Listed<'_>) -> bool
    ensures { result ≡ is_closed_unfiled (entry_view class.now) }
{
    class.path == UNFILED && !class.is_open
}

fn closes_unfiled(listed: &[Listed<'_>]) -> bool
    ensures { result ≡ list_any (λ c. is_closed_unfiled (entry_view c)) listed.now }
{
    listed.iter().any(|class| is_unfiled_closed(class))
}

impl Plan {
    /// The plan of its parts: the root's schedule, and for each class its path, whether it is open,
    /// and its own schedule, if it has one. The parts of a plan give that plan.
    ///
    /// Refused with 99 (no memory), or else with the smallest number that holds:
    ///
    /// - 51: `unfiled` is closed;
    /// - 52: a path is not well made;
    /// - 53: a parent is no class;
    /// - 54: a path appears twice;
    /// - 55: a count is out of range;
    /// - 56: there are more than 4,096 classes, `unfiled` among them.
    pub fn from_parts(
        alloc: Global,
        root: Schedule,
        classes: Vec<(Vec<u8>, bool, Option<Schedule>)>,
    ) -> Result<Plan, PlanFault>
        ensures plan { IfOk result (λ p. plan_of_parts (parts_contents root classes.items) ≡ Ok p) }
        ensures refused { IfErr result
            (λ f. f ≢ NoMemory → plan_of_parts (parts_contents root classes.items) ≡ Err f) }
        ensures smallest { MatchResult result
            (λ _. HoldsNone (parts_faults (parts_contents root classes.items)))
            (λ f. f ≢ NoMemory → IsSmallest (parts_faults (parts_contents root classes.items)) f) }
        ensures same { (p : Listing) → IsPlan p → root ≡ p.root → map part_row classes.items
            ≡ p.rows → MatchResult result (λ q. q ≡ p) (λ f. f ≡ NoMemory) }
    {
        let listed = list_parts(alloc, classes.as_slice())?;
        if closes_unfiled(listed.as_slice()) {
            return Err(PlanFault::BadShape);
        }
        plan_from(alloc, in_range_only(root), listed.as_slice())
    }
}
