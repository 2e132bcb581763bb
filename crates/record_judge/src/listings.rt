//! Plans of listings.

ghost use Rattle.std.specs.Prelude.{◌≡◌, ◌↔◌, ◌⊎◌, IsTrue, IfOk, IfErr, map};
ghost use Rattle.class_plan.specs.Parts.{answer_row, part_row};
ghost use Rattle.class_plan.specs.Plans.{IsPlan};
ghost use Rattle.record_history.specs.Views.{listing_view};

use crate::faults::Misdeed;
use class_plan::{Action, Plan, PlanFault, Schedule, Unit};
use record_history::Listing;
use std::alloc::{AllocError, Global};

/// A class: its path, whether it is open, and its own schedule, if it has one.
type Class<'a> = (&'a [u8], bool, Option<Schedule>);

/// The same with a path of its own.
type Part = (Vec<u8>, bool, Option<Schedule>);

fn is_same_unit(one: Unit, other: Unit) -> bool
    ensures { IsTrue result ↔ (one ≡ other) }
{
    match one {
        Unit::Days => matches!(other, Unit::Days),
        Unit::Months => matches!(other, Unit::Months),
        Unit::Years => matches!(other, Unit::Years),
    }
}

fn is_same_action(one: Action, other: Action) -> bool
    ensures { IsTrue result ↔ (one ≡ other) }
{
    match one {
        Action::Review => matches!(other, Action::Review),
        Action::Transfer => matches!(other, Action::Transfer),
        Action::Destroy => matches!(other, Action::Destroy),
    }
}

fn is_same_schedule(one: Schedule, other: Schedule) -> bool
    ensures { IsTrue result ↔ (one ≡ other) }
{
    match one {
        Schedule::Permanent => matches!(other, Schedule::Permanent),
        Schedule::After {
            count,
            unit,
            action,
            year_end,
        } => match other {
            Schedule::Permanent => false,
            Schedule::After {
                count: other_count,
                unit: other_unit,
                action: other_action,
                year_end: other_end,
            } => {
                count == other_count
                    && is_same_unit(unit, other_unit)
                    && is_same_action(action, other_action)
                    && year_end == other_end
            }
        },
    }
}

pub(crate) fn is_same_own(one: Option<Schedule>, other: Option<Schedule>) -> bool
    ensures { IsTrue result ↔ (one ≡ other) }
{
    match one {
        None => other.is_none(),
        Some(one) => match other {
            None => false,
            Some(other) => is_same_schedule(one, other),
        },
    }
}

fn is_same_class(one: &Class<'_>, other: &Class<'_>) -> bool
    ensures { IsTrue result ↔ (answer_row one.now ≡ answer_row other.now) }
{
    one.0 == other.0 && one.1 == other.1 && is_same_own(one.2, other.2)
}

fn are_same_classes(ones: &[Class<'_>], others: &[Class<'_>]) -> bool
    ensures { IsTrue result ↔ (map answer_row ones.now ≡ map answer_row others.now) }
{
    if ones.len() != others.len() {
        return false;
    }
    for place in 0..ones.len() {
        if !is_same_class(&ones[place], &others[place]) {
            return false;
        }
    }
    true
}

/// Whether a plan has this listing. The only refusal is no memory (99).
fn is_listed(alloc: Global, plan: &Plan, listing: &Listing<'_>) -> Result<bool, AllocError>
    ensures { IfOk result (λ b. IsTrue b ↔ (plan.now ≡ listing_view listing.now)) }
{
    let classes = plan.classes(alloc)?;
    Ok(
        is_same_schedule(plan.root(), listing.root)
            && are_same_classes(classes.as_slice(), listing.classes.as_slice()),
    )
}

fn part_of(alloc: Global, class: &Class<'_>) -> Result<Part, AllocError>
    ensures { IfOk result (λ p. part_row p ≡ answer_row class.now) }
{
    Ok((Vec::from_slice(alloc, class.0)?, class.1, class.2))
}

fn parts_of(alloc: Global, classes: &[Class<'_>]) -> Result<Vec<Part>, AllocError>
    ensures { IfOk result (λ v. map part_row v.items ≡ map answer_row classes.now) }
{
    let mut parts = Vec::new(alloc);
    for class in classes {
        parts.push(part_of(alloc, class)?)?;
    }
    Ok(parts)
}

fn misdeed_of(fault: PlanFault) -> Misdeed
    ensures memory { fault ≡ PlanFault.NoMemory → result ≡ Misdeed.NoMemory }
    ensures other { (result ≡ Misdeed.NoMemory) ⊎ (result ≡ Misdeed.NoPlan) }
{
    match fault {
        PlanFault::NoMemory => Misdeed::NoMemory,
        _ => Misdeed::NoPlan,
    }
}

/// The plan of a listing. Refused where the listing is that of no plan, or for no memory (99).
pub(crate) fn plan_of(alloc: Global, listing: &Listing<'_>) -> Result<Plan, Misdeed>
    ensures ok { IfOk result (λ p. p ≡ listing_view listing.now) }
    ensures err { IfErr result (λ m. (m ≡ Misdeed.NoMemory) ⊎
        ((m ≡ Misdeed.NoPlan) × (IsPlan (listing_view listing.now) → ⊥))) }
{
    let parts = parts_of(alloc, listing.classes.as_slice())?;
    match Plan::from_parts(alloc, listing.root, parts) {
        Ok(plan) => {
            if is_listed(alloc, &plan, listing)? {
                Ok(plan)
            } else {
                Err(Misdeed::NoPlan)
            }
        }
        Err(fault) => Err(misdeed_of(fault)),
    }
}
