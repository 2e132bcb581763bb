//! The rows of a plan in version 2.

ghost use Rattle.std.specs.Prelude.{◌≡◌, ◌↔◌, map, Err, IfOk, IsTrue};
ghost use Rattle.class_plan.specs.Plans.{Listing, IsPlan};
ghost use Rattle.record_tables.specs.CodeRows.{pair_of, rule_of};
ghost use Rattle.record_adoption.specs.Adoption.{TellsPlan, TellsSecond, second_pairs};

use crate::common_rows::CommonRows;
use class_plan::Plan;
use record_rows::{classes_of, plan_of_rows, rules_of};
use record_tables::fault::Fault;
use record_tables::rows::{ClassRow, ScheduleRow, SettingRow};
use std::alloc::{AllocError, Global};

/// The rows of a plan, by their paths.
#[derive(Drop)]
pub struct PlanRows {
    pub(crate) rules: Vec<ScheduleRow>,
    pub(crate) classes: Vec<ClassRow>,
}

pub(crate) fn is_setting(setting: &SettingRow, key: &[u8], value: &[u8]) -> bool
    ensures { IsTrue result ↔ (pair_of setting.now ≡ record { key = key.now; value = value.now }) }
{
    setting.key.as_slice() == key && setting.value.as_slice() == value
}

/// Whether the settings are those of version 2.
fn is_second(settings: &[SettingRow]) -> bool
    ensures { IsTrue result ↔ (map pair_of settings.now ≡ second_pairs) }
{
    match settings {
        [setting] => is_setting(setting, b"version", b"2"),
        _ => false,
    }
}

/// The plan that has these rows in version 2; refused as no archive where there is none.
pub(crate) fn plan_in(
    alloc: Global,
    rows: &CommonRows,
    rules: &[ScheduleRow],
) -> Result<Plan, Fault>
    ensures plan { IfOk result (λ p. (q : Listing) → IsPlan q →
        TellsSecond rows.now (map rule_of rules.now) q → p ≡ q) }
    ensures sound { IfOk result
        (λ p. IsPlan p × TellsSecond rows.now (map rule_of rules.now) p) }
    ensures none { result ≡ Err Fault.NoArchive → (q : Listing) → IsPlan q →
        TellsSecond rows.now (map rule_of rules.now) q → ⊥ }
{
    if !is_second(rows.settings.as_slice()) {
        return Err(Fault::NoArchive);
    }
    match plan_of_rows(alloc, rules, rows.classes.as_slice())? {
        Some(plan) => Ok(plan),
        None => Err(Fault::NoArchive),
    }
}

pub(crate) fn rows_of_plan(alloc: Global, plan: &Plan) -> Result<PlanRows, AllocError>
    ensures { IfOk result (λ r. TellsPlan r plan.now) }
{
    let rules = rules_of(alloc, plan)?;
    let classes = classes_of(alloc, plan)?;
    Ok(PlanRows { rules, classes })
}
