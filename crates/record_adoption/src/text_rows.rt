//! The rows of a plan in version 1, in which schedules are texts.

ghost use Rattle.std.specs.Prelude.{◌≡◌, ◌↔◌, List, ℕ, map, codes, Err, IfOk, IsTrue};
ghost use Rattle.class_plan.specs.Plans.{Listing, IsPlan};
ghost use Rattle.record_tables.specs.CodeRows.{pair_of};
ghost use Rattle.record_adoption.specs.Adoption.{TellsFirst, first_pairs};

use crate::common_rows::CommonRows;
use crate::plan_rows::is_setting;
use class_plan::Plan;
use record_rows::plan_of_texts;
use record_tables::fault::Fault;
use record_tables::rows::SettingRow;
use std::alloc::Global;

fn has_key(setting: &SettingRow, key: &[u8]) -> bool
    ensures { IsTrue result ↔ ((pair_of setting.now).key ≡ key.now) }
{
    setting.key.as_slice() == key
}

/// Whether two settings are those of version 1, of which the first has the text of the root's schedule.
fn are_first(root: &SettingRow, version: &SettingRow) -> bool
    ensures { IsTrue result ↔ (((pair_of root.now).key ≡ codes "root")
        × (pair_of version.now ≡ record { key = codes "version"; value = codes "1" })) }
{
    has_key(root, b"root") && is_setting(version, b"version", b"1")
}

/// The text of the root's schedule, where the settings are those of version 1.
fn root_in(alloc: Global, settings: &[SettingRow]) -> Result<Vec<u8>, Fault>
    ensures root { IfOk result (λ r. map pair_of settings.now ≡ first_pairs r.items) }
    ensures none { result ≡ Err Fault.NoArchive → (root : List ℕ)
        → map pair_of settings.now ≡ first_pairs root → ⊥ }
{
    let [root, version] = settings else {
        return Err(Fault::NoArchive);
    };
    if !are_first(root, version) {
        return Err(Fault::NoArchive);
    }
    let text = Vec::from_slice(alloc, root.value.as_slice())?;
    Ok(text)
}

/// The plan that has these rows in version 1; refused as no archive where there is none.
pub(crate) fn plan_in_texts(alloc: Global, rows: &CommonRows) -> Result<Plan, Fault>
    ensures plan { IfOk result (λ p. (q : Listing) → IsPlan q → TellsFirst rows.now q → p ≡ q) }
    ensures sound { IfOk result (λ p. IsPlan p × TellsFirst rows.now p) }
    ensures none { result ≡ Err Fault.NoArchive → (q : Listing) → IsPlan q → TellsFirst rows.now q
        → ⊥ }
{
    let root = root_in(alloc, rows.settings.as_slice())?;
    match plan_of_texts(alloc, root.as_slice(), rows.classes.as_slice())? {
        Some(plan) => Ok(plan),
        None => Err(Fault::NoArchive),
    }
}
