//! Due days by a plan.

ghost use Rattle.std.specs.Prelude.{pos, ◌≡◌, ◌≤◌, ◌<◌, ◌++◌, [], ◌∷◌, map, true, false, Err, IfOk, IfErr, OnOk};
ghost use Rattle.jiff.specs.Words.{IsBetween, epoch_day};
ghost use Rattle.class_plan.specs.Calendar.{due_on, number_of_day};
ghost use Rattle.record_tables.specs.Changes.{AreAscending};
ghost use Rattle.record_tables.specs.CodeRows.{record_of, due_of};
ghost use Rattle.record_adoption.specs.Keeping.{AreBelow, dues_in};
ghost use Rattle.record_adoption.specs.Faults.{IsOfRows, AreInOrder};

use class_plan::{Date, Plan, date_of, day_number};
use record_tables::fault::Fault;
use record_tables::rows::{DueRow, RecordRow};
use std::alloc::Global;

/// The number of the last day on which a record may be captured, 2199-12-31.
pub const LAST_CAPTURE_DAY: u32 = 84_005;

/// The number of a day of 1970 to 9999, in days since 1970-01-01.
pub fn number_of(day: Date) -> u32
    requires { IsBetween (pos 0) (pos 2932896) (epoch_day day) }
    ensures { result ≡ number_of_day day }
{
    day_number(day) as u32
}

/// The due day of a record that was captured on a day in the class of a path, both in days since 1970-01-01. `None`
/// where the class's schedule is permanent, and where the path is no class.
///
/// The caller gives a day of 1970 to 2199.
pub fn due_day_of(plan: &Plan, path: &[u8], day: u32) -> Option<u32>
    requires { day ≤ 84005 }
    ensures { result ≡ due_on plan.now path.now day }
{
    let captured = date_of(i64::from(day))?;
    let due = plan.due_of(path, captured)?;
    Some(number_of(due))
}

/// Whether a record's number is above those of these due days.
fn is_after(dues: &[DueRow], number: u32) -> bool
    requires { AreAscending (map due_of dues.now) }
    ensures below { result ≡ true → AreBelow number (map due_of dues.now) }
    ensures otherwise { result ≡ false → AreBelow number (map due_of dues.now) → ⊥ }
{
    match dues.last() {
        Some(last) => last.record < number,
        None => true,
    }
}

/// Adds a due day; refused as no archive where its record's number is not above those before it.
fn push_in_order(dues: &mut Vec<DueRow>, due: DueRow) -> Result<(), Fault>
    requires { AreAscending (map due_of dues.old.items) }
    ensures items { OnOk result (dues.new.items ≡ dues.old.items ++ due ∷ []) }
    ensures ascending { OnOk result (AreAscending (map due_of dues.new.items)) }
    ensures refused { IfErr result
        (λ f. AreBelow due.record (map due_of dues.old.items) → f ≡ Fault.NoMemory) }
    ensures cause { IfErr result IsOfRows }
{
    if is_after(dues.as_slice(), due.record) {
        dues.push(due)?;
        Ok(())
    } else {
        Err(Fault::NoArchive)
    }
}

/// Adds the due day of a record by a plan, if it is live and has one; refused as no archive where its number is not
/// above those before it, or its day is after 2199.
fn push_due_row(dues: &mut Vec<DueRow>, plan: &Plan, row: &RecordRow) -> Result<(), Fault>
    requires { AreAscending (map due_of dues.old.items) }
    ensures rows { OnOk result (map due_of dues.new.items ≡ map due_of dues.old.items ++
        dues_in plan.now (record_of row.now ∷ [])) }
    ensures ascending { OnOk result (AreAscending (map due_of dues.new.items)) }
    ensures refused { IfErr result (λ f. row.now.day ≤ 84005 →
        AreBelow row.now.number (map due_of dues.old.items) → f ≡ Fault.NoMemory) }
    ensures cause { IfErr result IsOfRows }
{
    if row.destroyed {
        return Ok(());
    }
    if row.day > LAST_CAPTURE_DAY {
        return Err(Fault::NoArchive);
    }
    match due_day_of(plan, row.path.as_slice(), row.day) {
        Some(day) => push_in_order(
            dues,
            DueRow {
                record: row.number,
                day,
            },
        ),
        None => Ok(()),
    }
}

/// The due days of the live records by a plan, in the order of the records.
///
/// Refused as no archive where the numbers of the records do not ascend or one was captured after 2199, or for no
/// memory.
pub fn due_rows_by(alloc: Global, plan: &Plan, records: &[RecordRow]) -> Result<Vec<DueRow>, Fault>
    ensures rows { IfOk result
        (λ v. map due_of v.items ≡ dues_in plan.now (map record_of records.now)) }
    ensures ascending { IfOk result (λ v. AreAscending (map due_of v.items)) }
    ensures none { result ≡ Err Fault.NoArchive → AreInOrder (map record_of records.now) → ⊥ }
    ensures cause { IfErr result IsOfRows }
{
    let mut dues = Vec::new(alloc);
    for row in records {
        push_due_row(&mut dues, plan, row)?;
    }
    Ok(dues)
}
