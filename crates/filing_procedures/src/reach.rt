//! Which scripts a script reaches: those that it includes, and those that these reach.

ghost use Rattle.std.specs.Prelude.{◌≡◌, ◌<◌, ◌≤◌, ℕ, Some, length, map, filter, slice_get, IfOk};
ghost use Rattle.sieve_meaning.specs.Meaning as meaning;
ghost use Rattle.sieve_meaning.specs.Procedures.{reaches};
ghost use Rattle.sieve_meaning.specs.Scripts.{script_of};
ghost use Rattle.sieve_library.specs.BorrowedShelves.{scripts_of, library_on};
ghost use Rattle.filing_procedures.specs.IncludedScripts.{is_there};
ghost use Rattle.filing_procedures.specs.Sets.{has};
ghost use Rattle.filing_procedures.specs.Slots.{HasSlots, slots_on};
ghost use Rattle.filing_procedures.specs.ReachTables.{has_at, further, IsRow, AreRows, AreFurther, ReachIs};

use crate::included::included_scripts;
use crate::slot_set::SlotSet;
use crate::slots::{find_script, script_at, slot_count};
use sieve_library::Shelves;
use sieve_meaning::ScriptName;
use std::alloc::{AllocError, Global};

/// How many includes lead to every script that a script reaches: as many as there can be scripts.
const MAX_INCLUDES: usize = 64;

/// The slots of those of these scripts that are there.
fn slots_of_names(
    alloc: Global,
    shelves: Shelves<'_>,
    names: &[ScriptName<'_>],
) -> Result<Vec<usize>, AllocError>
    ensures { IfOk result (λ v. v.items ≡ map (slots_on shelves.entry)
        (filter (is_there (library_on shelves.entry)) (map script_of names.now))) }
{
    let mut slots = Vec::with_capacity(alloc, names.len())?;
    for name in names {
        if let Some((slot, _)) = find_script(shelves, name) {
            slots.push(slot)?;
        }
    }
    Ok(slots)
}

/// The slots of the scripts that the script of a slot includes; none where there is no such script.
fn included_slots(
    alloc: Global,
    shelves: Shelves<'_>,
    slot: usize,
) -> Result<Vec<usize>, AllocError>
    ensures { IfOk result (λ v. IsRow (scripts_of shelves.entry) slot v.items) }
{
    let Some(script) = script_at(shelves, slot) else {
        return Ok(Vec::new(alloc));
    };
    let names = included_scripts(alloc, shelves, script.script())?;
    slots_of_names(alloc, shelves, &names)
}

/// For each slot below `count` the slots of the scripts that its script includes.
fn rows(alloc: Global, shelves: Shelves<'_>, count: usize) -> Result<Vec<Vec<usize>>, AllocError>
    ensures { IfOk result
        (λ v. AreRows (scripts_of shelves.entry) count (map (λ r. r.items) v.items)) }
{
    let mut rows = Vec::with_capacity(alloc, count)?;
    for slot in 0..count {
        rows.push(included_slots(alloc, shelves, slot)?)?;
    }
    Ok(rows)
}

/// The set of a slot, if there is one.
fn set_at(sets: &[SlotSet], slot: usize) -> Option<SlotSet>
    ensures { result ≡ slice_get sets.now slot }
{
    sets.get(slot).copied()
}

/// What a script reaches that includes the scripts of these slots, where the sets say what each of those reaches.
fn reached_further(row: &[usize], sets: &[SlotSet]) -> SlotSet
    requires { length sets.now ≤ 64 }
    ensures { (k : ℕ) → has result k ≡ further sets.now row.now k }
{
    let mut reached = SlotSet::empty();
    for slot in row {
        if let Some(set) = set_at(sets, *slot) {
            reached = reached.with(*slot).union(set);
        }
    }
    reached
}

/// What each script reaches over one more include than these sets say.
fn reached_round(
    alloc: Global,
    rows: &[Vec<usize>],
    sets: &[SlotSet],
) -> Result<Vec<SlotSet>, AllocError>
    requires { length sets.now ≤ 64 }
    ensures { IfOk result (λ v. AreFurther (map (λ r. r.items) rows.now) sets.now v.items) }
{
    let mut next = Vec::with_capacity(alloc, rows.len())?;
    for row in rows {
        next.push(reached_further(row, sets))?;
    }
    Ok(next)
}

/// What each script reaches, by its slot.
fn reached_sets(
    alloc: Global,
    shelves: Shelves<'_>,
    count: usize,
) -> Result<Vec<SlotSet>, AllocError>
    requires { HasSlots (library_on shelves) (slots_on shelves) count }
    ensures long { IfOk result (λ v. length v.items ≡ count) }
    ensures reaches { IfOk result (λ v. ReachIs (scripts_of shelves.entry) v.items) }
{
    let rows = rows(alloc, shelves, count)?;
    let mut sets = vec![in alloc; SlotSet::empty(); count]?;
    for _round in 0..MAX_INCLUDES {
        sets = reached_round(alloc, &rows, &sets)?;
    }
    Ok(sets)
}

/// What each script of a library reaches.
#[derive(Drop)]
pub struct Reach<'a> {
    pub shelves: Shelves<'a>,
    /// The smallest number of slots that is enough for the scripts.
    slots: u16,
    sets: Vec<SlotSet>,
    ghost has_slots: { HasSlots (library_on shelves) (slots_on shelves) slots },
    ghost long: { length sets.items ≡ slots },
    ghost reaches: { ReachIs (scripts_of shelves) sets.items },
}

impl<'a> Reach<'a> {
    /// What each script of these shelves reaches. Time and memory are linear in the scripts and what they include. The
    /// only error is a refused allocation.
    pub fn of(alloc: Global, shelves: Shelves<'a>) -> Result<Reach<'a>, AllocError>
        ensures { IfOk result (λ r. r.shelves ≡ shelves.entry) }
    {
        let slots = slot_count(shelves);
        let sets = reached_sets(alloc, shelves, slots as usize)?;
        Ok(Reach {
            shelves,
            slots,
            sets,
        })
    }

    /// What the script of a slot reaches.
    pub fn reached(&self, slot: usize) -> SlotSet
        ensures { (k : ℕ) → has result k ≡ has_at (slice_get self.now.sets.items slot) k }
    {
        match set_at(&self.sets, slot) {
            Some(set) => set,
            None => SlotSet::empty(),
        }
    }
}
