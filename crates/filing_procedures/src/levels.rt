//! The procedures of a main script, level by level: those of a level call those of the next.

ghost use Rattle.std.specs.Prelude.{◌≡◌, ◌<◌, ◌≤◌, ◌-◌, ℕ, suc, length, IfOk, OnOk, IfSome, option_copied};
ghost use Rattle.std.specs.List.{All};
ghost use Rattle.sieve_meaning.specs.Procedures.{procedures, most_procedures};
ghost use Rattle.sieve_meaning.specs.Scripts.{script_of};
ghost use Rattle.sieve_library.specs.BorrowedShelves.{scripts_of};
ghost use Rattle.filing_procedures.specs.ProcedureCode.{HasKey, IsEntered, with_entered, with_all_entered, called_from, MadeUnlessMore, GivenUnlessMore, ProceduresUnlessMore};
ghost use Rattle.sieve_library.specs.Libraries.{program_in};

use crate::included::included_scripts;
use crate::procedure::{MAX_FURTHER, Procedure, is_made, main_procedure};
use crate::reach::Reach;
use crate::slots::find_script;
use sieve_meaning::ScriptName;
use sieve_syntax::Script;
use std::alloc::{AllocError, Global};

/// The most procedures.
pub const MAX_PROCEDURES: usize = 256;

/// Adds what the include of a name enters that a procedure runs, unless it is made. False where it is more than there is
/// room for.
fn enter<'a>(
    alloc: Global,
    reach: &Reach<'a>,
    caller: &Procedure<'a>,
    name: &ScriptName<'a>,
    room: usize,
    next: &mut Vec<Procedure<'a>>,
) -> Result<bool, AllocError>
    requires left { 0 < caller.now.key.left }
    requires key { HasKey (scripts_of reach.now.shelves) caller.now }
    requires each { All (IsEntered (scripts_of reach.now.shelves)) next.old.items }
    requires few { length next.old.items ≤ room }
    ensures each { OnOk result (All (IsEntered (scripts_of reach.now.shelves)) next.new.items) }
    ensures few { OnOk result (length next.new.items ≤ room) }
    ensures made { IfOk result (MadeUnlessMore room (with_entered reach.now.shelves next.old.items
        caller.now (script_of name.now)) next.new.items) }
{
    if caller.contains(name) {
        return Ok(true);
    }
    let Some((slot, checked)) = find_script(reach.shelves, name) else {
        return Ok(true);
    };
    let key = caller.key_of_entry(slot);
    if is_made(reach, next, key) {
        return Ok(true);
    }
    if next.len() >= room {
        return Ok(false);
    }
    let procedure = caller.entered(alloc, *name, key, checked.script())?;
    next.push(procedure)?;
    Ok(true)
}

/// Adds what the includes of a procedure enter, each unless it is made. False where that is more than there is room for.
fn enter_included<'a>(
    alloc: Global,
    reach: &Reach<'a>,
    caller: &Procedure<'a>,
    room: usize,
    next: &mut Vec<Procedure<'a>>,
) -> Result<bool, AllocError>
    requires left { 0 < caller.now.key.left }
    requires key { HasKey (scripts_of reach.now.shelves) caller.now }
    requires each { All (IsEntered (scripts_of reach.now.shelves)) next.old.items }
    requires few { length next.old.items ≤ room }
    ensures each { OnOk result (All (IsEntered (scripts_of reach.now.shelves)) next.new.items) }
    ensures few { OnOk result (length next.new.items ≤ room) }
    ensures made { IfOk result (MadeUnlessMore room
        (with_all_entered reach.now.shelves next.old.items caller.now) next.new.items) }
{
    let names = included_scripts(alloc, reach.shelves, caller.script)?;
    for name in &names {
        if !enter(alloc, reach, caller, name, room, next)? {
            return Ok(false);
        }
    }
    Ok(true)
}

/// The procedures that those of a level call. None where they are more than there is room for.
fn called<'a>(
    alloc: Global,
    reach: &Reach<'a>,
    level: &[Procedure<'a>],
    room: usize,
) -> Result<Option<Vec<Procedure<'a>>>, AllocError>
    requires left { All (λ p. 0 < p.key.left) level.now }
    requires keys { All (HasKey (scripts_of reach.now.shelves)) level.now }
    ensures each { IfOk result
        (λ o. IfSome o (λ next. All (IsEntered (scripts_of reach.now.shelves)) next.items)) }
    ensures few { IfOk result (λ o. IfSome o (λ next. length next.items ≤ room)) }
    ensures made { (left : ℕ) → All (λ p. p.key.left ≡ suc left) level.now
        → IfOk result (GivenUnlessMore room (called_from reach.now.shelves left level.now)) }
{
    let mut next = Vec::new(alloc);
    for caller in level {
        if !enter_included(alloc, reach, caller, room, &mut next)? {
            return Ok(None);
        }
    }
    Ok(Some(next))
}

/// The procedures of a main script, which may be known by a personal name. None where they are more than 256. Time is
/// linear in their includes, each of which is compared with at most 256 procedures; memory is linear in the procedures.
/// The only error is a refused allocation.
pub fn procedures<'a>(
    alloc: Global,
    reach: &Reach<'a>,
    main: &'a Script,
    known_as: Option<&'a [u8]>,
) -> Result<Option<Vec<Procedure<'a>>>, AllocError>
    ensures few { IfOk result (λ o. IfSome o (λ ps. length ps.items ≤ most_procedures)) }
    ensures are { IfOk result (ProceduresUnlessMore (scripts_of reach.now.shelves)
        (option_copied known_as.entry) (program_in main.now)) }
{
    let mut procedures = Vec::new(alloc);
    procedures.push(main_procedure(alloc, reach.shelves, main, known_as)?)?;
    let mut first = 0;
    for _level in 0..MAX_FURTHER {
        let room = MAX_PROCEDURES - procedures.len();
        let Some(mut next) = called(alloc, reach, &procedures[first..], room)? else {
            return Ok(None);
        };
        first = procedures.len();
        procedures.append(&mut next)?;
    }
    Ok(Some(procedures))
}
