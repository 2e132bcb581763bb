//! Scripts of a folder as the rules of a registry.

ghost use Rattle.std.specs.Prelude.{OnOk, IfErr, string_bytes};
ghost use Rattle.desk_commands.specs.Calls.{Calls};
ghost use Rattle.cli_sources.specs.Faults.{IsFaultOf};
ghost use Rattle.cli_sources.specs.Setting.{globally, by_officer, SetsAll, StopsAmong, SetsRules, StopsSetting};

use crate::fault::RulesFault;
use crate::reading::{Rules, Script};
use desk_commands::{DeskFault, Payload, Registry};
use std::alloc::{AllocError, Global};
use tool_findings::judge;
use tool_texts::{Place, place_of};

/// The place in a script at which a refusal shows, if it has one.
fn place_in(alloc: Global, script: &Script) -> Result<Option<Place>, AllocError> {
    let Payload::Whole(text) = &script.text else {
        return Ok(None);
    };
    match judge(alloc, text.as_slice())? {
        Some(report) => Ok(Some(place_of(text.as_slice(), report.verdict.place))),
        None => Ok(None),
    }
}

/// The fault of a script that a registry refuses.
fn refused(alloc: Global, script: &Script, fault: DeskFault) -> RulesFault
    ensures { IsFaultOf (string_bytes script.now.path) fault result }
{
    if let DeskFault::NoMemory = fault {
        return RulesFault::NoMemory;
    }
    match place_in(alloc, script) {
        Ok(place) => {
            RulesFault::refused(alloc, script.path.as_str(), place, fault.refusal().number)
        }
        Err(AllocError) => RulesFault::NoMemory,
    }
}

/// Sets the global scripts.
fn set_globals<D: Registry>(alloc: Global, desk: &mut D, rules: &Rules) -> Result<(), RulesFault>
    ensures set { OnOk result
        (SetsAll (Calls D.keeper) globally rules.now.globals.items desk.old desk.new) }
    ensures stopped { IfErr result (λ fault.
        StopsAmong (Calls D.keeper) globally rules.now.globals.items fault desk.old desk.new) }
{
    for script in &rules.globals {
        if let Err(fault) = desk.set_global(script.name.as_bytes(), &script.text) {
            return Err(refused(alloc, script, fault));
        }
    }
    Ok(())
}

/// Sets the officer's own scripts.
fn set_scripts<D: Registry>(alloc: Global, desk: &mut D, rules: &Rules) -> Result<(), RulesFault>
    ensures set { OnOk result (SetsAll (Calls D.keeper)
        (by_officer (string_bytes rules.now.officer)) rules.now.scripts.items desk.old desk.new) }
    ensures stopped { IfErr result (λ fault. StopsAmong (Calls D.keeper)
        (by_officer (string_bytes rules.now.officer)) rules.now.scripts.items fault
        desk.old desk.new) }
{
    for script in &rules.scripts {
        let name = script.name.as_bytes();
        if let Err(fault) = desk.set_script(rules.officer.as_bytes(), name, &script.text) {
            return Err(refused(alloc, script, fault));
        }
    }
    Ok(())
}

/// Sets the scripts of rules in a registry: the global ones, then the officer's own, each under its name and in their
/// order, and then `main` as the officer's program. At the first of these calls that is refused it stops, with the path of
/// the script, or with the officer's name for `main`, and the number of the refusal.
pub fn set_rules<D: Registry>(alloc: Global, desk: &mut D, rules: &Rules) -> Result<(), RulesFault>
    ensures set { OnOk result (SetsRules (Calls D.keeper) rules.now desk.old desk.new) }
    ensures stopped { IfErr result
        (λ fault. StopsSetting (Calls D.keeper) rules.now fault desk.old desk.new) }
{
    set_globals(alloc, desk, rules)?;
    set_scripts(alloc, desk, rules)?;
    match desk.activate(rules.officer.as_bytes(), b"main") {
        Ok(()) => Ok(()),
        Err(DeskFault::NoMemory) => Err(RulesFault::NoMemory),
        Err(fault) => Err(RulesFault::refused(
            alloc,
            rules.officer.as_str(),
            None,
            fault.refusal().number,
        )),
    }
}
