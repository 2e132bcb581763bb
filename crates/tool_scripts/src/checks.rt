//! Scripts and plans, judged as they are named.

use command_lines::tools::{Check, Folders, Place};
use std::alloc::AllocError;
use tool_checks::{
    Refusals, Surroundings, Told, check_officer, check_plan, check_script, push_officers,
    read_plan, rules_of, warn_of_globals,
};
use tool_console::{Failure, Verdict};
use tool_inquiry::script_name;
use tool_texts::Shown;

/// What the path of a plan's file ends with.
const PLAN_ENDING: &str = ".toml";

/// Judges a script or a plan.
fn check_file(
    rt: &HostRuntime,
    path: &str,
    around: &Surroundings<'_>,
    told: &mut Told,
) -> Result<Verdict, Failure> {
    if path.ends_with(PLAN_ENDING) {
        check_plan(rt, path, around.plan)
    } else {
        check_script(rt, path, script_name(path), around, told)
    }
}

/// Judges the program of an officer in a folder of all rules.
fn check_rules(
    rt: &HostRuntime,
    folder: &str,
    officer: &str,
    around: &Surroundings<'_>,
    told: &mut Told,
) -> Result<Verdict, Failure> {
    let rules = rules_of(rt, folder, officer)?;
    let around = Surroundings {
        plan: around.plan,
        folders: rules.folders(),
    };
    check_officer(rt, rules.main.as_str(), &around, told)
}

/// Judges what is named on the command line.
fn check_named(
    rt: &HostRuntime,
    name: &str,
    place: Place<'_>,
    around: &Surroundings<'_>,
    told: &mut Told,
) -> Result<Verdict, Failure> {
    match place {
        Place::Rules(folder) => check_rules(rt, folder, name, around, told),
        Place::Folders(_) => check_file(rt, name, around, told),
    }
}

/// The folders of a place that names them.
fn folders_of(place: Place<'_>) -> Folders<'_> {
    match place {
        Place::Folders(folders) => folders,
        Place::Rules(_) => Folders {
            personal: None,
            global: None,
        },
    }
}

/// Judges all that is named, one after the other.
fn check_each(
    rt: &HostRuntime,
    asked: &Check<'_>,
    around: &Surroundings<'_>,
) -> Result<Verdict, Failure> {
    let mut told = Told::new(rt.alloc());
    let mut verdict = Verdict::Good;
    for name in asked.files.as_slice() {
        if let Verdict::Refused = check_named(rt, *name, asked.place, around, &mut told)? {
            verdict = Verdict::Refused;
        }
    }
    if let Place::Rules(folder) = asked.place {
        warn_of_globals(rt, folder, &mut told)?;
    }
    Ok(verdict)
}

/// That no officer is named, with those whose rules a folder has.
fn no_officer(rt: &HostRuntime, folder: &str) -> Result<Shown, AllocError> {
    let mut text = Shown::new(rt.alloc());
    text.words("check --rules takes the officer too whose rules are checked")?;
    push_officers(rt, &mut text, folder)?;
    Ok(text)
}

/// Judges the scripts and plans of files, or the programs of officers, one after the other; a plan's path ends with `.toml`.
/// The verdict is `Refused` where one of these, or the present plan, is refused, or where a script files into a class that
/// the present plan does not have or that is closed, or includes a script that is not there. A warning changes no verdict. A
/// failure where no officer is named; it says which officers the folder has.
pub fn check_files(rt: &HostRuntime, asked: &Check<'_>) -> Result<Verdict, Failure> {
    if let (Place::Rules(folder), true) = (asked.place, asked.files.is_empty()) {
        return Err(Failure::of(no_officer(rt, folder)));
    }
    let mut refusals = Refusals::new(rt.alloc());
    let Some(present) = read_plan(rt, &mut refusals, asked.plan)? else {
        refusals.write_lines(rt)?;
        return Ok(Verdict::Refused);
    };
    let around = Surroundings {
        plan: asked.plan.map(|_| &present.plan),
        folders: folders_of(asked.place),
    };
    check_each(rt, asked, &around)
}
