//! A script in a file, judged.

use crate::circles::warn_of_includes;
use crate::reached::{Start, reached_from, read_script_text};
use crate::refusals::{Kind, Refusals};
use crate::told::Told;
use crate::warnings::warn_of_names;
use class_plan::Plan;
use command_lines::tools::Folders;
use rule_folders::{GLOBAL, Reached, SCRIPT_ENDING};
use std::alloc::AllocError;
use tool_console::{Failure, Verdict, is_there, paths_in};
use tool_findings::{Finding, Report, judge, push_words};
use tool_texts::{Shown, place_of, put};

/// What is said where more may be found than is told.
const MORE: &str = "more is not looked for before these are mended";

/// What a script is to run among.
#[derive(Clone, Copy)]
pub struct Surroundings<'a> {
    /// The plan; none where the command line names none.
    pub plan: Option<&'a Plan>,
    pub folders: Folders<'a>,
}

/// Adds a finding, with what it says.
fn add_finding(
    refusals: &mut Refusals,
    path: &str,
    text: &[u8],
    finding: &Finding,
) -> Result<(), AllocError> {
    let mut words = Shown::new(refusals.allocator());
    push_words(&mut words, text, finding)?;
    let place = place_of(text, finding.place);
    refusals.add(path, Some(place), Kind::Refused(finding.number), words)
}

/// Adds all findings of a report, the verdict first.
fn add_report(
    refusals: &mut Refusals,
    path: &str,
    text: &[u8],
    report: &Report,
) -> Result<(), AllocError> {
    add_finding(refusals, path, text, &report.verdict)?;
    for finding in report.others.iter() {
        add_finding(refusals, path, text, finding)?;
    }
    if !report.is_all {
        refusals.add_note(path, MORE)?;
    }
    Ok(())
}

/// Judges the text of a script. What is wrong with it is added to what is found.
pub fn judge_script(
    refusals: &mut Refusals,
    path: &str,
    text: &[u8],
) -> Result<Verdict, AllocError> {
    match judge(refusals.allocator(), text)? {
        Some(report) => {
            add_report(refusals, path, text, &report)?;
            Ok(Verdict::Refused)
        }
        None => Ok(Verdict::Good),
    }
}

/// Judges a script that is reached, and what it names, unless it was judged before; and writes what is found.
fn judge_reached(
    rt: &HostRuntime,
    start: &Start<'_>,
    reached: &Reached,
    script: usize,
    around: &Surroundings<'_>,
    told: &mut Told,
) -> Result<Verdict, Failure> {
    let path = reached.path(script);
    if !told.is_unjudged(path)? {
        return Ok(Verdict::Good);
    }
    let mut refusals = Refusals::new(rt.alloc());
    let text = reached.text(script);
    if let Verdict::Refused = judge_script(&mut refusals, path, text)? {
        refusals.write_lines(rt)?;
        return Ok(Verdict::Refused);
    }
    warn_of_names(rt, start, path, text, around, told)
}

/// Judges all scripts that are reached.
fn judge_all(
    rt: &HostRuntime,
    start: &Start<'_>,
    reached: &Reached,
    around: &Surroundings<'_>,
    told: &mut Told,
) -> Result<Verdict, Failure> {
    let mut verdict = Verdict::Good;
    for script in 0..reached.scripts().len() {
        if let Verdict::Refused = judge_reached(rt, start, reached, script, around, told)? {
            verdict = Verdict::Refused;
        }
    }
    Ok(verdict)
}

/// Judges a script with all that it reaches by its includes; gives which scripts these are.
fn check_reached(
    rt: &HostRuntime,
    start: &Start<'_>,
    around: &Surroundings<'_>,
    told: &mut Told,
) -> Result<(Verdict, Reached), Failure> {
    let (reached, edges) = reached_from(rt, start)?;
    let verdict = judge_all(rt, start, &reached, around, told)?;
    warn_of_includes(rt, &reached, edges.as_slice(), told)?;
    Ok((verdict, reached))
}

/// Judges a script that is known by a name, with each script that it reaches by its includes and that was not judged
/// before. What is wrong is written to standard output: refusals, scripts that are not there and, where a plan is named,
/// classes that it does not have or that are closed. Warnings, which change no verdict, are of includes that come back or lead
/// too deep, and of fields that no message can have.
pub fn check_script(
    rt: &HostRuntime,
    path: &str,
    name: &[u8],
    around: &Surroundings<'_>,
    told: &mut Told,
) -> Result<Verdict, Failure> {
    let start = Start {
        path,
        name,
        folders: around.folders,
    };
    let (verdict, _) = check_reached(rt, &start, around, told)?;
    Ok(verdict)
}

/// Writes a warning of each script of an officer that the program does not reach.
fn warn_of_unused(
    rt: &HostRuntime,
    folder: &str,
    main: &str,
    reached: &Reached,
) -> Result<(), Failure> {
    for path in paths_in(rt, folder, SCRIPT_ENDING)? {
        if !reached.has(path.as_str()) {
            warn_unused(rt, path.as_str(), main)?;
        }
    }
    Ok(())
}

/// Writes the warning of a script that is unused, with its refusal if there is one.
fn warn_unused(rt: &HostRuntime, path: &str, main: &str) -> Result<(), Failure> {
    let text = read_script_text(rt, path)?;
    let mut words = Shown::new(rt.alloc());
    unused_words(
        &mut words,
        main,
        judge(rt.alloc(), &text)?.map(|report| report.verdict.number),
    )?;
    let mut refusals = Refusals::new(rt.alloc());
    refusals.add(path, None, Kind::Note, words)?;
    refusals.write_lines(rt)
}

/// Adds that a program does not reach a script, with the number by which that is refused, if it is.
fn unused_words(words: &mut Shown, main: &str, number: Option<u8>) -> Result<(), AllocError> {
    put!(words; "warning: " named(main.as_bytes()) " does not reach this script")?;
    match number {
        Some(number) => put!(words; ", which is refused (" value(&number) ")"),
        None => Ok(()),
    }
}

/// Writes the warning of a script for all officers that is refused and was not judged, if it is one.
fn warn_of_global(rt: &HostRuntime, path: &str, told: &mut Told) -> Result<(), Failure> {
    if !told.is_unjudged(path)? {
        return Ok(());
    }
    let text = read_script_text(rt, path)?;
    let Some(report) = judge(rt.alloc(), &text)? else {
        return Ok(());
    };
    let mut words = Shown::new(rt.alloc());
    put!(words;
        "warning: no script that was checked reaches this one, which is refused ("
        value(&report.verdict.number) ")")?;
    let mut refusals = Refusals::new(rt.alloc());
    refusals.add(path, None, Kind::Note, words)?;
    refusals.write_lines(rt)
}

/// Warns of each script for all officers in a folder of all rules that is refused, and that no script reaches that was
/// judged before.
pub fn warn_of_globals(rt: &HostRuntime, folder: &str, told: &mut Told) -> Result<(), Failure> {
    let folder = folder.strip_suffix('/').unwrap_or(folder);
    let global = format!(in rt.alloc(); "{folder}/{GLOBAL}")?;
    if !is_there(rt, global.as_str()) {
        return Ok(());
    }
    for path in paths_in(rt, global.as_str(), SCRIPT_ENDING)? {
        warn_of_global(rt, path.as_str(), told)?;
    }
    Ok(())
}

/// Judges the program of an officer as `check_script` does, and warns of each script of the officer that it does not
/// reach.
pub fn check_officer(
    rt: &HostRuntime,
    main: &str,
    around: &Surroundings<'_>,
    told: &mut Told,
) -> Result<Verdict, Failure> {
    let start = Start {
        path: main,
        name: b"main",
        folders: around.folders,
    };
    let (verdict, reached) = check_reached(rt, &start, around, told)?;
    if let Some(folder) = around.folders.personal {
        warn_of_unused(rt, folder, main, &reached)?;
    }
    Ok(verdict)
}
