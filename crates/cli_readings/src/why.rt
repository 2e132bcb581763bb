//! `why`: why a record is in its class, and whether the rules of today would file its message there again.

use crate::list::row_of;
use crate::show::{entry_of, message_of_entry};
use class_plan::{Date, Plan, day_number};
use cli_console::{Failure, Status, write_data, write_text};
use cli_history::last_refiling;
use cli_sources::{Rules, Script, read_rules};
use cli_texts::{ListedHeaders, listed_line, plan_text, undecoded_lines};
use command_lines::archives::{TypedNumber, Why};
use desk_commands::Payload;
use record_store::{RecordEntry, Store};
use sieve_meaning::{Location, Outcome};
use sqlite::Alter;
use std::alloc::{AllocError, Global};
use tool_inquiry::{
    Answer, Form, Inquiry, InquiryFault, ScriptFile, Scripts, Written, answer_to, first_parting,
    is_filed_in, outcome_line, outcome_text, script_of,
};
use tool_texts::{Shown, put};

/// The seconds of a day.
const DAY: u64 = 86_400;

/// The number of the refusal of scripts whose image is too long.
const FULL: u8 = 96;

/// A record as it was captured, with the plan of today.
pub struct Captured {
    /// The number of its volume, in an archive of volumes.
    volume: Option<u32>,
    entry: RecordEntry,
    /// None where it is destroyed.
    message: Option<Vec<u8>>,
    plan: Plan,
    /// The line of the event by which it got its class, where that is not the one of its capture.
    refiling: Option<Shown>,
}

impl Drop for Captured {
    fn drop(self) {
        let Captured {
            volume: _,
            entry: _,
            message: _,
            plan: _,
            refiling: _,
        } = self;
    }
}

/// The failure of an inquiry.
fn failure_of(rt: &HostRuntime, fault: InquiryFault) -> Failure {
    match fault {
        InquiryFault::NoMemory => Failure::NoMemory,
        InquiryFault::Full(path) => {
            Failure::numbered(rt.alloc(), Status::BadData, path.as_str(), FULL)
        }
        fault => Failure::at_thing(rt.alloc(), Status::BadData, "why", &fault),
    }
}

/// The failure of a script that is not good.
fn not_good(rt: &HostRuntime, path: &str) -> Failure {
    Failure::at(
        rt.alloc(),
        Status::BadData,
        path,
        &"not a good script; mailfile-tool check says why",
    )
}

/// The text of a script; none where it is too long.
fn whole_text(text: Payload) -> Result<Option<Vec<u8>>, Failure> {
    match text {
        Payload::Whole(text) => Ok(Some(text)),
        Payload::TooLong => Ok(None),
        Payload::NoMemory => Err(Failure::NoMemory),
    }
}

/// A script of a folder of rules. One that is not good is a failure.
fn script_file(
    rt: &HostRuntime,
    script: Script,
    location: Location,
) -> Result<ScriptFile, Failure> {
    let Script { path, text, .. } = script;
    let Some(text) = whole_text(text)? else {
        return Err(not_good(rt, path.as_str()));
    };
    match script_of(rt.alloc(), path.as_str(), location, text)? {
        Some(file) => Ok(file),
        None => Err(not_good(rt, path.as_str())),
    }
}

/// Adds an officer's own scripts to others, but for the program, which becomes the main one.
fn add_own(
    rt: &HostRuntime,
    scripts: Vec<Script>,
    main: &mut Option<ScriptFile>,
    others: &mut Vec<ScriptFile>,
) -> Result<(), Failure> {
    for script in scripts {
        if script.name.as_str() == "main" {
            *main = Some(script_file(rt, script, Location::Personal)?);
        } else {
            others.push(script_file(rt, script, Location::Personal)?)?;
        }
    }
    Ok(())
}

/// Adds scripts of all officers to others.
fn add_global(
    rt: &HostRuntime,
    scripts: Vec<Script>,
    others: &mut Vec<ScriptFile>,
) -> Result<(), Failure> {
    for script in scripts {
        others.push(script_file(rt, script, Location::Global)?)?;
    }
    Ok(())
}

/// The scripts of an officer in a folder of rules.
fn read_scripts(rt: &HostRuntime, folder: &str, officer: &str) -> Result<Scripts, Failure> {
    let alloc = rt.alloc();
    let rules = match read_rules(rt, folder, officer) {
        Ok(rules) => rules,
        Err(fault) => return Err(Failure::shown(Status::TryAgain, fault.text(alloc))),
    };
    let Rules {
        scripts,
        globals,
        ..
    } = rules;
    let mut main = None;
    let mut others = Vec::new(alloc);
    add_own(rt, scripts, &mut main, &mut others)?;
    add_global(rt, globals, &mut others)?;
    let Some(main) = main else {
        return Err(Failure::told(alloc, Status::NoInput, "no script main.sieve"));
    };
    match Scripts::new(alloc, main, others) {
        Ok(scripts) => Ok(scripts),
        Err(fault) => Err(failure_of(rt, fault)),
    }
}

/// A record of an archive as it was captured, with the plan of today and with the event by which it got another class. `BadData`
/// where there is none of its number, and where its message is not the one that was captured.
pub fn read_captured<S: Alter>(
    rt: &HostRuntime,
    archive: &mut Store<S>,
    record: TypedNumber<'_>,
) -> Result<Captured, Failure> {
    let plan = archive.plan().copy()?;
    let entry = entry_of(rt.alloc(), archive, record)?;
    let message = if entry.destroyed {
        None
    } else {
        Some(message_of_entry(rt, archive, record, &entry)?)
    };
    let refiling = last_refiling(rt, archive, record.volume, entry.number)?;
    Ok(Captured {
        volume: record.volume,
        entry,
        message,
        plan,
        refiling,
    })
}

/// The first moment of a day, in seconds since 1970-01-01.
fn moment_of(day: Date) -> u64 {
    u64::try_from(day_number(day))
        .unwrap_or(0)
        .saturating_mul(DAY)
}

/// What becomes of a record's message by some scripts.
fn answer_by(
    rt: &HostRuntime,
    captured: &Captured,
    message: &[u8],
    scripts: &Scripts,
) -> Result<Answer, Failure> {
    let alloc = rt.alloc();
    let plan = plan_text(alloc, &captured.plan)?;
    let number = captured.entry.number;
    let name = format!(in alloc; "record-{number}")?;
    let inquiry = Inquiry {
        scripts,
        plan: &captured.plan,
        plan_text: Some(("plan", plan.as_bytes())),
        message_name: name.as_str(),
        message,
        moment: moment_of(captured.entry.day),
    };
    match answer_to(alloc, &inquiry, Form::Lines) {
        Ok(answer) => Ok(answer),
        Err(fault) => Err(failure_of(rt, fault)),
    }
}

/// Ends a text by an outcome in one line.
fn put_outcome(alloc: Global, text: &mut Shown, outcome: &Outcome) -> Result<(), AllocError> {
    let line = outcome_line(alloc, outcome)?;
    text.escaped(&line)?;
    text.end_line()
}

/// Adds an outcome, a line for the fault, if there is one, and for each class.
fn put_outcome_lines(alloc: Global, text: &mut Shown, outcome: &Outcome) -> Result<(), AllocError> {
    let octets = outcome_text(alloc, outcome)?;
    for line in octets.split(|octet| *octet == b'\n') {
        if !line.is_empty() {
            text.escaped(line)?;
            text.end_line()?;
        }
    }
    Ok(())
}

/// Adds whether the rules of today file a message in its class again.
fn put_verdict(text: &mut Shown, path: &[u8], outcome: &Outcome) -> Result<(), AllocError> {
    text.end_line()?;
    if is_filed_in(outcome, path) {
        put!(text; "the rules of today file it in " named(path) " again: ")
    } else {
        put!(text; "the rules of today do not file it in " named(path) ": ")
    }
}

/// Writes what becomes of a message, a line for the fault, if there is one, and for each class, and whether the rules of today
/// file it in the class of its record again.
fn write_verdict(rt: &HostRuntime, entry: &RecordEntry, outcome: &Outcome) -> Result<(), Failure> {
    let mut text = Shown::new(rt.alloc());
    put_outcome_lines(rt.alloc(), &mut text, outcome)?;
    put_verdict(&mut text, entry.path.as_slice(), outcome)?;
    put_outcome(rt.alloc(), &mut text, outcome)?;
    write_text(rt, &text)
}

/// Adds where the run of former rules parts from that of today's, if it does.
fn put_parting(text: &mut Shown, today: &Answer, former: &Answer) -> Result<(), AllocError> {
    match first_parting(&today.events, &former.events) {
        Some(parting) => {
            text.words("the first difference")?;
            text.end_line()?;
            put!(text; "  today:  " value(&parting.one))?;
            text.end_line()?;
            put!(text; "  former: " value(&parting.other))?;
        }
        None => text.words("both runs come to the same")?,
    }
    text.end_line()
}

/// Writes what the rules of former times make of a message, and where their run parts from that of today.
fn write_parting(rt: &HostRuntime, today: &Answer, former: &Answer) -> Result<(), Failure> {
    let mut text = Shown::new(rt.alloc());
    text.words("the former rules: ")?;
    put_outcome(rt.alloc(), &mut text, &former.outcome)?;
    put_parting(&mut text, today, former)?;
    write_text(rt, &text)
}

/// What becomes of a record's message by the rules of a folder.
fn answer_by_rules(
    rt: &HostRuntime,
    folder: &str,
    officer: &str,
    captured: &Captured,
    message: &[u8],
) -> Result<Answer, Failure> {
    let scripts = read_scripts(rt, folder, officer)?;
    answer_by(rt, captured, message, &scripts)
}

/// Writes a record as it is listed, and the event by which it got its class, if it was refiled.
fn write_record(rt: &HostRuntime, captured: &Captured) -> Result<(), Failure> {
    let row = row_of(captured.volume, &captured.entry);
    write_text(rt, &listed_line(rt.alloc(), &row, ListedHeaders::Unasked)?)?;
    let Some(line) = &captured.refiling else {
        return Ok(());
    };
    let mut text = Shown::new(rt.alloc());
    text.words("event ")?;
    text.text(line)?;
    write_text(rt, &text)
}

/// Writes a report.
fn write_report(rt: &HostRuntime, report: &Written) -> Result<(), Failure> {
    match report {
        Written::Lines(text) => write_text(rt, text),
        Written::Json(text) => write_data(rt, text.as_bytes()),
    }
}

/// Writes a record, what becomes of its message by the rules of today, and whether they file it there again.
fn write_answer(rt: &HostRuntime, captured: &Captured, answer: &Answer) -> Result<(), Failure> {
    write_record(rt, captured)?;
    write_data(rt, b"\n")?;
    write_report(rt, &answer.text)?;
    write_verdict(rt, &captured.entry, &answer.outcome)
}

/// Writes which words of a message's fields rules see undecoded.
fn write_undecoded(rt: &HostRuntime, message: &[u8]) -> Result<(), Failure> {
    for line in undecoded_lines(rt.alloc(), message)? {
        let mut line = line;
        line.end_line()?;
        write_text(rt, &line)?;
    }
    Ok(())
}

/// Writes why a record with a message is in its class, by what becomes of the message by the rules of today.
fn explain_by(
    rt: &HostRuntime,
    asked: &Why<'_>,
    captured: &Captured,
    message: &[u8],
    today: &Answer,
) -> Result<(), Failure> {
    write_answer(rt, captured, today)?;
    write_undecoded(rt, message)?;
    let Some(folder) = asked.formerly else {
        return Ok(());
    };
    let former = answer_by_rules(rt, folder, asked.officer, captured, message)?;
    write_parting(rt, today, &former)
}

/// Writes why a record with a message is in its class.
fn explain(
    rt: &HostRuntime,
    asked: &Why<'_>,
    captured: &Captured,
    message: &[u8],
) -> Result<(), Failure> {
    let today = answer_by_rules(rt, asked.rules, asked.officer, captured, message)?;
    explain_by(rt, asked, captured, message, &today)
}

/// Writes why a record is in its class: the record, the event by which it was refiled, if it was, a report on the run of today's
/// rules over its message at its day, whether that files it there again, and which words of its fields rules see undecoded; with
/// the rules of former times also where their run differs.
pub fn write_why(rt: &HostRuntime, asked: &Why<'_>, captured: &Captured) -> Result<(), Failure> {
    match &captured.message {
        Some(message) => explain(rt, asked, captured, message.as_slice()),
        None => {
            write_record(rt, captured)?;
            let mut text = Shown::new(rt.alloc());
            text.words("its message is destroyed, so no rules can be run over it")?;
            text.end_line()?;
            write_text(rt, &text)
        }
    }
}
