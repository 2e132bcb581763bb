//! The fault with which the run over a message ended, in words for a log.

ghost use Rattle.std.specs.Prelude.{◌≡◌, option_and_then, IfOk};
ghost use Rattle.class_plan.specs.Plans.{has};
ghost use Rattle.cli_changes.specs.Causes.{why_not_open, class_told, class_of_culprit};

use class_plan::Plan;
use cli_sources::{Rules, Script};
use desk_commands::Payload;
use sieve_meaning::reading::first_string;
use sieve_meaning::{Location, RunFault};
use sieve_syntax::Command;
use std::alloc::{AllocError, Global};
use tool_inquiry::{
    Culprit, Faulted, Inquiry, InquiryFault, ScriptFile, Scripts, fault_of, script_of,
};
use tool_texts::{Shown, fault_text};

/// A script of rules as it is run; none where it is not good.
fn file_of(
    alloc: Global,
    script: &Script,
    location: Location,
) -> Result<Option<ScriptFile>, AllocError> {
    match &script.text {
        Payload::Whole(text) => script_of(alloc, script.path.as_str(), location, text.clone()?),
        Payload::TooLong => Ok(None),
        Payload::NoMemory => Err(AllocError),
    }
}

/// Adds scripts of rules as they are run, as far as they are good.
fn add_files(
    alloc: Global,
    files: &mut Vec<ScriptFile>,
    scripts: &[Script],
    location: Location,
) -> Result<(), AllocError> {
    for script in scripts {
        if let Some(file) = file_of(alloc, script, location)? {
            files.push(file)?;
        }
    }
    Ok(())
}

/// The scripts that a program can include, its officer's own and those for all officers, as far as they are good.
fn others_of(
    alloc: Global,
    own: &[Script],
    globals: &[Script],
) -> Result<Vec<ScriptFile>, AllocError> {
    let mut others = Vec::new(alloc);
    add_files(alloc, &mut others, own, Location::Personal)?;
    add_files(alloc, &mut others, globals, Location::Global)?;
    Ok(others)
}

/// The scripts of rules as they are run; none where the program, which is the first one, is not good.
fn scripts_of(alloc: Global, rules: &Rules) -> Result<Option<Scripts>, InquiryFault> {
    let Some((program, own)) = rules.scripts.as_slice().split_first() else {
        return Ok(None);
    };
    let Some(main) = file_of(alloc, program, Location::Personal)? else {
        return Ok(None);
    };
    let others = others_of(alloc, own, rules.globals.as_slice())?;
    Ok(Some(Scripts::new(alloc, main, others)?))
}

/// Why a path is no open class.
#[derive(Clone, Copy)]
enum Unopened {
    Closed,
    Missing,
}

impl Unopened {
    /// Why a path is no open class of a plan.
    fn of(plan: &Plan, path: &[u8]) -> Unopened
        ensures { result ≡ why_not_open (has plan.now.rows path.now) }
    {
        if plan.contains(path) {
            Unopened::Closed
        } else {
            Unopened::Missing
        }
    }

    /// That in words.
    fn words(self) -> &'static str {
        match self {
            Unopened::Closed => "the class is closed",
            Unopened::Missing => "the plan has no such class",
        }
    }

    /// What is to be done about it.
    fn mend(self) -> &'static str {
        match self {
            Unopened::Closed => "open the class or correct the path",
            Unopened::Missing => "add the class or correct the path",
        }
    }
}

/// What is known of a run's fault.
#[derive(Drop)]
pub struct Cause {
    /// The script, the line and the column, with the class or the script that is named there.
    place: Shown,
    /// Why the class is not open that is named there, where that is the fault.
    class: Option<Unopened>,
}

/// Why the class that a command names is not open, where that is the fault.
fn class_at(plan: &Plan, fault: RunFault, command: &Command) -> Option<Unopened>
    ensures { result ≡ class_told plan.now fault command.now }
{
    match fault {
        RunFault::ClassNotOpen => {
            let path = first_string(command.arguments.as_slice());
            Some(Unopened::of(plan, path))
        }
        _ => None,
    }
}

/// What is known of a fault: by the command that it is of, or the program where that was not run.
fn cause_in(
    alloc: Global,
    plan: &Plan,
    faulted: Faulted<'_>,
    program: &str,
) -> Result<Cause, AllocError>
    ensures { IfOk result (λ cause. cause.class
        ≡ option_and_then (class_of_culprit plan.now faulted.entry.fault) faulted.entry.culprit) }
{
    let Faulted { fault, culprit } = faulted;
    let Some(Culprit { command, place }) = culprit else {
        let mut place = Shown::new(alloc);
        place.named(program.as_bytes())?;
        return Ok(Cause { place, class: None });
    };
    let class = class_at(plan, fault, command);
    Ok(Cause { place, class })
}

/// The fault that scripts end in over a message, by the open classes of a plan.
fn faulted_by<'q>(
    alloc: Global,
    scripts: &'q Scripts,
    plan: &'q Plan,
    message: &'q [u8],
) -> Result<Option<Faulted<'q>>, InquiryFault> {
    let inquiry = Inquiry {
        scripts,
        plan,
        plan_text: None,
        message_name: "the message",
        message,
        moment: 0,
    };
    fault_of(alloc, &inquiry)
}

/// What is known of the fault in which the run of scripts over a message ends, by the open classes of a plan. None where they end
/// in another one.
fn cause_by(
    alloc: Global,
    scripts: &Scripts,
    program: &str,
    plan: &Plan,
    fault: RunFault,
    message: &[u8],
) -> Result<Option<Cause>, InquiryFault> {
    match faulted_by(alloc, scripts, plan, message)? {
        Some(faulted) if faulted.fault == fault => {
            Ok(Some(cause_in(alloc, plan, faulted, program)?))
        }
        _ => Ok(None),
    }
}

/// What is known of the fault in which the run of rules over a message ends, by the open classes of a plan. None where that is
/// not known, as for want of memory.
pub fn cause_of_fault(
    alloc: Global,
    rules: &Rules,
    plan: &Plan,
    fault: RunFault,
    message: &[u8],
) -> Result<Option<Cause>, InquiryFault> {
    match scripts_of(alloc, rules)? {
        Some(scripts) => cause_by(alloc, &scripts, rules.main.as_str(), plan, fault, message),
        None => Ok(None),
    }
}

/// The text of a run's fault.
fn text_of(fault: RunFault) -> &'static str {
    fault_text(fault.number()).unwrap_or("the run ended with a fault")
}

/// What stands in a text before a mark; all of it where it has none.
fn before(text: &'static str, mark: &str) -> &'static str {
    match text.split_once(mark) {
        Some((first, _)) => first,
        None => text,
    }
}

/// The beginning of a text, up to its first comma or semicolon.
fn beginning(text: &'static str) -> &'static str {
    let text = before(text, ", ");
    before(text, "; ")
}

/// Adds the number of a fault, and where it is if that is known.
fn push_fault(text: &mut Shown, fault: RunFault, cause: Option<&Cause>) -> Result<(), AllocError> {
    text.words("fault ")?;
    text.value(&fault.number())?;
    text.words(": ")?;
    let Some(cause) = cause else {
        return Ok(());
    };
    text.text(&cause.place)?;
    text.words(": ")
}

/// Why the class is not open that a fault is of, where that is known.
fn class_of(cause: Option<&Cause>) -> Option<Unopened> {
    cause?.class
}

/// Adds the fault of a run in words, with what is known of it.
pub fn put_fault(
    text: &mut Shown,
    fault: RunFault,
    cause: Option<&Cause>,
) -> Result<(), AllocError> {
    push_fault(text, fault, cause)?;
    let Some(class) = class_of(cause) else {
        return text.words(text_of(fault));
    };
    text.words(class.words())?;
    text.words(", so nothing but unfiled captured the message; ")?;
    text.words(class.mend())
}

/// The fault of a run in words, where its message was given up, with what is known of it.
pub fn given_up_words(
    alloc: Global,
    fault: RunFault,
    cause: Option<&Cause>,
) -> Result<Shown, AllocError> {
    let mut text = Shown::new(alloc);
    push_fault(&mut text, fault, cause)?;
    let words = match class_of(cause) {
        Some(class) => class.words(),
        None => beginning(text_of(fault)),
    };
    text.words(words)?;
    text.words("; the message is not captured")?;
    Ok(text)
}
