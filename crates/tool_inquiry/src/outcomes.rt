//! Outcomes in lines.

ghost use Rattle.std.specs.Prelude.{◌≡◌, ◌++◌, flat_map, IfOk, OnOk};
ghost use Rattle.mail_case.specs.Message.{is_among};
ghost use Rattle.tool_inquiry.specs.Outcomes.{class_octets, classes_octets, fault_octets, outcome_octets, next_class, listed_classes, noted_fault, listed_outcome};

use itoa::Buffer;
use sieve_meaning::{Outcome, RunFault};
use sieve_syntax::Text;
use std::alloc::{AllocError, Global};

/// Adds the line of a fault, where there is one.
fn push_fault(text: &mut Vec<u8>, fault: Option<RunFault>) -> Result<(), AllocError>
    ensures { OnOk result (text.new.items ≡ text.old.items ++ fault_octets fault) }
{
    if let Some(fault) = fault {
        let mut number = Buffer::new();
        text.extend_from_slice(b"fault ")?;
        text.extend_from_slice(number.format(fault.number()).as_bytes())?;
        text.extend_from_slice(b"\n")?;
    }
    Ok(())
}

/// Adds a line for each class.
fn push_lines(text: &mut Vec<u8>, paths: &[Text]) -> Result<(), AllocError>
    ensures { OnOk result
        (text.new.items ≡ text.old.items ++ flat_map class_octets paths.now) }
{
    for path in paths {
        text.extend_from_slice(b"class ")?;
        text.extend_from_slice(path.as_slice())?;
        text.extend_from_slice(b"\n")?;
    }
    Ok(())
}

/// Adds the classes, or where there is none that the message is discarded.
fn push_classes(text: &mut Vec<u8>, paths: &[Text]) -> Result<(), AllocError>
    ensures { OnOk result (text.new.items ≡ text.old.items ++ classes_octets paths.now) }
{
    if paths.is_empty() {
        return text.extend_from_slice(b"discarded\n");
    }
    push_lines(text, paths)
}

/// An outcome in the lines of a session: the fault, if there is one, then the classes, or `discarded`. The only error
/// is out of memory.
pub fn outcome_text(alloc: Global, outcome: &Outcome) -> Result<Vec<u8>, AllocError>
    ensures { IfOk result (λ t. t.items ≡ outcome_octets outcome.now) }
{
    let mut text = Vec::new(alloc);
    push_fault(&mut text, outcome.fault)?;
    push_classes(&mut text, outcome.classes.as_slice())?;
    Ok(text)
}

/// Adds classes, each after a comma.
fn push_more(text: &mut Vec<u8>, paths: &[Text]) -> Result<(), AllocError>
    ensures { OnOk result (text.new.items ≡ text.old.items ++ flat_map next_class paths.now) }
{
    for path in paths {
        text.extend_from_slice(b", ")?;
        text.extend_from_slice(path.as_slice())?;
    }
    Ok(())
}

/// Adds the classes with commas between them, or `no class`.
fn push_list(text: &mut Vec<u8>, paths: &[Text]) -> Result<(), AllocError>
    ensures { OnOk result (text.new.items ≡ text.old.items ++ listed_classes paths.now) }
{
    match paths.split_first() {
        None => text.extend_from_slice(b"no class"),
        Some((path, paths)) => {
            text.extend_from_slice(path.as_slice())?;
            push_more(text, paths)
        }
    }
}

/// Adds a fault in parentheses, where there is one.
fn push_noted(text: &mut Vec<u8>, fault: Option<RunFault>) -> Result<(), AllocError>
    ensures { OnOk result (text.new.items ≡ text.old.items ++ noted_fault fault) }
{
    if let Some(fault) = fault {
        let mut number = Buffer::new();
        text.extend_from_slice(b" (fault ")?;
        text.extend_from_slice(number.format(fault.number()).as_bytes())?;
        text.extend_from_slice(b")")?;
    }
    Ok(())
}

/// An outcome in one line, without its line feed: the classes with commas between them, or `no class`, and then the
/// fault, if there is one. The only error is out of memory.
pub fn outcome_line(alloc: Global, outcome: &Outcome) -> Result<Vec<u8>, AllocError>
    ensures { IfOk result (λ t. t.items ≡ listed_outcome outcome.now) }
{
    let mut text = Vec::new(alloc);
    push_list(&mut text, outcome.classes.as_slice())?;
    push_noted(&mut text, outcome.fault)?;
    Ok(text)
}

/// Whether an outcome has a class.
pub fn is_filed_in(outcome: &Outcome, path: &[u8]) -> bool
    ensures { result ≡ is_among outcome.now.classes path.now }
{
    outcome
        .classes
        .as_slice()
        .iter()
        .any(|class| path == class.as_slice())
}
