//! The call of the parser.

use crate::told::{refused_at, word};
use anyhow::Result;
use sieve_syntax::{Argument, Command, Ending, Script, StringList, Test, Tests};
use sieve_text::{TextFault, parse};
use std::alloc::{AllocError, Global};

/// Writes a string between quotation marks.
fn write_string(out: &mut Vec<u8>, text: &[u8]) -> Result<(), AllocError> {
    out.push(b'"')?;
    out.extend_from_slice(text)?;
    out.extend_from_slice(b"\"")
}

/// Writes a list of strings in brackets.
fn write_list(out: &mut Vec<u8>, list: &StringList) -> Result<(), AllocError> {
    out.push(b'[')?;
    write_string(out, list.first().as_slice())?;
    for other in list.others() {
        out.push(b',')?;
        write_string(out, other.as_slice())?;
    }
    out.extend_from_slice(b"]")
}

/// Writes a space and an argument.
fn write_argument(alloc: Global, out: &mut Vec<u8>, argument: &Argument) -> Result<(), AllocError> {
    out.push(b' ')?;
    match argument {
        Argument::Tag(name) => {
            out.push(b':')?;
            out.extend_from_slice(name.as_slice())
        }
        Argument::Number(number) => {
            let digits = number.to_string(alloc)?;
            out.extend_from_slice(digits.as_bytes())
        }
        Argument::Strings(StringList::One(text)) => write_string(out, text.as_slice()),
        Argument::Strings(list) => write_list(out, list),
    }
}

/// Writes a test without blanks but before its parts.
#[cycle(test_writer)]
fn write_test(alloc: Global, out: &mut Vec<u8>, test: &Test) -> Result<(), AllocError> {
    out.extend_from_slice(test.name.as_slice())?;
    for argument in test.arguments.as_slice() {
        write_argument(alloc, out, argument)?;
    }
    write_tests(alloc, out, &test.tests)
}

/// Writes the tests of a test or of a command, with a comma after each of a list.
#[cycle(test_writer)]
fn write_tests(alloc: Global, out: &mut Vec<u8>, tests: &Tests) -> Result<(), AllocError> {
    match tests {
        Tests::None => Ok(()),
        Tests::One(test) => {
            out.push(b' ')?;
            write_test(alloc, out, test)
        }
        Tests::Listed(list) => {
            out.extend_from_slice(b" (")?;
            write_test(alloc, out, &list.first)?;
            out.push(b',')?;
            for test in list.others.as_slice() {
                write_test(alloc, out, test)?;
                out.push(b',')?;
            }
            out.extend_from_slice(b")")
        }
    }
}

/// Writes a command, and the commands of its block.
fn write_command(alloc: Global, out: &mut Vec<u8>, command: &Command) -> Result<(), AllocError> {
    out.extend_from_slice(command.name.as_slice())?;
    for argument in command.arguments.as_slice() {
        write_argument(alloc, out, argument)?;
    }
    write_tests(alloc, out, &command.tests)?;
    match &command.ending {
        Ending::Semicolon => out.extend_from_slice(b";"),
        Ending::Block(commands) => {
            out.push(b'{')?;
            for command in commands.as_slice() {
                write_command(alloc, out, command)?;
            }
            out.extend_from_slice(b"}")
        }
    }
}

/// A tree as the functions above write it.
fn tree_text(alloc: Global, script: &Script) -> Result<Vec<u8>> {
    let mut text = Vec::new(alloc);
    for command in &script.commands {
        write_command(alloc, &mut text, command)?;
    }
    Ok(text)
}

/// The tree of a script, or its refusal.
pub fn tree(alloc: Global, script: &[u8]) -> Result<Vec<u8>> {
    match parse(alloc, script) {
        Ok(script) => tree_text(alloc, &script),
        Err(TextFault::NoMemory) => word(alloc, "no memory"),
        Err(TextFault::Refused(refusal, at)) => refused_at(alloc, refusal.number(), at),
    }
}
