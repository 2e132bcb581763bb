//! What is written for people and programs. A text for people is a [`Shown`] one, or words of the program.

ghost use Rattle.std.specs.Prelude.{◌≡◌, ◌++◌, IfOk, OnOk, string_bytes};
ghost use Rattle.cli_console.specs.Numbers.{from_to, numbers_typed, range_in, typed_words};
ghost use Rattle.cli_console.specs.Sequences.{between};

use crate::failure::{Failure, Status};
use choice_words::TypedNumbers;
use cli_texts::put_number;
use std::alloc::{AllocError, Global};
use std::io::{Error, ErrorKind, IsTerminal, Write};
use tool_texts::{Shown, put};

/// Adds the numbers from one to another, as `5-9`; those of a volume after its number, as `3/5-9`.
fn put_from_to(
    text: &mut Shown,
    volume: Option<u32>,
    first: u32,
    last: u32,
) -> Result<(), AllocError>
    ensures { OnOk result (text.new ≡ text.old ++ from_to volume first last) }
{
    put_number(text, volume, first)?;
    put!(text; "-" value(&last))
}

/// The same, and all numbers of a volume as `3/`.
fn put_range(text: &mut Shown, volume: Option<u32>, first: u32, last: u32) -> Result<(), AllocError>
    ensures { OnOk result (text.new ≡ text.old ++ range_in volume first last) }
{
    let Some(volume) = volume else {
        return put_from_to(text, None, first, last);
    };
    let numbers = TypedNumbers::Range { first, last };
    if numbers.is_all() {
        return put!(text; value(&volume) "/");
    }
    put_from_to(text, Some(volume), first, last)
}

/// Adds numbers of records as they are typed; those of a volume after its number, as `3/5-9`, and all of it as `3/`.
pub fn put_typed(
    text: &mut Shown,
    volume: Option<u32>,
    numbers: TypedNumbers,
) -> Result<(), AllocError>
    ensures { OnOk result (text.new ≡ text.old ++ numbers_typed volume numbers) }
{
    match numbers {
        TypedNumbers::One(number) => put_number(text, volume, number),
        TypedNumbers::Range { first, last } => put_range(text, volume, first, last),
    }
}

/// Adds numbers of records as they are typed, after a blank.
pub fn put_numbers(text: &mut Shown, numbers: TypedNumbers) -> Result<(), AllocError>
    ensures { OnOk result (text.new ≡ text.old ++ typed_words numbers) }
{
    text.words(" ")?;
    put_typed(text, None, numbers)
}

/// What stands before an object in an array of JSON: the end of a line, and a comma before that where it is not the first.
pub fn text_between(is_first: bool) -> &'static str
    ensures { result.now ≡ between is_first }
{
    if is_first { "\n" } else { ",\n" }
}

/// An object in an array of JSON, behind what stands before it.
pub fn in_array(alloc: Global, is_first: bool, object: &str) -> Result<String, AllocError>
    ensures { IfOk result (λ s. string_bytes s ≡ between is_first ++ object.now) }
{
    let sign = text_between(is_first);
    format!(in alloc; "{sign}{object}")
}

/// The failure of a write to standard output.
fn write_failure(alloc: Global, error: Error) -> Failure {
    if error.kind() == ErrorKind::BrokenPipe {
        Failure::Closed
    } else {
        Failure::at_thing(alloc, Status::NotWritten, "standard output", &error)
    }
}

/// Writes octets to standard output that are data by their purpose: what another program reads. `Closed` where the reader
/// has gone, and `NotWritten` where they cannot be written.
pub fn write_data(rt: &HostRuntime, octets: &[u8]) -> Result<(), Failure> {
    rt.stdout()
        .write_all(octets)
        .map_err(|error| write_failure(rt.alloc(), error))
}

/// Writes a text to standard output as it is, as `write_data` does.
pub fn write_text(rt: &HostRuntime, text: &Shown) -> Result<(), Failure> {
    write_data(rt, text.as_str().as_bytes())
}

/// Writes a text on standard error, after the name of the program.
pub fn tell(rt: &HostRuntime, text: &Shown) {
    let _ = eprintln!(rt; "mailfile-store: {text}");
}

/// Writes a text on standard error: in an archive of volumes after the number of the volume that it is about.
pub fn tell_in(rt: &HostRuntime, volume: Option<u32>, text: &Shown) {
    match volume {
        Some(volume) => {
            let _ = eprintln!(rt; "mailfile-store: volume {volume}: {text}");
        }
        None => tell(rt, text),
    }
}

/// Writes words of the program on standard error, after its name.
pub fn tell_words(rt: &HostRuntime, words: &'static str) {
    let _ = eprintln!(rt; "mailfile-store: {words}");
}

/// Writes words of the program on standard error: in an archive of volumes after the number of the volume that they are about.
pub fn tell_words_in(rt: &HostRuntime, volume: Option<u32>, words: &'static str) {
    match volume {
        Some(volume) => {
            let _ = eprintln!(rt; "mailfile-store: volume {volume}: {words}");
        }
        None => tell_words(rt, words),
    }
}

/// What was done. A failure that is yet to be told is told now, and is one that was reported then.
pub fn told_now(rt: &HostRuntime, done: Result<(), Failure>) -> Result<(), Failure> {
    match done {
        Err(Failure::Told(status, text)) => {
            tell(rt, &text);
            Err(Failure::Reported(status))
        }
        other => other,
    }
}

/// Whether a person says yes to a question. No where standard input is no terminal, without asking.
pub fn agrees(rt: &HostRuntime, question: &'static str) -> bool {
    if !rt.stdin().is_terminal() {
        return false;
    }
    let _ = eprint!(rt; "{question} [y/N] ");
    let mut answer = String::new(rt.alloc());
    match rt.read_line(&mut answer) {
        Ok(_) => matches!(answer.trim(), "y" | "Y" | "yes"),
        Err(_) => false,
    }
}
