//! Images as text, for people and for tests.

use crate::image::Image;
use crate::instruction::Operation;
use std::fmt;

impl fmt::Display for Image {
    /// One line for each instruction: its place, its name and its operands, as in `0 VALUES "subject"`. An operand that
    /// names a text or a number is shown as the text, in quotes and with ASCII escapes, or as the number. Where the
    /// image has none there, the operand is shown after `text` or `number`. In version 2 a line such as `procedure 1`
    /// stands before the first instruction of each of the first 256 procedures.
    fn fmt<W: fmt::Write>(&self, f: &mut fmt::Formatter<W>) -> fmt::Result {
        for (place, operation) in self.code().iter().enumerate() {
            show_start(self, place, f)?;
            write!(f, "{place} ")?;
            f.write_str(name(*operation))?;
            show_operands(self, *operation, f)?;
            f.write_str("\n")?;
        }
        Ok(())
    }
}

/// How many procedures are looked for at a place: the most that an image that may run has. So the time is linear in the
/// instructions, also for images with more.
const MAX_SHOWN: usize = 256;

/// Shows the numbers of the first procedures that begin at a place.
fn show_start<W: fmt::Write>(
    image: &Image,
    place: usize,
    f: &mut fmt::Formatter<W>,
) -> fmt::Result {
    let firsts = image.first_places();
    let shown = firsts.len().min(MAX_SHOWN);
    for (number, first) in firsts[..shown].iter().enumerate() {
        if *first as usize == place {
            write!(f, "procedure {number}\n")?;
        }
    }
    Ok(())
}

fn name(operation: Operation) -> &'static str {
    match operation {
        Operation::PushTrue => "TRUE",
        Operation::PushFalse => "FALSE",
        Operation::Not => "NOT",
        Operation::Values(_) => "VALUES",
        Operation::Join => "JOIN",
        Operation::Match(_, _) => "MATCH",
        Operation::Pop => "DROP",
        Operation::Exists(_) => "EXISTS",
        Operation::Size => "SIZE",
        Operation::Number(_) => "NUM",
        Operation::Less => "LESS",
        Operation::Jump(_) => "JUMP",
        Operation::JumpIf(_) => "JUMPT",
        Operation::JumpUnless(_) => "JUMPF",
        Operation::Marked(_) => "MARKED",
        Operation::Mark(_) => "MARK",
        Operation::File(_, _) => "FILE",
        Operation::Keep => "KEEP",
        Operation::Discard => "DISCARD",
        Operation::Stop => "STOP",
        Operation::Fault(_) => "FAULT",
        Operation::Call(_) => "CALL",
        Operation::Return => "RETURN",
    }
}

/// Shows the operands: the text or the number that one names, else the operand itself.
fn show_operands<W: fmt::Write>(
    image: &Image,
    operation: Operation,
    f: &mut fmt::Formatter<W>,
) -> fmt::Result {
    match operation {
        Operation::Values(b) | Operation::Exists(b) => show_text(image, b, f),
        Operation::Match(a, b) | Operation::File(a, b) => {
            write!(f, " {a}")?;
            show_text(image, b, f)
        }
        Operation::Number(b) => show_number(image, b, f),
        Operation::Jump(b)
        | Operation::JumpIf(b)
        | Operation::JumpUnless(b)
        | Operation::Marked(b)
        | Operation::Mark(b)
        | Operation::Call(b) => write!(f, " {b}"),
        Operation::Fault(a) => write!(f, " {a}"),
        _ => Ok(()),
    }
}

/// Shows the text at a place, or the place where there is no text.
fn show_text<W: fmt::Write>(image: &Image, place: u16, f: &mut fmt::Formatter<W>) -> fmt::Result {
    if place as usize >= image.text_count() {
        return write!(f, " text {place}");
    }
    let octets = image.text(place as usize).escape_ascii();
    write!(f, " \"{octets}\"")
}

/// Shows the number at a place, or the place where there is no number.
fn show_number<W: fmt::Write>(image: &Image, place: u16, f: &mut fmt::Formatter<W>) -> fmt::Result {
    match image.numbers().get(place as usize) {
        Some(number) => write!(f, " {number}"),
        None => write!(f, " number {place}"),
    }
}
