//! An image as text, and whether it may run.

use crate::places::place_of_fault;
use filing_image::{Image, Version, decode};
use filing_verify::{Verified, VerifyFault, verify};
use tool_console::{Failure, Verdict, read_file, text_of, write_line};
use tool_texts::{Payload, Shown, put};

/// Writes a refusal with its text.
fn tell_refused(rt: &HostRuntime, number: u8) -> Result<(), Failure> {
    let mut line = Shown::new(rt.alloc());
    put!(line; "refused " value(&number) ": " words(text_of(number)))?;
    write_line(rt, &mut line)
}

/// Writes the number of parts of a kind, or another number of an image.
fn show_count(
    rt: &HostRuntime,
    line: &mut Shown,
    name: &'static str,
    count: usize,
) -> Result<(), Failure> {
    put!(line; words(name) " " value(&count))?;
    write_line(rt, line)
}

/// Writes the number of procedures of an image. Version 1 has none, and no such line.
fn show_procedure_count(rt: &HostRuntime, line: &mut Shown, image: &Image) -> Result<(), Failure> {
    match image.version() {
        Version::One => Ok(()),
        Version::Two => show_count(rt, line, "procedures", image.first_places().len()),
    }
}

/// Writes the version of an image and its numbers of parts.
fn show_counts(rt: &HostRuntime, line: &mut Shown, image: &Image) -> Result<(), Failure> {
    let version = match image.version() {
        Version::One => 1,
        Version::Two => 2,
    };
    let counts = [
        ("version", version),
        ("budget", image.budget() as usize),
        ("slots", image.slots() as usize),
        ("texts", image.text_count()),
        ("numbers", image.numbers().len()),
    ];
    for (name, count) in counts {
        show_count(rt, line, name, count)?;
    }
    show_procedure_count(rt, line, image)?;
    show_count(rt, line, "instructions", image.code().len())
}

/// Writes the texts of an image, a line each, with their places.
fn show_texts(rt: &HostRuntime, line: &mut Shown, image: &Image) -> Result<(), Failure> {
    for place in 0..image.text_count() {
        let octets = image.text(place).escape_ascii();
        put!(line; "text " value(&place) " \"" value(&octets) "\"")?;
        write_line(rt, line)?;
    }
    Ok(())
}

/// Writes the numbers of an image, a line each, with their places.
fn show_numbers(rt: &HostRuntime, line: &mut Shown, image: &Image) -> Result<(), Failure> {
    for (place, number) in image.numbers().iter().enumerate() {
        put!(line; "number " value(&place) " " value(number))?;
        write_line(rt, line)?;
    }
    Ok(())
}

/// Writes the first places of the procedures of an image, a line each, with their numbers.
fn show_first_places(rt: &HostRuntime, line: &mut Shown, image: &Image) -> Result<(), Failure> {
    for (number, place) in image.first_places().iter().enumerate() {
        put!(line; "procedure " value(&number) " at place " value(place))?;
        write_line(rt, line)?;
    }
    Ok(())
}

/// Writes the instructions of an image, a line each.
fn show_code(rt: &HostRuntime, line: &mut Shown, image: &Image) -> Result<(), Failure> {
    let instructions = format!(in rt.alloc(); "{image}")?;
    for instruction in instructions.as_str().lines() {
        line.value(&instruction)?;
        write_line(rt, line)?;
    }
    Ok(())
}

/// Writes the parts of an image.
fn show(rt: &HostRuntime, image: &Image) -> Result<(), Failure> {
    let mut line = Shown::new(rt.alloc());
    show_counts(rt, &mut line, image)?;
    show_texts(rt, &mut line, image)?;
    show_numbers(rt, &mut line, image)?;
    show_first_places(rt, &mut line, image)?;
    show_code(rt, &mut line, image)
}

/// The image of a file; none where its octets are no image, which is reported.
fn read_form(rt: &HostRuntime, path: &str) -> Result<Option<Image>, Failure> {
    let octets = read_file(rt, path, Payload::Image.limit())?;
    match decode(rt.alloc(), &octets) {
        Ok(image) => Ok(Some(image)),
        Err(fault) => {
            tell_refused(rt, fault.number())?;
            Ok(None)
        }
    }
}

/// An image that may run; none where it may not, which is reported.
fn verified(rt: &HostRuntime, image: Image) -> Result<Option<Verified>, Failure> {
    let fault = match verify(rt.alloc(), image) {
        Ok(program) => return Ok(Some(program)),
        Err((VerifyFault::NoMemory, _)) => return Err(Failure::NoMemory),
        Err((fault, _)) => fault,
    };
    tell_refused(rt, fault.number())?;
    Ok(None)
}

/// The image of a file, which may run; none where it is refused, which is reported on standard output.
pub fn read_image(rt: &HostRuntime, path: &str) -> Result<Option<Verified>, Failure> {
    match read_form(rt, path)? {
        Some(image) => verified(rt, image),
        None => Ok(None),
    }
}

/// Reports that an image may not run, and the place of the instruction by which it is refused, if there is one.
fn tell_fault(rt: &HostRuntime, image: &Image, fault: VerifyFault) -> Result<(), Failure> {
    tell_refused(rt, fault.number())?;
    let Some(place) = place_of_fault(rt.alloc(), image, fault)? else {
        return Ok(());
    };
    let mut line = Shown::new(rt.alloc());
    put!(line; "at place " value(&place))?;
    write_line(rt, &mut line)
}

/// Writes that an image may run.
fn tell_accepted(rt: &HostRuntime) -> Result<(), Failure> {
    let mut line = Shown::new(rt.alloc());
    line.words("accepted")?;
    write_line(rt, &mut line)
}

/// Judges an image that is shown.
fn judge_image(rt: &HostRuntime, image: Image) -> Result<Verdict, Failure> {
    let Err((fault, image)) = verify(rt.alloc(), image) else {
        tell_accepted(rt)?;
        return Ok(Verdict::Good);
    };
    tell_fault(rt, &image, fault)?;
    Ok(Verdict::Refused)
}

/// Shows the image of a file, and whether it may run. Octets that are no image are refused by their number alone.
pub fn dump_image(rt: &HostRuntime, path: &str) -> Result<Verdict, Failure> {
    let Some(image) = read_form(rt, path)? else {
        return Ok(Verdict::Refused);
    };
    show(rt, &image)?;
    judge_image(rt, image)
}
