//! The image of a script.

use crate::scripts::{Source, read_folders, read_script, unless_full};
use command_lines::tools::Place;
use filing_gen::{GenFault, compile};
use filing_image::encode;
use filing_verify::Verified;
use sieve_library::Library;
use sieve_meaning::Location;
use tool_checks::Refusals;
use tool_console::{Failure, Verdict, write_file, write_line};
use tool_inquiry::{ScriptFile, library_of, script_name};
use tool_texts::{Shown, put};

/// The library of the scripts that can be included; none where one is refused, which is added to what is found.
fn read_library(
    rt: &HostRuntime,
    refusals: &mut Refusals,
    main: &Source<'_>,
) -> Result<Option<Library>, Failure> {
    match read_folders(rt, refusals, main)? {
        Some(scripts) => unless_full(refusals, library_of(rt.alloc(), scripts.as_slice())),
        None => Ok(None),
    }
}

/// The image of a script with what it includes from a library; none where it is too heavy (5), which is added to what is
/// found. Where there is a folder of personal scripts, the script is one of them, known by the name of its file.
fn image_with(
    refusals: &mut Refusals,
    script: &ScriptFile,
    main: &Source<'_>,
    library: &Library,
) -> Result<Option<Verified>, Failure> {
    let path = script.path.as_str();
    let known_as = main.folders().personal.map(|_| script_name(path));
    match compile(refusals.allocator(), &script.script, known_as, library) {
        Ok(program) => Ok(Some(program)),
        Err(GenFault::NoMemory) => Err(Failure::NoMemory),
        Err(GenFault::TooLarge) => {
            refusals.add_number(path, 5)?;
            Ok(None)
        }
    }
}

/// The image of a script with what it includes from folders; none where something is refused, which is added to what is
/// found.
fn image_of(
    rt: &HostRuntime,
    refusals: &mut Refusals,
    main: &Source<'_>,
) -> Result<Option<Verified>, Failure> {
    let Some(script) = read_script(rt, refusals, main.path(), Location::Personal)? else {
        return Ok(None);
    };
    match read_library(rt, refusals, main)? {
        Some(library) => image_with(refusals, &script, main, &library),
        None => Ok(None),
    }
}

/// Writes an image to a file, and reports its budget in steps.
fn write_image(rt: &HostRuntime, path: &str, program: &Verified) -> Result<(), Failure> {
    let octets = encode(rt.alloc(), program.image())?;
    write_file(rt, path, &octets)?;
    let mut line = Shown::new(rt.alloc());
    put!(line; "budget " value(&program.budget()))?;
    write_line(rt, &mut line)
}

/// Writes the image of a script to a file, and reports its budget in steps: of the script at a path, or of the program of
/// an officer. What is refused is reported: the script, one that it reaches in the folders, or the script with what it
/// includes (5).
pub fn compile_script(
    rt: &HostRuntime,
    script: &str,
    place: Place<'_>,
    image: &str,
) -> Result<Verdict, Failure> {
    let main = Source::of(rt, script, place)?;
    let mut refusals = Refusals::new(rt.alloc());
    let Some(program) = image_of(rt, &mut refusals, &main)? else {
        refusals.write_lines(rt)?;
        return Ok(Verdict::Refused);
    };
    write_image(rt, image, &program)?;
    Ok(Verdict::Good)
}
