//! The scripts of a run.

ghost use Rattle.std.specs.Prelude.{◌≡◌, ◌++◌, ◌∷◌, [], ⊤, Some, Err, IfOk, IfErr, OnOk, MatchOption};
ghost use Rattle.std.specs.List.{after_last};
ghost use Rattle.sieve_syntax.specs.View.{tree_of};
ghost use Rattle.sieve_library.specs.Libraries.{no_scripts};
ghost use Rattle.sieve_library.specs.declared.fault.LibraryFault.TheVariants as refusals;
ghost use Rattle.filing_flow.specs.Compiled.{IsCompiled};
ghost use Rattle.tool_inquiry.specs.Names.{is_slash, name_of, without_ending as name_without_ending};
ghost use Rattle.tool_inquiry.specs.Files.{IsGood, IsNotGood, IsFileOf};
ghost use Rattle.tool_inquiry.specs.Shelving.{with_file, with_files, HasNoRoomFor, HasRoomForAll, IsFullFor, IsFullForAll};
ghost use Rattle.tool_inquiry.specs.Inquiries.{library_in, main_name, program_of, IsTooHeavy};
ghost use Rattle.tool_inquiry.specs.declared.faults.InquiryFault.TheVariants.{NoMemory};

use crate::faults::InquiryFault;
use filing_gen::{GenFault, compile};
use filing_verify::Verified;
use sieve_check::{Checked, check};
use sieve_library::{Library, LibraryFault};
use sieve_meaning::{Location, ScriptName};
use sieve_text::{TextFault, parse};
use std::alloc::{AllocError, Global};
use std::rc::Rc;
use tool_report::{Book, Source};

/// What the name of a script's file ends with.
const ENDING: &[u8] = b".sieve";

/// A good script of a file.
pub struct ScriptFile {
    pub path: String,
    pub location: Location,
    pub text: Vec<u8>,
    pub script: Rc<Checked>,
}

impl Drop for ScriptFile {
    fn drop(self) {
        let ScriptFile {
            path: _,
            location: _,
            text: _,
            script: _,
        } = self;
    }
}

/// What follows the last `/` of a path; all of it where it has none.
fn last_part(path: &[u8]) -> &[u8]
    ensures { result.now ≡ after_last is_slash path.now }
{
    let mut start = path.len();
    while start > 0 && path[start - 1] != b'/' {
        start -= 1;
    }
    &path[start..]
}

/// A name without `.sieve` at its end, where it ends so.
fn without_ending(name: &[u8]) -> &[u8]
    ensures { result.now ≡ name_without_ending name.now }
{
    match name.strip_suffix(ENDING) {
        Some(name) => name,
        None => name,
    }
}

/// The name of a script by the path of its file: what follows the last `/`, without `.sieve`.
pub fn script_name(path: &str) -> &[u8]
    ensures { result.now ≡ name_of path.now }
{
    without_ending(last_part(path.as_bytes()))
}

/// The checked script of a text; none where it is not good.
fn checked(alloc: Global, text: &[u8]) -> Result<Option<Checked>, AllocError>
    ensures { IfOk result (λ r. MatchOption r (IsNotGood text.now)
        (λ c. IsGood text.now (tree_of c.script))) }
{
    match parse(alloc, text) {
        Ok(script) => match check(script) {
            Ok(checked) => Ok(Some(checked)),
            Err(_) => Ok(None),
        },
        Err(TextFault::NoMemory) => Err(AllocError),
        Err(TextFault::Refused(_, _)) => Ok(None),
    }
}

/// The script of a file with this text; none where a session would refuse it. The only error is out of memory.
pub fn script_of(
    alloc: Global,
    path: &str,
    location: Location,
    text: Vec<u8>,
) -> Result<Option<ScriptFile>, AllocError>
    ensures { IfOk result (λ r. MatchOption r (IsNotGood text.items)
        (IsFileOf path.now location text.items)) }
{
    let Some(script) = checked(alloc, &text)? else {
        return Ok(None);
    };
    Ok(Some(ScriptFile {
        path: String::from_str(alloc, path)?,
        location,
        text,
        script: Rc::new(alloc, script)?,
    }))
}

/// Puts a script into a library, under the name of its file. Refused where its location has thirty-two others (96).
fn add_script(library: &mut Library, script: &ScriptFile) -> Result<(), LibraryFault>
    ensures ok { OnOk result (library.new ≡ with_file script.now library.old) }
    ensures full { result ≡ Err refusals.Full → HasNoRoomFor script.now library.old }
    ensures room { OnOk result (HasNoRoomFor script.now library.old → ⊥) }
{
    let name = script_name(script.path.as_str());
    let Ok(shared) = script.script.clone() else {
        return Err(LibraryFault::NoMemory);
    };
    match script.location {
        Location::Personal => library.set_personal(name, shared),
        Location::Global => library.set_global(name, shared),
    }
}

/// Puts a script into a library as `add_script` does, with the path in the refusal.
fn add_file(alloc: Global, library: &mut Library, script: &ScriptFile) -> Result<(), InquiryFault>
    ensures ok { OnOk result (library.new ≡ with_file script.now library.old) }
    ensures full { IfErr result (IsFullFor script.now library.old) }
    ensures room { OnOk result (HasNoRoomFor script.now library.old → ⊥) }
{
    match add_script(library, script) {
        Ok(()) => Ok(()),
        Err(LibraryFault::NoMemory) => Err(InquiryFault::NoMemory),
        Err(LibraryFault::Full) => {
            let path = String::from_str(alloc, script.path.as_str())?;
            Err(InquiryFault::Full(path))
        }
    }
}

/// The library of scripts, each under the name of its file. Refused with the path of the first one whose location has
/// thirty-two others (96).
pub fn library_of(alloc: Global, scripts: &[ScriptFile]) -> Result<Library, InquiryFault>
    ensures library { IfOk result (λ l. l ≡ with_files scripts.now no_scripts) }
    ensures room { OnOk result (HasRoomForAll scripts.now no_scripts) }
    ensures full { IfErr result (IsFullForAll scripts.now no_scripts) }
{
    let mut library = Library::new(alloc);
    for script in scripts {
        add_file(alloc, &mut library, script)?;
    }
    Ok(library)
}

/// A script that is run as that of an officer, with those that it can include.
pub struct Scripts {
    pub main: ScriptFile,
    pub others: Vec<ScriptFile>,
    library: Library,
}

impl Drop for Scripts {
    fn drop(self) {
        let Scripts {
            main: _,
            others: _,
            library: _,
        } = self;
    }
}

/// What is shown of a script.
fn source_of(script: &ScriptFile) -> Source<'_> {
    let path = script.path.as_str();
    Source {
        label: path.as_bytes(),
        name: ScriptName {
            location: script.location,
            name: script_name(path),
        },
        text: script.text.as_slice(),
        script: script.script.script(),
    }
}

impl Scripts {
    /// Scripts of which the main one is among the officer's own, under the name of its file, as in a session. Refused
    /// with the path of the first one whose location has thirty-two others, the main one last (96).
    pub fn new(
        alloc: Global,
        main: ScriptFile,
        others: Vec<ScriptFile>,
    ) -> Result<Scripts, InquiryFault>
        ensures main { IfOk result (λ s. s.main ≡ main) }
        ensures others { IfOk result (λ s. s.others ≡ others) }
        ensures library { IfOk result
            (λ s. s.library ≡ with_files (others.items ++ main ∷ []) no_scripts) }
        ensures room { OnOk result (HasRoomForAll (others.items ++ main ∷ []) no_scripts) }
        ensures full { IfErr result (IsFullForAll (others.items ++ main ∷ []) no_scripts) }
    {
        let mut library = library_of(alloc, others.as_slice())?;
        add_file(alloc, &mut library, &main)?;
        Ok(Scripts {
            main,
            others,
            library,
        })
    }

    /// The name that the main script is known by.
    pub fn name(&self) -> &[u8]
        ensures { Some result.now ≡ main_name self.now }
    {
        script_name(self.main.path.as_str())
    }

    /// The scripts that can be included.
    pub(crate) fn library(&self) -> &Library
        ensures { result.now ≡ self.now.library }
    {
        &self.library
    }

    /// The scripts with the places of their commands and tests, the main one first.
    pub(crate) fn book(&self, alloc: Global) -> Result<Book<'_>, AllocError> {
        let mut sources = Vec::new(alloc);
        sources.push(source_of(&self.main))?;
        for script in self.others.as_slice() {
            sources.push(source_of(script))?;
        }
        Book::read(alloc, sources.as_slice())
    }
}

/// The image of the main script; none where it is too heavy. The only fault is out of memory.
pub fn compiled(alloc: Global, scripts: &Scripts) -> Result<Option<Verified>, InquiryFault>
    ensures image { IfOk result (λ r. MatchOption r (IsTooHeavy scripts.now) (IsCompiled
        (library_in scripts.now) (main_name scripts.now) (program_of scripts.now))) }
    ensures light { IfOk result (λ r. MatchOption r ⊤ (λ _. IsTooHeavy scripts.now → ⊥)) }
    ensures refused { IfErr result (λ f. f ≡ NoMemory) }
{
    let script = &scripts.main.script;
    match compile(alloc, script, Some(scripts.name()), scripts.library()) {
        Ok(program) => Ok(Some(program)),
        Err(GenFault::NoMemory) => Err(InquiryFault::NoMemory),
        Err(GenFault::TooLarge) => Ok(None),
    }
}
