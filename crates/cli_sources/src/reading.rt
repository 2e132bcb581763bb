//! The scripts of an officer that the officer's program reaches, from the folder of all rules.

ghost use Rattle.std.specs.Prelude.{◌≡◌, IfOk, if◌then◌else◌, option_map, string_bytes};
ghost use Rattle.rule_folders.specs.Paths.{path_of_name};

use crate::fault::RulesFault;
use crate::payloads::payload_of_file;
use desk_commands::{MAX_SCRIPT_OCTETS, Payload};
use rule_folders::{
    Found, GLOBAL, Included, MAIN, Reached, Script as ReachedScript, Scripts, is_officer, path_in,
    script_in,
};
use sieve_library::MAX_SCRIPTS;
use std::alloc::{AllocError, Global};
use std::{fs, io, str};

/// A script of a folder.
#[derive(Drop)]
pub struct Script {
    /// The path of its file.
    pub path: String,
    /// The name of its file without `.sieve`.
    pub name: String,
    pub text: Payload,
}

/// The rules of an officer: the scripts that the officer's program reaches by its includes. Of more scripts than a
/// location may have, they have the first ones up to the one that is too many.
#[derive(Drop)]
pub struct Rules {
    pub officer: String,
    /// The officer's own scripts that are reached, the program first.
    pub scripts: Vec<Script>,
    /// The scripts for all officers that are reached.
    pub globals: Vec<Script>,
    /// The path of the program.
    pub main: String,
    /// The paths of the officer's own scripts that are not reached, in byte order. They are not read.
    pub unused: Vec<String>,
}

/// The folder of an officer's rules, from which scripts are read one at a time.
#[derive(Drop)]
struct Folder<'a> {
    rt: &'a HostRuntime,
    /// The path of the officer's own scripts, and of those for all officers.
    own: String,
    global: String,
    /// How many scripts of each were read.
    own_count: usize,
    global_count: usize,
}

impl Folder<'_> {
    /// Takes into account that a script is read; false where its location has more than it may already.
    fn count(&mut self, is_global: bool) -> bool
        ensures own { self.new.own ≡ self.old.own }
        ensures global { self.new.global ≡ self.old.global }
    {
        if is_global {
            self.global_count = self.global_count.saturating_add(1);
            self.global_count <= MAX_SCRIPTS + 1
        } else {
            self.own_count = self.own_count.saturating_add(1);
            self.own_count <= MAX_SCRIPTS + 1
        }
    }

    /// The path of a location.
    fn location(&self, is_global: bool) -> &str
        ensures { result.now ≡ string_bytes (if is_global then self.now.global else self.now.own) }
    {
        if is_global {
            self.global.as_str()
        } else {
            self.own.as_str()
        }
    }

    /// The path of a script of a location.
    fn path(
        &self,
        alloc: Global,
        name: &[u8],
        is_global: bool,
    ) -> Result<Option<String>, AllocError>
        ensures { IfOk result (λ path. option_map string_bytes path ≡ path_of_name
            (string_bytes (if is_global then self.now.global else self.now.own)) name.now) }
    {
        path_in(alloc, self.location(is_global), name)
    }
}

/// What a payload has as a script.
fn found_in(payload: Payload) -> Result<Found, RulesFault> {
    match payload {
        Payload::Whole(text) => Ok(Found::Text(text)),
        Payload::TooLong => Ok(Found::TooLong),
        Payload::NoMemory => Err(RulesFault::NoMemory),
    }
}

impl Scripts for Folder<'_> {
    type Fault = RulesFault;

    ghost place = { λ f name is_global.
        path_of_name (string_bytes (if is_global then f.global else f.own)) name };

    /// No contract can say what a file has.
    ghost made = { λ _ _. Unit {0} };

    fn no_memory(&self) -> RulesFault {
        RulesFault::NoMemory
    }

    fn path_of(&self, alloc: Global, included: &Included) -> Result<Option<String>, AllocError> {
        self.path(alloc, included.name.as_slice(), included.is_global)
    }

    /// A script that is not there is no fault: the include of it is one, when it runs.
    fn read(&mut self, path: &str, is_global: bool) -> Result<Found, RulesFault> {
        match payload_of_file(self.rt, path, MAX_SCRIPT_OCTETS) {
            Ok(_) if !self.count(is_global) => Ok(Found::Nothing),
            Ok(payload) => found_in(payload),
            Err(error) if error.kind() == io::ErrorKind::NotFound => Ok(Found::Nothing),
            Err(error) => Err(RulesFault::unreadable(self.rt.alloc(), path, error)),
        }
    }
}

/// The fault where an officer's program is not there. It names the folder of all rules if that is not there, or else the officer's
/// folder if that is not, or else the program.
fn missing_program(folder: &Folder<'_>, program: String) -> Result<RulesFault, AllocError> {
    let own = folder.own.as_str();
    let rules = own.rsplit_once('/').map_or(own, |(rules, _)| rules);
    for place in [rules, own] {
        if !place.is_empty() && !fs::exists(folder.rt, place).unwrap_or(true) {
            return Ok(RulesFault::Missing(String::from_str(folder.rt.alloc(), place)?));
        }
    }
    Ok(RulesFault::Missing(program))
}

/// The officer's program. Where it is not there, the fault names the first folder on its path that is not there, or else it.
fn read_program(folder: &mut Folder<'_>) -> Result<ReachedScript, RulesFault> {
    let alloc = folder.rt.alloc();
    let Some(path) = folder.path(alloc, MAIN.as_bytes(), false)? else {
        return Err(RulesFault::Missing(String::from_str(alloc, MAIN)?));
    };
    let text = match folder.read(path.as_str(), false)? {
        Found::Text(text) => Some(text),
        Found::TooLong => None,
        Found::Nothing => return Err(missing_program(folder, path)?),
    };
    Ok(ReachedScript {
        path,
        name: Vec::from_slice(alloc, MAIN.as_bytes())?,
        is_global: false,
        text,
    })
}

/// A script as it was read.
fn script_of(alloc: Global, script: ReachedScript) -> Result<Script, AllocError> {
    let ReachedScript {
        path,
        name,
        text,
        ..
    } = script;
    let name = str::from_utf8(name.as_slice()).unwrap_or("");
    Ok(Script {
        path,
        name: String::from_str(alloc, name)?,
        text: match text {
            Some(text) => Payload::Whole(text),
            None => Payload::TooLong,
        },
    })
}

/// Adds the path of a file of the officer's folder to those that are not used, where it is a script that is not reached.
fn add_unused(
    folder: &Folder<'_>,
    reached: &Reached,
    file: &str,
    unused: &mut Vec<String>,
) -> Result<(), AllocError> {
    let Some(name) = script_in(file) else {
        return Ok(());
    };
    match folder.path(folder.rt.alloc(), name.as_bytes(), false)? {
        Some(path) if !reached.has(path.as_str()) => Ok(unused.push(path)?),
        _ => Ok(()),
    }
}

/// The paths of the officer's own scripts that are not reached; none where the folder cannot be listed.
fn unused_in(folder: &Folder<'_>, reached: &Reached) -> Result<Vec<String>, AllocError> {
    let mut unused = Vec::new(folder.rt.alloc());
    let Ok(entries) = fs::read_dir(folder.rt, folder.own.as_str()) else {
        return Ok(unused);
    };
    for entry in entries {
        if let Ok(entry) = entry {
            add_unused(folder, reached, entry.file_name(), &mut unused)?;
        }
    }
    unused.sort()?;
    Ok(unused)
}

/// The rules that scripts are, which are reached.
fn rules_of(
    alloc: Global,
    officer: &str,
    reached: Reached,
    unused: Vec<String>,
) -> Result<Rules, AllocError> {
    let main = String::from_str(alloc, reached.path(0))?;
    let mut scripts = Vec::new(alloc);
    let mut globals = Vec::new(alloc);
    for script in reached.into_scripts() {
        if script.is_global {
            globals.push(script_of(alloc, script)?)?;
        } else {
            scripts.push(script_of(alloc, script)?)?;
        }
    }
    Ok(Rules {
        officer: String::from_str(alloc, officer)?,
        scripts,
        globals,
        main,
        unused,
    })
}

/// The rules of an officer in a folder: the program `OFFICER/main.sieve`, and the scripts that it reaches by its includes,
/// of the officer and of `global`. Only these are read, and the names of the officer's other scripts.
pub fn read_rules(rt: &HostRuntime, folder: &str, officer: &str) -> Result<Rules, RulesFault> {
    let alloc = rt.alloc();
    if !is_officer(officer.as_bytes()) {
        return Err(RulesFault::bad_officer(alloc, officer));
    }
    let rules = folder.strip_suffix('/').unwrap_or(folder);
    let mut folder = Folder {
        rt,
        own: format!(in alloc; "{rules}/{officer}")?,
        global: format!(in alloc; "{rules}/{GLOBAL}")?,
        own_count: 0,
        global_count: 0,
    };
    let program = read_program(&mut folder)?;
    let (reached, _edges) = Reached::follow(alloc, program, &mut folder)?;
    let unused = unused_in(&folder, &reached)?;
    Ok(rules_of(alloc, officer, reached, unused)?)
}
