//! Who changes an archive, and for what reason.

ghost use Rattle.std.specs.Prelude.{◌≡◌, ◌&&◌, not, Some, option_map, is_ok, is_some, string_bytes, true, IfErr, IfOk, IfSome};
ghost use Rattle.session_words.specs.Words.{is_name as is_name_of};
ghost use Rattle.cli_console.specs.Failures.{IsToldAs};
ghost use Rattle.cli_history.specs.Authors.{name_or};
ghost use Rattle.cli_history.specs.Findings.{is_unknown as is_unknown_name};

use crate::findings::is_unknown;
use cli_console::{Failure, Status};
use command_lines::archives::Attribution;
use session_words::is_name;
use std::alloc::AllocError;
use std::env::{VarError, var};

/// Who changes an archive, as far as it is known, and for what reason.
#[derive(Drop)]
pub struct Author<'a> {
    name: Option<String>,
    reason: &'a str,
    /// The number of the volume that is changed, in an archive of volumes.
    volume: Option<u32>,
}

/// Whether a name can stand for a person. That of programs that keep no history can not.
fn is_of_person(name: &[u8]) -> bool
    ensures { result ≡ is_name_of name.now && not (is_unknown_name name.now) }
{
    is_name(name) && !is_unknown(name)
}

/// The value of a variable of the environment that can stand for a person.
fn name_in(rt: &HostRuntime, variable: &str) -> Result<Option<String>, AllocError> {
    match var(rt, variable) {
        Ok(name) if is_of_person(name.as_bytes()) => Ok(Some(name)),
        Ok(_) | Err(VarError::NotPresent | VarError::NotUnicode) => Ok(None),
        Err(VarError::OutOfMemory) => Err(AllocError),
    }
}

/// The name that is noted where none is told: that of `LOGNAME`, or else that of `USER`.
fn name_of_user(logname: Option<String>, user: Option<String>) -> Option<String>
    ensures { result ≡ name_or logname user }
{
    match logname {
        Some(name) => Some(name),
        None => user,
    }
}

impl<'a> Author<'a> {
    /// The author of a change: the name that is told, or else the one of `LOGNAME` or `USER` in the environment.
    pub fn of(rt: &HostRuntime, told: &Attribution<'a>) -> Result<Author<'a>, AllocError>
        ensures name { IfOk result (λ a. IfSome told.now.by
            (λ n. option_map string_bytes a.name ≡ Some n.now)) }
        ensures reason { IfOk result (λ a. a.reason.now ≡ told.now.reason.now) }
    {
        let reason = told.reason;
        match told.by {
            Some(name) => Ok(Author {
                name: Some(String::from_str(rt.alloc(), name)?),
                reason,
                volume: None,
            }),
            None => Ok(Author {
                name: name_of_user(name_in(rt, "LOGNAME")?, name_in(rt, "USER")?),
                reason,
                volume: None,
            }),
        }
    }

    /// The same; where it names nobody, the program is the author.
    pub fn or_program(rt: &HostRuntime, told: &Attribution<'a>) -> Result<Author<'a>, AllocError>
        ensures known { IfOk result (λ a. is_some a.name ≡ true) }
        ensures name { IfOk result (λ a. IfSome told.now.by
            (λ n. option_map string_bytes a.name ≡ Some n.now)) }
        ensures reason { IfOk result (λ a. a.reason.now ≡ told.now.reason.now) }
    {
        let Author {
            name,
            reason,
            volume,
        } = Author::of(rt, told)?;
        match name {
            Some(name) => Ok(Author {
                name: Some(name),
                reason,
                volume,
            }),
            None => Ok(Author {
                name: Some(String::from_str(rt.alloc(), "mailfile-store")?),
                reason,
                volume,
            }),
        }
    }

    /// The same, who changes a volume, in an archive of volumes.
    pub fn in_volume(self, volume: Option<u32>) -> Author<'a>
        ensures { result ≡ record self.entry { volume = volume } }
    {
        let Author { name, reason, .. } = self;
        Author {
            name,
            reason,
            volume,
        }
    }

    /// The volume that is changed, in an archive of volumes.
    pub fn volume(&self) -> Option<u32>
        ensures { result ≡ self.now.volume }
    {
        self.volume
    }

    /// The name, where it is known.
    pub fn name(&self) -> Option<&str>
        ensures { option_map (λ n. n.now) result ≡ option_map string_bytes self.now.name }
    {
        match &self.name {
            Some(name) => Some(name.as_str()),
            None => None,
        }
    }

    /// For what reason; empty where none is told.
    pub fn reason(&self) -> &'a str
        ensures { result.now ≡ self.now.reason.now }
    {
        self.reason
    }

    /// The name. `Usage` where it is not known.
    pub fn named(&self, rt: &HostRuntime) -> Result<&str, Failure>
        ensures known { is_ok result ≡ is_some self.now.name }
        ensures is { IfOk result (λ n. option_map string_bytes self.now.name ≡ Some n.now) }
        ensures told { IfErr result (IsToldAs Status.Usage) }
    {
        match &self.name {
            Some(name) => Ok(name.as_str()),
            None => Err(Failure::told(
                rt.alloc(),
                Status::Usage,
                "the history notes who does this, and neither LOGNAME nor USER says it; name yourself by --by, as --by ann",
            )),
        }
    }
}
