//! Scripts as some includes run them.

ghost use Rattle.std.specs.Prelude.{◌≡◌, ◌<◌, ◌-◌, ◌∷◌, Some, map, IfOk, option_copied};
ghost use Rattle.std.specs.List.{All};
ghost use Rattle.sieve_meaning.specs.Meaning as meaning;
ghost use Rattle.sieve_meaning.specs.Meaning.{is_among, main_names};
ghost use Rattle.sieve_meaning.specs.Procedures as sharing;
ghost use Rattle.sieve_meaning.specs.Procedures.{main_procedure};
ghost use Rattle.sieve_meaning.specs.Scripts.{script_of};
ghost use Rattle.sieve_library.specs.BorrowedShelves.{scripts_of, library_on};
ghost use Rattle.sieve_library.specs.Libraries.{Scripts, program_in};
ghost use Rattle.filing_procedures.specs.Keys.{IsEnteredKey};
ghost use Rattle.filing_procedures.specs.ProcedureCode.{names_of, procedure_of, number_of, HasKey, IsEntered, has_shared, entered_from, shared_number};
ghost use Rattle.filing_procedures.specs.Slots.{ForScriptAt};

use crate::key::{Key, are_shared, slots_of_active};
use crate::reach::Reach;
use sieve_library::Shelves;
use sieve_meaning::{Location, ScriptName};
use sieve_syntax::Script;
use std::alloc::{AllocError, Global};

/// How many scripts may be active beside the main script.
pub const MAX_FURTHER: usize = 7;

/// A script as some includes run it.
#[derive(Drop)]
pub struct Procedure<'a> {
    pub script: &'a Script,
    pub key: Key,
    /// The names of the active scripts that have one, the innermost first: the script itself.
    pub chain: Vec<ScriptName<'a>>,
}

impl<'a> Procedure<'a> {
    /// Whether a script is active.
    pub fn contains(&self, script: &ScriptName<'_>) -> bool
        ensures { result ≡ is_among (names_of self.now) (script_of script.now) }
    {
        self.chain.iter().any(|name| script.is_same(name))
    }

    /// The key of what an include of the script with this slot enters, where one more script may be active.
    pub fn key_of_entry(&self, slot: usize) -> Key
        requires left { 0 < self.now.key.left }
        requires slot { slot < 64 }
        ensures { (l : Scripts) → ForScriptAt l slot
            (λ s x. HasKey l self.now → IsEnteredKey l result (entered_from self.now s x)) }
    {
        Key {
            slot: Some(slot),
            left: self.key.left - 1,
            active: self.key.active.with(slot),
        }
    }

    /// What an include enters that this procedure runs: the script of a name, with this key.
    pub fn entered(
        &self,
        alloc: Global,
        name: ScriptName<'a>,
        key: Key,
        script: &'a Script,
    ) -> Result<Procedure<'a>, AllocError>
        ensures script { IfOk result (λ p. p.script ≡ script.entry) }
        ensures key { IfOk result (λ p. p.key ≡ key) }
        ensures chain { IfOk result (λ p. names_of p ≡ script_of name.entry ∷ names_of self.now) }
    {
        let mut chain = Vec::with_capacity(alloc, self.chain.len())?;
        chain.push(name)?;
        for name in &self.chain {
            chain.push(*name)?;
        }
        Ok(Procedure { script, key, chain })
    }
}

/// The main script's personal name, if it has one.
fn main_names<'a>(
    alloc: Global,
    known_as: Option<&'a [u8]>,
) -> Result<Vec<ScriptName<'a>>, AllocError>
    ensures { IfOk result (λ v. map script_of v.items ≡ main_names (option_copied known_as.entry)) }
{
    let mut names = Vec::new(alloc);
    if let Some(name) = known_as {
        names.push(ScriptName {
            location: Location::Personal,
            name,
        })?;
    }
    Ok(names)
}

/// The main script, which may be known by a personal name, as the first procedure.
pub fn main_procedure<'a>(
    alloc: Global,
    shelves: Shelves<'_>,
    main: &'a Script,
    known_as: Option<&'a [u8]>,
) -> Result<Procedure<'a>, AllocError>
    ensures key { IfOk result (HasKey (scripts_of shelves.entry)) }
    ensures is { IfOk result (λ p. procedure_of p
        ≡ main_procedure (option_copied known_as.entry) (program_in main.now)) }
{
    let chain = main_names(alloc, known_as)?;
    let key = Key {
        slot: None,
        left: MAX_FURTHER,
        active: slots_of_active(shelves, &chain),
    };
    Ok(Procedure {
        script: main,
        key,
        chain,
    })
}

/// Whether includes share one of these procedures with those that have this key.
pub fn is_made(reach: &Reach<'_>, procedures: &[Procedure<'_>], key: Key) -> bool
    requires { All (IsEntered (scripts_of reach.now.shelves)) procedures.now }
    ensures { (e : sharing.Procedure) → IsEnteredKey (scripts_of reach.now.shelves) key e
        → result ≡ has_shared (library_on reach.now.shelves) procedures.now e }
{
    number_of(reach, procedures, key).is_some()
}

/// The number of the first of these procedures that includes share with those that have this key. None where there is no
/// such procedure.
pub fn number_of(reach: &Reach<'_>, procedures: &[Procedure<'_>], key: Key) -> Option<usize>
    requires { All (IsEntered (scripts_of reach.now.shelves)) procedures.now }
    ensures { (e : sharing.Procedure) → IsEnteredKey (scripts_of reach.now.shelves) key e
        → result ≡ shared_number (library_on reach.now.shelves) procedures.now e }
{
    for (number, procedure) in procedures.iter().enumerate() {
        if are_shared(reach, procedure.key, key) {
            return Some(number);
        }
    }
    None
}
