//! The profiles of officers, by their names.

ghost use Rattle.std.specs.Prelude.{◌≡◌, ◌↔◌, Err, IfOk, OnErr, OnOk, is_some};
ghost use Rattle.sieve_library.specs.declared.fault.LibraryFault.TheVariants.{Full};
ghost use Rattle.desk_commands.specs.Office.{with_program};
ghost use Rattle.desk_commands.specs.Pinning.{no_program};
ghost use Rattle.desk_commands.specs.Scripts.{HasNoRoom, meanings_of, script_at};
ghost use Rattle.desk_officers.specs.Changes.{ChangesOnly};
ghost use Rattle.desk_officers.specs.Current.{AllKeepCurrent};
ghost use Rattle.desk_officers.specs.Profiles.{active_of, officer_in, settings_in};
ghost use Rattle.desk_officers.specs.Register.{PinsFor, meaning_of, with_script};

use crate::pinned::pin_nothing;
use crate::profile::{Active, Profile};
use filing_verify::Verified;
use sieve_check::Checked;
use sieve_library::{LibraryFault, Shelf};
use std::alloc::{AllocError, Global};
use std::collections::BTreeMap;
use std::rc::Rc;

pub(crate) fn has_script(profiles: &BTreeMap<Vec<u8>, Profile>, officer: &[u8], name: &[u8]) -> bool
    ensures { result
        ≡ is_some (script_at name.now (officer_in profiles.now.entries officer.now).scripts) }
{
    match profiles.get(officer) {
        Some(profile) => profile.scripts.get(name).is_some(),
        None => false,
    }
}

/// Keeps a script of an officer under a name, in the place of the one that has the name.
pub(crate) fn put_script(
    alloc: Global,
    profiles: &mut BTreeMap<Vec<u8>, Profile>,
    officer: &[u8],
    name: &[u8],
    script: Rc<Checked>,
) -> Result<(), LibraryFault>
    ensures ok { let o = officer_in profiles.old.entries officer.now in
        OnOk result (ChangesOnly profiles.old.entries profiles.new.entries officer.now
        (with_script o name.now (meaning_of script.value.script))) }
    ensures full { result ≡ Err Full
        ↔ HasNoRoom (officer_in profiles.old.entries officer.now).scripts name.now }
    ensures err { OnErr result (profiles.new.entries ≡ profiles.old.entries) }
{
    if let Some(profile) = profiles.get_mut(officer) {
        return profile.put_script(name, script);
    }
    let mut profile = Profile::new(alloc);
    profile.put_script(name, script)?;
    let officer = Vec::from_slice(alloc, officer)?;
    profiles.insert(officer, profile)?;
    Ok(())
}

/// Sets an officer's program.
pub(crate) fn set(
    alloc: Global,
    profiles: &mut BTreeMap<Vec<u8>, Profile>,
    officer: &[u8],
    active: Active,
) -> Result<(), AllocError>
    ensures ok { let o = officer_in profiles.old.entries officer.now in
        OnOk result (ChangesOnly profiles.old.entries profiles.new.entries officer.now
        (with_program o (active_of active))) }
    ensures err { OnErr result (profiles.new.entries ≡ profiles.old.entries) }
{
    if let Some(profile) = profiles.get_mut(officer) {
        profile.set(active);
        return Ok(());
    }
    let mut profile = Profile::new(alloc);
    profile.set(active);
    let officer = Vec::from_slice(alloc, officer)?;
    profiles.insert(officer, profile)?;
    Ok(())
}

/// Sets no program for an officer. It allocates nothing.
pub(crate) fn clear(profiles: &mut BTreeMap<Vec<u8>, Profile>, officer: &[u8])
    ensures { ChangesOnly profiles.old.entries profiles.new.entries officer.now
        (with_program (officer_in profiles.old.entries officer.now) no_program) }
{
    if let Some(profile) = profiles.get_mut(officer) {
        profile.set(Active::NoProgram);
    }
}

/// What is pinned for an officer with the global scripts of an edition: by `Profile::pin`, or one `Stop` for an officer
/// who has set nothing, and so has no profile.
pub(crate) fn pin(
    alloc: Global,
    profiles: &mut BTreeMap<Vec<u8>, Profile>,
    officer: &[u8],
    globals: &Shelf,
    edition: u64,
) -> Result<Rc<Verified>, AllocError>
    requires { AllKeepCurrent edition globals.now profiles.old.entries }
    ensures pinned { IfOk result (λ v.
        PinsFor (officer_in profiles.old.entries officer.now) (meanings_of globals.now) v.value) }
    ensures images { AllKeepCurrent edition globals.now profiles.new.entries }
    ensures settings { settings_in profiles.new.entries ≡ settings_in profiles.old.entries }
{
    if let Some(profile) = profiles.get_mut(officer) {
        return profile.pin(alloc, globals, edition);
    }
    let image = pin_nothing(alloc)?;
    let image = Rc::new(alloc, image)?;
    Ok(image)
}
