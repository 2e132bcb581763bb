//! The officers, and the scripts that they share.

ghost use Rattle.std.specs.Prelude.{◌≡◌, ◌↔◌, ◌⊎◌, Err, IfErr, IfOk, IfSome, OnErr, OnOk, false, is_some, true};
ghost use Rattle.filing_verify.specs.Well.{IsWell};
ghost use Rattle.record_archive.specs.Archive.{Archive};
ghost use Rattle.desk_commands.specs.Office.{opening_office, with_active};
ghost use Rattle.desk_commands.specs.Pinning.{image, no_program, script_named};
ghost use Rattle.desk_commands.specs.Scripts.{HasNoRoom, meanings_of, script_at};
ghost use Rattle.desk_commands.specs.declared.fault.DeskFault.TheVariants.{LibraryFull, NoMemory, NoScript};
ghost use Rattle.desk_officers.specs.Filed.{IsImageNow};
ghost use Rattle.desk_officers.specs.Register.{PinsFor, with_own_script, meaning_of, office_of, officer_at, with_global_script};

use crate::filed::FiledScript;
use crate::profile::{Active, Profile, put_on};
use crate::profiles::{clear, has_script, pin, put_script, set};
use desk_commands::DeskFault;
use filing_verify::Verified;
use sieve_check::Checked;
use sieve_library::Shelf;
use std::alloc::{AllocError, Global};
use std::collections::BTreeMap;
use std::marker::Model;
use std::rc::Rc;

/// The global scripts, and what each officer has set. An officer who has set nothing has no program and no script.
/// Names are compared octet by octet. Each call takes time logarithmic in the number of officers.
///
/// Images that are kept are no part of what contracts see.
pub struct Officers {
    alloc: Global,
    globals: Shelf,
    edition: u64,
    profiles: BTreeMap<Vec<u8>, Profile>,
    /// The script that a message was last filed by, until a global script is set.
    filed: Option<FiledScript>,
}

impl Drop for Officers {
    fn drop(self) {
        let Officers {
            alloc: _,
            globals: _,
            edition: _,
            profiles: _,
            filed: _,
        } = self;
    }
}

impl Model for Officers {
    ghost use Rattle.desk_officers.specs.Codes.{register_code};
    ghost use Rattle.desk_officers.specs.Register.{Register};

    ghost Value = { Register };

    ghost coded = { register_code };

    ghost use Rattle.desk_officers.specs.Current.{AllKeepCurrent};
    ghost use Rattle.desk_officers.specs.Filed.{KeepsImageNow};
    ghost use Rattle.desk_officers.specs.Profiles.{settings_in};

    ghost view = { λ o. record { globals = o.globals; officers = settings_in o.profiles.entries } };

    ghost invariant = { λ o. AllKeepCurrent o.edition o.globals o.profiles.entries
        × KeepsImageNow o.globals o.filed };
}

impl Officers {
    /// No global script, and no program or script of any officer. It allocates nothing.
    pub fn new(alloc: Global) -> Officers
        ensures { (a : Archive) → office_of a result ≡ opening_office a }
    {
        Officers {
            alloc,
            globals: Shelf::new(alloc),
            edition: 0,
            profiles: BTreeMap::new(alloc),
            filed: None,
        }
    }

    /// The global scripts, which scripts of all officers include by `:global` (RFC 6609, section 3.2).
    pub fn globals(&self) -> &Shelf
        ensures { result.now ≡ self.now.globals }
    {
        &self.globals
    }

    /// Keeps a script under a name for all officers, in the place of the one that has the name. Refused where
    /// thirty-two global scripts have other names (96) and where there is no memory (99); nothing is changed then.
    /// Images that were kept before are not used again.
    pub fn set_global(&mut self, name: &[u8], script: Checked) -> Result<(), DeskFault>
        ensures done { OnOk result ((a : Archive) → office_of a self.new
            ≡ with_global_script (office_of a self.old) name.now (meaning_of script.script)) }
        ensures full { result ≡ Err LibraryFull
            → HasNoRoom (meanings_of self.old.globals) name.now }
        ensures has_room { OnOk result (HasNoRoom (meanings_of self.old.globals) name.now → ⊥) }
        ensures fault { IfErr result (λ f. (f ≡ LibraryFull) ⊎ (f ≡ NoMemory)) }
        ensures unchanged { OnErr result (self.new ≡ self.old) }
    {
        let script = Rc::new(self.alloc, script)?;
        put_on(&mut self.globals, name, script)?;
        self.edition = self.edition.saturating_add(1);
        self.filed = None;
        Ok(())
    }

    /// Keeps a script of an officer under a name, in the place of the one that has the name. Refused where thirty-two
    /// scripts of the officer have other names (96) and where there is no memory (99); nothing is changed then.
    pub fn set_script(
        &mut self,
        officer: &[u8],
        name: &[u8],
        script: Checked,
    ) -> Result<(), DeskFault>
        ensures done { OnOk result ((a : Archive) → office_of a self.new ≡ with_own_script
            (office_of a self.old) officer.now name.now (meaning_of script.script)) }
        ensures full { result ≡ Err LibraryFull →
            HasNoRoom (officer_at officer.now self.old.officers).scripts name.now }
        ensures has_room { OnOk result
            (HasNoRoom (officer_at officer.now self.old.officers).scripts name.now → ⊥) }
        ensures fault { IfErr result (λ f. (f ≡ LibraryFull) ⊎ (f ≡ NoMemory)) }
        ensures unchanged { OnErr result (self.new ≡ self.old) }
    {
        let script = Rc::new(self.alloc, script)?;
        put_script(self.alloc, &mut self.profiles, officer, name, script)?;
        Ok(())
    }

    /// Sets the script of that name as an officer's program: the one that has the name when a capture begins. Refused
    /// where the officer has no script of that name (93) and where there is no memory (99); nothing is changed then.
    pub fn activate(&mut self, officer: &[u8], name: &[u8]) -> Result<(), DeskFault>
        ensures done { OnOk result ((a : Archive) → office_of a self.new
            ≡ with_active (office_of a self.old) officer.now (script_named name.now)) }
        ensures no_script { result ≡ Err NoScript
            ↔ (is_some (script_at name.now (officer_at officer.now self.old.officers).scripts)
            ≡ false) }
        ensures there { OnOk result (is_some
            (script_at name.now (officer_at officer.now self.old.officers).scripts) ≡ true) }
        ensures fault { IfErr result (λ f. (f ≡ NoScript) ⊎ (f ≡ NoMemory)) }
        ensures unchanged { OnErr result (self.new ≡ self.old) }
    {
        if !has_script(&self.profiles, officer, name) {
            return Err(DeskFault::NoScript);
        }
        let name = Vec::from_slice(self.alloc, name)?;
        set(
            self.alloc,
            &mut self.profiles,
            officer,
            Active::Script(name),
        )?;
        Ok(())
    }

    /// Sets no program for an officer. It allocates nothing and is never refused.
    pub fn deactivate(&mut self, officer: &[u8])
        ensures { (a : Archive)
            → office_of a self.new ≡ with_active (office_of a self.old) officer.now no_program }
    {
        clear(&mut self.profiles, officer);
    }

    /// Sets an image as an officer's program. The only refusal is no memory (99); nothing is changed then.
    pub fn set_image(&mut self, officer: &[u8], program: Verified) -> Result<(), DeskFault>
        ensures done { OnOk result ((a : Archive) →
            office_of a self.new ≡ with_active (office_of a self.old) officer.now (image program)) }
        ensures fault { IfErr result (λ f. f ≡ NoMemory) }
        ensures unchanged { OnErr result (self.new ≡ self.old) }
    {
        let image = Rc::new(self.alloc, program)?;
        set(
            self.alloc,
            &mut self.profiles,
            officer,
            Active::Image(image),
        )?;
        Ok(())
    }

    /// What is pinned for a capture that begins now: the officer's image; the image of the officer's script with what
    /// it includes, or one `Fault` where that is too heavy; or one `Stop` where no program is set. The
    /// only error is out of memory.
    ///
    /// A script is compiled once, and again only after the officer's program or a script that it can include was set.
    /// The image is shared. What officers have set stays the same.
    ///
    /// The module `profiles` finds the officer. Here the invariant is kept: each image that is kept is still current.
    pub fn pin(&mut self, officer: &[u8]) -> Result<Rc<Verified>, AllocError>
        ensures pinned { IfOk result (λ v. PinsFor (officer_at officer.now self.old.officers)
            (meanings_of self.old.globals) v.value) }
        ensures well { IfOk result (λ v. IsWell v.value) }
        ensures unchanged { self.new ≡ self.old }
    {
        let program = pin(
            self.alloc,
            &mut self.profiles,
            officer,
            &self.globals,
            self.edition,
        )?;
        let _image = program.image();
        Ok(program)
    }

    /// The image of a script that belongs to no officer, by its octets, where it is kept: a message was last filed by
    /// it, and no global script was set since. It is what compiling these octets now would answer.
    pub fn filed_image(&self, text: &[u8]) -> Option<&Verified>
        ensures { IfSome result (λ v. IsImageNow self.now.globals text.now v.now) }
    {
        match &self.filed {
            Some(filed) if filed.text.as_slice() == text => Some(&filed.image),
            _ => None,
        }
    }

    /// Keeps the image of a script that belongs to no officer, in the place of the one that was kept. Where there is no
    /// memory for its octets, none is kept.
    pub fn keep_filed(&mut self, text: &[u8], image: Verified)
        requires { IsImageNow self.old.globals text.now image }
        ensures { self.new ≡ self.old }
    {
        self.filed = match Vec::from_slice(self.alloc, text) {
            Ok(text) => Some(FiledScript { text, image }),
            Err(_) => None,
        };
    }

    /// Drops the image of a script that belongs to no officer, and gives its memory back.
    pub fn drop_filed(&mut self)
        ensures { self.new ≡ self.old }
    {
        self.filed = None;
    }
}
