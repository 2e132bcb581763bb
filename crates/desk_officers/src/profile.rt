//! What is kept of an officer.

ghost use Rattle.std.specs.Prelude.{◌≡◌, ◌↔◌, Err, IfOk, None, OnErr, OnOk, []};
ghost use Rattle.sieve_library.specs.declared.fault.LibraryFault.TheVariants.{Full};
ghost use Rattle.desk_commands.specs.Pinning.{no_program};
ghost use Rattle.desk_commands.specs.Scripts.{HasNoRoom, meanings_of, put_script as put_meaning};
ghost use Rattle.desk_officers.specs.Current.{KeepsCurrent};
ghost use Rattle.desk_officers.specs.Profiles.{settings_of};
ghost use Rattle.desk_officers.specs.Register.{PinsFor, meaning_of, officer_of, with_script};

use crate::pinned::{pin_named, pin_nothing};
use filing_verify::Verified;
use sieve_check::Checked;
use sieve_library::{LibraryFault, Shelf, Shelves};
use std::alloc::{AllocError, Global};
use std::rc::Rc;

/// The last edition of the global scripts, which all later changes share. No image is kept at it.
const MAX_EDITION: u64 = u64::MAX;

/// The program that an officer has set.
#[derive(Drop)]
pub(crate) enum Active {
    NoProgram,
    /// One of the officer's scripts, by its name.
    Script(Vec<u8>),
    Image(Rc<Verified>),
}

/// An image that was pinned, and the edition of the global scripts for which it was made.
#[derive(Drop)]
pub(crate) struct KeptImage {
    pub image: Rc<Verified>,
    pub edition: u64,
}

/// An officer's program and scripts, and the image that was last pinned for them.
pub(crate) struct Profile {
    pub active: Active,
    pub scripts: Shelf,
    pub kept: Option<KeptImage>,
}

impl Drop for Profile {
    fn drop(self) {
        let Profile {
            active: _,
            scripts: _,
            kept: _,
        } = self;
    }
}

/// Puts a script on a shelf, in the place of the one that has the name. This is `Shelf::put`, told in the meanings of
/// scripts, as the commands are.
pub(crate) fn put_on(
    shelf: &mut Shelf,
    name: &[u8],
    script: Rc<Checked>,
) -> Result<(), LibraryFault>
    ensures ok { OnOk result (meanings_of shelf.new ≡
        put_meaning name.now (meaning_of script.value.script) (meanings_of shelf.old)) }
    ensures full { result ≡ Err Full ↔ HasNoRoom (meanings_of shelf.old) name.now }
    ensures err { OnErr result (shelf.new ≡ shelf.old) }
{
    shelf.put(name, script)
}

impl Profile {
    /// No program and no script. It allocates nothing.
    pub fn new(alloc: Global) -> Profile
        ensures settings { settings_of result ≡ record { active = no_program; scripts = [] } }
        ensures kept { result.kept ≡ None }
    {
        Profile {
            active: Active::NoProgram,
            scripts: Shelf::new(alloc),
            kept: None,
        }
    }

    /// Keeps a script under a name, in the place of the one that has the name. The kept image is dropped. Refused where
    /// thirty-two scripts have other names (96), and with 99 (no memory).
    pub fn put_script(&mut self, name: &[u8], script: Rc<Checked>) -> Result<(), LibraryFault>
        ensures ok { let o = officer_of (settings_of self.old) in
            OnOk result (officer_of (settings_of self.new)
            ≡ with_script o name.now (meaning_of script.value.script)) }
        ensures kept { OnOk result (self.new.kept ≡ None) }
        ensures full { result ≡ Err Full
            ↔ HasNoRoom (officer_of (settings_of self.old)).scripts name.now }
        ensures err { OnErr result (self.new ≡ self.old) }
    {
        put_on(&mut self.scripts, name, script)?;
        self.kept = None;
        Ok(())
    }

    /// Sets a program. The kept image is dropped.
    pub fn set(&mut self, active: Active)
        ensures { self.new ≡ record self.old { active = active; kept = None } }
    {
        self.active = active;
        self.kept = None;
    }

    /// What is pinned for the officer now, made anew.
    fn make(&self, alloc: Global, globals: &Shelf) -> Result<Rc<Verified>, AllocError>
        ensures { IfOk result
            (λ v. PinsFor (officer_of (settings_of self.now)) (meanings_of globals.now) v.value) }
    {
        let image = match &self.active {
            Active::NoProgram => pin_nothing(alloc)?,
            Active::Script(name) => {
                let shelves = Shelves {
                    personal: &self.scripts,
                    global: globals,
                };
                pin_named(alloc, name, shelves)?
            }
            Active::Image(image) => return image.clone(),
        };
        let image = Rc::new(alloc, image)?;
        Ok(image)
    }

    /// What is pinned for the officer with the global scripts of an edition: the kept image, where it is of this
    /// edition, or a new one. The only error is out of memory.
    pub fn pin(
        &mut self,
        alloc: Global,
        globals: &Shelf,
        edition: u64,
    ) -> Result<Rc<Verified>, AllocError>
        requires { KeepsCurrent edition globals.now (settings_of self.old) self.old.kept }
        ensures pinned { IfOk result
            (λ v. PinsFor (officer_of (settings_of self.old)) (meanings_of globals.now) v.value) }
        ensures current { KeepsCurrent edition globals.now (settings_of self.new) self.new.kept }
        ensures settings { settings_of self.new ≡ settings_of self.old }
    {
        if let Some(kept) = &self.kept {
            if kept.edition == edition {
                return kept.image.clone();
            }
        }
        let image = self.make(alloc, globals)?;
        if edition < MAX_EDITION {
            self.kept = Some(KeptImage {
                image: image.clone()?,
                edition,
            });
        }
        Ok(image)
    }
}
