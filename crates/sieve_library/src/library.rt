//! A library that owns its scripts.

ghost use Rattle.std.specs.Prelude.{◌≡◌, ◌↔◌, Err, IsOk, IsSome, OnOk, OnErr, option_map};
ghost use Rattle.sieve_meaning.specs.Meaning.{no_library};
ghost use Rattle.sieve_meaning.specs.Scripts.{is_global};
ghost use Rattle.sieve_library.specs.BorrowedShelves.{scripts_of};
ghost use Rattle.sieve_library.specs.Libraries.{script_under, named_script, with_entry, location_of, library_of, no_scripts, HasNoRoom, IsFoundIn};
ghost use Rattle.sieve_library.specs.declared.fault.LibraryFault.TheVariants.{Full};

use crate::fault::LibraryFault;
use crate::shelf::Shelf;
use crate::shelves::Shelves;
use sieve_check::Checked;
use sieve_meaning::Location;
use std::alloc::Global;
use std::marker::Model;
use std::rc::Rc;

/// The scripts that can be included (RFC 6609, section 3.2), in two locations: those of the user and those that all
/// users share. Contracts see it as the two maps from names to scripts.
#[derive(Drop)]
pub struct Library {
    personal: Shelf,
    global: Shelf,
}

impl Model for Library {
    ghost use Rattle.sieve_library.specs.Libraries.{Scripts, scripts_code};

    ghost Value = { Scripts };

    ghost coded = { scripts_code };

    ghost view = { λ l. record { personal = l.personal; global = l.global } };
}

impl Library {
    /// A library without scripts. It allocates nothing.
    pub fn new(alloc: Global) -> Library
        ensures empty { result ≡ no_scripts }
        ensures finds_none { library_of result ≡ no_library }
    {
        Library {
            personal: Shelf::new(alloc),
            global: Shelf::new(alloc),
        }
    }

    /// Puts a script at a name of the user's own, in the place of the one that has the name. Refuses with `Full` (96)
    /// exactly where the name is new and thirty-two scripts are there, and with `NoMemory` (99) only for a new name.
    /// The library is then unchanged.
    pub fn set_personal(&mut self, name: &[u8], script: Rc<Checked>) -> Result<(), LibraryFault>
        ensures ok { OnOk result (self.new ≡ record self.old {
          personal = with_entry (named_script name.now script.value.script) self.old.personal;
        }) }
        ensures found { OnOk result (IsFoundIn
            (named_script name.now script.value.script) self.old.personal self.new.personal) }
        ensures full { result ≡ Err Full ↔ HasNoRoom self.old.personal name.now }
        ensures replaced { IsSome (script_under name.now self.old.personal) → IsOk result }
        ensures err { OnErr result (self.new ≡ self.old) }
    {
        self.personal.put(name, script)
    }

    /// Puts a script at a name that all users share, in the place of the one that has the name. Refuses with `Full`
    /// (96) exactly where the name is new and thirty-two scripts are there, and with `NoMemory` (99) only for a new
    /// name. The library is then unchanged.
    pub fn set_global(&mut self, name: &[u8], script: Rc<Checked>) -> Result<(), LibraryFault>
        ensures ok { OnOk result (self.new ≡ record self.old
            { global = with_entry (named_script name.now script.value.script) self.old.global }) }
        ensures found { OnOk result (IsFoundIn
            (named_script name.now script.value.script) self.old.global self.new.global) }
        ensures full { result ≡ Err Full ↔ HasNoRoom self.old.global name.now }
        ensures replaced { IsSome (script_under name.now self.old.global) → IsOk result }
        ensures err { OnErr result (self.new ≡ self.old) }
    {
        self.global.put(name, script)
    }

    /// The script at a name of a location, if there is one. Names are compared octet by octet.
    pub fn get(&self, location: Location, name: &[u8]) -> Option<&Checked>
        ensures { option_map (λ c. c.now.script) result
            ≡ script_under name.now (location_of (is_global location) self.now) }
    {
        self.shelves().get(location, name)
    }

    /// The two shelves, borrowed, as an include looks at them.
    pub fn shelves(&self) -> Shelves<'_>
        ensures { scripts_of result ≡ self.now }
    {
        Shelves {
            personal: &self.personal,
            global: &self.global,
        }
    }
}
