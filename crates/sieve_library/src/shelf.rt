//! The scripts of one location, by name.

ghost use Rattle.std.specs.Prelude.{◌≡◌, ◌↔◌, ◌<◌, [], Err, IsOk, IsSome, IfSome, OnOk, OnErr, length, option_map, position, slice_get};
ghost use Rattle.sieve_library.specs.Entries.{entry_of};
ghost use Rattle.sieve_library.specs.Libraries.{script_under, place_of, with_entry, is_named, IsLocation, HasNoRoom, IsFoundIn};
ghost use Rattle.sieve_library.specs.declared.fault.LibraryFault.TheVariants.{Full};

use crate::fault::LibraryFault;
use sieve_check::Checked;
use std::alloc::Global;
use std::marker::Model;
use std::rc::Rc;

/// The most scripts that a shelf holds.
pub const MAX_SCRIPTS: usize = 32;

#[derive(Drop)]
struct Entry {
    name: Vec<u8>,
    script: Rc<Checked>,
}

fn place_among(entries: &[Entry], name: &[u8]) -> Option<usize>
    ensures { result ≡ position (λ e. is_named name.now (entry_of e)) entries.now }
{
    entries
        .iter()
        .position(|entry| entry.name.as_slice() == name)
}

/// Scripts by name, in the order in which the names came: each name once, and at most thirty-two. Contracts see it as
/// the map from names to scripts. It holds each script once, however often it was lent.
#[derive(Drop)]
pub struct Shelf {
    alloc: Global,
    entries: Vec<Entry>,
}

impl Model for Shelf {
    ghost use Rattle.std.specs.Prelude.{List, map};
    ghost use Rattle.sieve_library.specs.Libraries.{NamedScript, entries_code, IsLocation};

    ghost Value = { List NamedScript };

    ghost coded = { entries_code };

    ghost use Rattle.sieve_library.specs.Entries.{entry_of};

    ghost view = { λ s. map entry_of s.entries.items };

    ghost invariant = { λ s. IsLocation (map entry_of s.entries.items) };
}

impl Shelf {
    /// A shelf without scripts. It allocates nothing.
    pub fn new(alloc: Global) -> Shelf
        ensures { result ≡ [] }
    {
        Shelf {
            alloc,
            entries: Vec::new(alloc),
        }
    }

    /// How many scripts there are, at most thirty-two.
    pub fn len(&self) -> usize
        ensures count { result ≡ length self.now }
        ensures location { IsLocation self.now }
    {
        self.entries.len()
    }

    fn place(&self, name: &[u8]) -> Option<usize>
        ensures { result ≡ position (is_named name.now) self.now }
    {
        place_among(&self.entries, name)
    }

    /// The script of a name, if there is one, with its place among the scripts, counted from 0.
    pub fn find(&self, name: &[u8]) -> Option<(usize, &Checked)>
        ensures script { option_map (λ f. f.1.now.script) result ≡ script_under name.now self.now }
        ensures place { IfSome result (λ f. f.0 ≡ place_of name.now self.now) }
        ensures inside { IfSome result (λ f. f.0 < length self.now) }
        ensures location { IsLocation self.now }
    {
        match self.place(name) {
            Some(place) => Some((place, &*self.entries[place].script)),
            None => None,
        }
    }

    /// The script at a place, counted from 0; none from the number of scripts on.
    pub fn at(&self, place: usize) -> Option<&Checked>
        ensures script { option_map (λ c. c.now.script) result
            ≡ option_map (λ e. e.script) (slice_get self.now place) }
        ensures location { IsLocation self.now }
    {
        match self.entries.get(place) {
            Some(entry) => Some(&*entry.script),
            None => None,
        }
    }

    /// The script of a name, if there is one. Names are compared octet by octet.
    pub fn get(&self, name: &[u8]) -> Option<&Checked>
        ensures { option_map (λ c. c.now.script) result ≡ script_under name.now self.now }
    {
        match self.find(name) {
            Some((_, script)) => Some(script),
            None => None,
        }
    }

    /// Puts a script at a name, in the place of the one that has the name. Refuses with `Full` (96) exactly where the
    /// name is new and thirty-two scripts are there, and with `NoMemory` (99) only for a new name. The shelf is then
    /// unchanged.
    pub fn put(&mut self, name: &[u8], script: Rc<Checked>) -> Result<(), LibraryFault>
        ensures ok { OnOk result (self.new
            ≡ with_entry (record { name = name.now; script = script.value.script }) self.old) }
        ensures found { OnOk result (IsFoundIn
            (record { name = name.now; script = script.value.script }) self.old self.new) }
        ensures full { result ≡ Err Full ↔ HasNoRoom self.old name.now }
        ensures replaced { IsSome (script_under name.now self.old) → IsOk result }
        ensures err { OnErr result (self.new ≡ self.old) }
    {
        if let Some(place) = self.place(name) {
            self.entries[place].script = script;
            return Ok(());
        }
        if self.entries.len() >= MAX_SCRIPTS {
            return Err(LibraryFault::Full);
        }
        let name = Vec::from_slice(self.alloc, name)?;
        self.entries.push(Entry { name, script })?;
        Ok(())
    }
}
