//! The scripts that an include looks at.

ghost use Rattle.std.specs.Prelude.{◌≡◌, option_map};
ghost use Rattle.sieve_meaning.specs.Scripts.{is_global};
ghost use Rattle.sieve_library.specs.BorrowedShelves.{scripts_of};
ghost use Rattle.sieve_library.specs.Libraries.{script_under, location_of};

use crate::shelf::Shelf;
use sieve_check::Checked;
use sieve_meaning::Location;

/// The scripts that can be included (RFC 6609, section 3.2), in two locations: those of the user and those that all
/// users share. Both shelves are borrowed, and no script is copied or counted.
#[derive(Clone, Copy, Drop)]
pub struct Shelves<'a> {
    pub personal: &'a Shelf,
    pub global: &'a Shelf,
}

impl<'a> Shelves<'a> {
    /// The shelf of a location.
    pub fn shelf(self, location: Location) -> &'a Shelf
        ensures { result.now ≡ location_of (is_global location) (scripts_of self.entry) }
    {
        match location {
            Location::Personal => self.personal,
            Location::Global => self.global,
        }
    }

    /// The script at a name of a location, if there is one.
    pub fn get(self, location: Location, name: &[u8]) -> Option<&'a Checked>
        ensures { option_map (λ c. c.now.script) result ≡
            script_under name.now (location_of (is_global location) (scripts_of self.entry)) }
    {
        self.shelf(location).get(name)
    }
}
