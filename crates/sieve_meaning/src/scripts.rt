//! The names of scripts that can be included, and what an `include` requests (RFC 6609, section 3.2).

ghost use Rattle.std.specs.Prelude.{◌≡◌};
ghost use Rattle.sieve_meaning.specs.Meaning.{same_script};
ghost use Rattle.sieve_meaning.specs.Scripts.{script_of};

/// The location of a script that can be included.
#[derive(Clone, Copy, Debug, PartialEq, Eq)]
pub enum Location {
    /// `:personal`, which is also the default: the user's own scripts.
    Personal,
    /// `:global`: the scripts that all users share.
    Global,
}

/// A script by its location and its name in octets.
#[derive(Clone, Copy, Drop)]
pub struct ScriptName<'a> {
    pub location: Location,
    pub name: &'a [u8],
}

impl ScriptName<'_> {
    /// Whether two names are of the same script: the locations are equal, and the names octet for octet.
    pub fn is_same(&self, other: &ScriptName<'_>) -> bool
        ensures { result ≡ same_script (script_of self.now) (script_of other.now) }
    {
        self.location == other.location && self.name == other.name
    }
}

/// What an `include` requests (RFC 6609, section 3.2).
#[derive(Clone, Copy, Drop)]
pub struct Include<'a> {
    pub script: ScriptName<'a>,
    /// `:once`: does nothing if the script was entered before.
    pub is_once: bool,
    /// `:optional`: does nothing if the script is missing.
    pub is_optional: bool,
}
