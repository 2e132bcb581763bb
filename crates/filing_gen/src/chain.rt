//! The scripts that are active at an include (RFC 6609, section 3.2).

ghost use Rattle.std.specs.Prelude.{◌≡◌, List, ◌∷◌};
ghost use Rattle.sieve_meaning.specs.Meaning as meaning;
ghost use Rattle.sieve_meaning.specs.Meaning.{is_among};
ghost use Rattle.sieve_meaning.specs.Scripts.{script_of};

use filing_procedures::Procedure;
use sieve_meaning::{Location, ScriptName};

/// The scripts that are active.
pub trait Chain {
    /// Their names, the innermost first; a main script may have none.
    ghost names: { Self → List meaning.ScriptName };

    /// Whether a script is active.
    fn contains(&self, script: &ScriptName<'_>) -> bool
        ensures { result ≡ is_among (names self.now) (script_of script.now) };
}

/// The chain of the main script alone, which may be known by a personal name.
#[derive(Clone, Copy, Drop)]
pub struct MainScript<'a> {
    pub known_as: Option<&'a [u8]>,
}

impl Chain for MainScript<'_> {
    ghost use Rattle.filing_gen.specs.Scopes.{names_of};

    ghost names = { names_of };

    fn contains(&self, script: &ScriptName<'_>) -> bool {
        match self.known_as {
            None => false,
            Some(name) => script.is_same(&ScriptName {
                location: Location::Personal,
                name,
            }),
        }
    }
}

/// The chain `before` with one more script, the one that was entered last.
#[derive(Drop)]
pub struct Link<'a, C> {
    pub script: ScriptName<'a>,
    pub before: &'a C,
}

impl<C: Chain> Chain for Link<'_, C> {
    ghost names = { λ s. script_of s.script ∷ C.names s.before.now };

    fn contains(&self, script: &ScriptName<'_>) -> bool {
        script.is_same(&self.script) || self.before.contains(script)
    }
}

impl Chain for Procedure<'_> {
    ghost use Rattle.filing_procedures.specs.ProcedureCode.{names_of};

    ghost names = { names_of };

    fn contains(&self, script: &ScriptName<'_>) -> bool {
        self.contains(script)
    }
}
