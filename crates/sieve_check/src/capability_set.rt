//! The capabilities that the `require`s of a script have named.

ghost use Rattle.std.specs.Prelude.{◌≡◌};
ghost use Rattle.sieve_check.specs.Context.{no_capabilities, has_of, set_with, set_and, set_after};
ghost use Rattle.sieve_check.specs.Lookup.{capability_named};
ghost use Rattle.sieve_check.specs.Rules.{argument_strings, strings_in};

use crate::lookup::find_capability;
use crate::table::Capability;
use sieve_syntax::{Argument, Arguments, StringText};

/// Which capabilities are named so far.
#[derive(Clone, Copy)]
pub struct CapabilitySet {
    fileinto: bool,
    copy: bool,
    include: bool,
    octet_comparator: bool,
    casemap_comparator: bool,
}

impl CapabilitySet {
    /// No capability yet.
    pub fn nothing() -> CapabilitySet
        ensures { result ≡ no_capabilities }
    {
        CapabilitySet {
            fileinto: false,
            copy: false,
            include: false,
            octet_comparator: false,
            casemap_comparator: false,
        }
    }

    /// Whether this one is named.
    pub fn has(self, capability: Capability) -> bool
        ensures { result ≡ has_of self capability }
    {
        match capability {
            Capability::Fileinto => self.fileinto,
            Capability::Copy => self.copy,
            Capability::Include => self.include,
            Capability::OctetComparator => self.octet_comparator,
            Capability::CasemapComparator => self.casemap_comparator,
        }
    }

    /// These and one more.
    pub fn with(self, capability: Capability) -> CapabilitySet
        ensures { result ≡ set_with self capability }
    {
        let mut named = self;
        match capability {
            Capability::Fileinto => named.fileinto = true,
            Capability::Copy => named.copy = true,
            Capability::Include => named.include = true,
            Capability::OctetComparator => named.octet_comparator = true,
            Capability::CasemapComparator => named.casemap_comparator = true,
        }
        named
    }

    /// These, and the capability that the text names.
    fn and(self, text: &StringText) -> CapabilitySet
        ensures { result ≡ set_and self (capability_named text.now) }
    {
        match find_capability(text.as_slice()) {
            Some(row) => self.with(row.capability),
            None => self,
        }
    }

    /// These, and the capabilities that the texts name.
    fn after_texts(self, texts: &[StringText]) -> CapabilitySet
        ensures { result ≡ set_after self texts.now }
    {
        let mut named = self;
        for text in texts {
            named = named.and(text);
        }
        named
    }

    /// These, and the capabilities that the argument names.
    fn after_argument(self, argument: &Argument) -> CapabilitySet
        ensures { result ≡ set_after self (argument_strings argument.now) }
    {
        match argument {
            Argument::Strings(list) => self.and(list.first()).after_texts(list.others()),
            _ => self,
        }
    }

    /// These, and the capabilities that a `require` with these arguments names.
    pub fn after(self, arguments: &Arguments) -> CapabilitySet
        ensures { result ≡ set_after self (strings_in arguments.now) }
    {
        let mut named = self;
        for argument in arguments.as_slice() {
            named = named.after_argument(argument);
        }
        named
    }
}
