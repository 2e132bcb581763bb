//! The context of a command: what is known from the commands before it.

ghost use Rattle.std.specs.Prelude.{◌≡◌};
ghost use Rattle.std.specs.List.{list_any};
ghost use Rattle.std.specs.Option.{is_none};
ghost use Rattle.sieve_check.specs.Lookup.{capability_named};
ghost use Rattle.sieve_check.specs.Rules.{argument_strings, names_unknown};
ghost use Rattle.sieve_check.specs.Walk.{after_command, start};

use crate::capability_set::CapabilitySet;
use crate::lookup::find_capability;
use sieve_syntax::{Argument, Arguments, StringText};

/// What is known from the commands before a command.
#[derive(Clone, Copy)]
pub struct Context {
    /// The capabilities that their `require`s name.
    pub named: CapabilitySet,
    /// Whether one of them is not a `require`.
    pub begun: bool,
}

impl Context {
    /// At the start of a script.
    pub fn start() -> Context
        ensures { result ≡ start }
    {
        Context {
            named: CapabilitySet::nothing(),
            begun: false,
        }
    }

    /// After a command with these arguments.
    pub fn after(self, is_require: bool, arguments: &Arguments) -> Context
        ensures { result ≡ after_command is_require self arguments.now }
    {
        if is_require {
            Context {
                named: self.named.after(arguments),
                begun: self.begun,
            }
        } else {
            Context {
                named: self.named,
                begun: true,
            }
        }
    }
}

/// Whether no capability has this name.
fn is_unknown(text: &StringText) -> bool
    ensures { result ≡ is_none (capability_named text.now) }
{
    find_capability(text.as_slice()).is_none()
}

/// Whether one of these names no capability.
fn any_is_unknown(texts: &[StringText]) -> bool
    ensures { result ≡ list_any (λ s. is_none (capability_named s)) texts.now }
{
    texts.iter().any(|text| is_unknown(text))
}

/// Whether a string of the argument names no capability.
fn argument_names_unknown(argument: &Argument) -> bool
    ensures { result
        ≡ list_any (λ s. is_none (capability_named s)) (argument_strings argument.now) }
{
    match argument {
        Argument::Strings(list) => is_unknown(list.first()) || any_is_unknown(list.others()),
        _ => false,
    }
}

/// Whether a string of the arguments names no capability.
pub fn names_unknown(arguments: &Arguments) -> bool
    ensures { result ≡ names_unknown arguments.now }
{
    for argument in arguments.as_slice() {
        if argument_names_unknown(argument) {
            return true;
        }
    }
    false
}
