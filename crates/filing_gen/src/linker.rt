//! The code and the weight of includes. The linker of the compiler is `Includes`, in `levels`.

ghost use Rattle.std.specs.Prelude.{ℕ, OnOk};
ghost use Rattle.filing_flow.specs.Structure.{Flow, size};
ghost use Rattle.sieve_meaning.specs.Program as program;
ghost use Rattle.sieve_meaning.specs.Scripts.{include_view};
ghost use Rattle.filing_gen.specs.Adds.{HasRoom, EmitsAnywhere};
ghost use Rattle.filing_gen.specs.Weights.{IsLeft};

use crate::output::Output;
use sieve_meaning::Include;
use std::alloc::{AllocError, Global};

/// The weight of each include of a script, by what it asks for.
pub trait Weights {
    /// What each include adds to the weight.
    ghost weight_of: { Self → program.Include → ℕ };

    /// Subtracts what an include adds to the weight from `left`; none where it is more.
    fn weigh(&self, include: &Include<'_>, left: u32) -> Option<u32>
        ensures { IsLeft left (weight_of self.now (include_view include.now)) result };
}

/// The code of each include of a script, by what it asks for.
pub trait Linker {
    /// The code of each include.
    ghost flow_of: { Self → program.Include → Flow };

    /// Writes the code of an include. The only error is a refused allocation.
    fn emit(&self, alloc: Global, out: &mut Output, include: &Include<'_>) -> Result<(), AllocError>
        requires { HasRoom out.old (size (flow_of self.now (include_view include.now))) }
        ensures adds { OnOk result
            (EmitsAnywhere out.old out.new (flow_of self.now (include_view include.now))) };
}
