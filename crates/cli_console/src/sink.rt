//! Where octets are written: standard output, or anything else.

ghost use Rattle.std.specs.Prelude.{ℕ, List, OnOk, ⊤};
ghost use Rattle.cli_console.specs.Sinks.{Writes};

use crate::failure::Failure;
use crate::output::write_data;

/// Where octets are written, one after another.
pub trait Sink {
    /// These octets have been written, in this order, and no others.
    ghost written: { Self → List ℕ → Type 0 };

    /// Writes octets. After a failure it is not known how many of them were written.
    fn write(&mut self, octets: &[u8]) -> Result<(), Failure>
        ensures { OnOk result (Writes written self.old self.new octets.now) };
}

/// Standard output, of which nothing is claimed.
#[derive(Clone, Copy)]
pub struct StandardOutput<'a> {
    rt: &'a HostRuntime,
}

impl StandardOutput<'_> {
    /// Standard output of the program.
    pub fn new(rt: &HostRuntime) -> StandardOutput<'_> {
        StandardOutput { rt }
    }
}

impl Sink for StandardOutput<'_> {
    ghost written = { λ output octets. ⊤ };

    fn write(&mut self, octets: &[u8]) -> Result<(), Failure> {
        write_data(self.rt, octets)
    }
}
