//! The entry of included scripts, level by level. So a run ends whatever the scripts include.

ghost use Rattle.std.specs.Prelude.{◌≡◌, IfOk};
ghost use Rattle.sieve_evaluator.specs.Runs.{ending_at, filing_of, entry_at};
ghost use Rattle.sieve_meaning.specs.Scripts.{include_view};
ghost use Rattle.sieve_library.specs.Libraries.{program_in};

use crate::filing::{Ending, Filing};
use crate::observer::Observer;
use crate::scope::Scope;
use sieve_meaning::{Include, Level};
use sieve_syntax::Script;
use std::alloc::{AllocError, Global};

/// How scripts are entered at one level.
pub trait ScriptEntry: Level {
    /// Enters the script that an include names, which is there and not active, and runs it.
    fn enter<'a, O: Observer>(
        alloc: Global,
        scope: &Scope<'_, '_, 'a>,
        include: &Include<'a>,
        script: &'a Script,
        filing: &mut Filing<'a>,
        observer: &mut O,
    ) -> Result<Ending, AllocError>
        ensures { IfOk result (λ e. ending_at e filing.new ≡ entry_at Self.depth scope.now
            (include_view include.now) (program_in script.now) (filing_of filing.old)) };
}
