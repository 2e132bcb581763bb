//! The levels at which scripts are included.

ghost use Rattle.std.specs.Prelude.{◌≡◌, ◌∷◌, IfOk};
ghost use Rattle.sieve_meaning.specs.Meaning.{ending_of_include as ended_of};
ghost use Rattle.sieve_evaluator.specs.Runs.{ending_at};
ghost use Rattle.sieve_evaluator.specs.declared.filing.Filing.{Filing};

use crate::commands::run;
use crate::entry::ScriptEntry;
use crate::filing::{Ending, Filing};
use crate::observer::{Inclusion, Observer};
use crate::scope::Scope;
use sieve_meaning::{Above, Deepest, Include, RunFault, ScriptName};
use sieve_syntax::Script;
use std::alloc::{AllocError, Global};

/// No further script may be active: to enter one is a fault.
impl ScriptEntry for Deepest {
    fn enter<'a, O: Observer>(
        _alloc: Global,
        _scope: &Scope<'_, '_, 'a>,
        include: &Include<'a>,
        _script: &'a Script,
        _filing: &mut Filing<'a>,
        observer: &mut O,
    ) -> Result<Ending, AllocError> {
        observer.include(include, Inclusion::TooDeep);
        Ok(Ending::Faults(RunFault::NestingTooDeep))
    }
}

/// The active scripts with one more in front, the innermost.
fn chain_with<'a>(
    alloc: Global,
    script: ScriptName<'a>,
    chain: &[ScriptName<'a>],
) -> Result<Vec<ScriptName<'a>>, AllocError>
    ensures { IfOk result (λ v. v.items ≡ script.entry ∷ chain.now) }
{
    let mut longer = Vec::from_slice(alloc, chain)?;
    longer.insert(0, script)?;
    Ok(longer)
}

/// How an include ends, from the end of its script. Where the script returns, the run goes on after the include.
fn ended(ending: Ending) -> Ending
    ensures { (f : Filing) → ending_at result f ≡ ended_of (ending_at ending f) }
{
    match ending {
        Ending::GoesOn | Ending::Returns => Ending::GoesOn,
        Ending::Stops => Ending::Stops,
        Ending::Faults(fault) => Ending::Faults(fault),
    }
}

/// One more script may be active than at the level below: it is run at that level.
impl<L: ScriptEntry> ScriptEntry for Above<L> {
    fn enter<'a, O: Observer>(
        alloc: Global,
        scope: &Scope<'_, '_, 'a>,
        include: &Include<'a>,
        script: &'a Script,
        filing: &mut Filing<'a>,
        observer: &mut O,
    ) -> Result<Ending, AllocError> {
        observer.include(include, Inclusion::Enters);
        let chain = chain_with(alloc, include.script, scope.chain)?;
        filing.entered.push_front(include.script)?;
        let inner = Scope {
            case: scope.case,
            shelves: scope.shelves,
            chain: chain.as_slice(),
        };
        let ending = run::<L, O>(alloc, &inner, &script.commands, filing, observer)?;
        observer.leave_script();
        Ok(ended(ending))
    }
}
