//! Runs includes (RFC 6609, section 3.2).

ghost use Rattle.std.specs.Prelude.{◌≡◌, ◌&&◌, IfOk, map};
ghost use Rattle.std.specs.List.{list_any};
ghost use Rattle.sieve_meaning.specs.Meaning.{is_among as is_among_of, same_script};
ghost use Rattle.sieve_meaning.specs.Scripts.{include_view, script_of};
ghost use Rattle.sieve_evaluator.specs.Runs.{ending_at, filing_of, includes_at, missing_ending as missing_of};
ghost use Rattle.sieve_evaluator.specs.declared.filing.Filing.{Filing};

use crate::entry::ScriptEntry;
use crate::filing::{Ending, Filing};
use crate::observer::{Inclusion, Observer};
use crate::scope::Scope;
use sieve_meaning::{Include, RunFault, ScriptName};
use std::alloc::{AllocError, Global};
use std::collections::VecDeque;

fn is_among(names: &[ScriptName<'_>], script: &ScriptName<'_>) -> bool
    ensures { result
        ≡ list_any (λ other. same_script (script_of script.now) (script_of other)) names.now }
{
    names.iter().any(|other| script.is_same(other))
}

/// Whether a script was entered before.
fn was_entered(entered: &VecDeque<ScriptName<'_>>, script: &ScriptName<'_>) -> bool
    ensures { result ≡ list_any (λ other. same_script (script_of script.now) (script_of other))
        entered.now.items }
{
    entered.iter().any(|other| script.is_same(other))
}

/// Whether an include does nothing: it has `:once`, and its script was entered before.
fn is_passed(include: &Include<'_>, entered: &VecDeque<ScriptName<'_>>) -> bool
    ensures { result ≡ (include.now.is_once
        && is_among_of (map script_of entered.now.items) (script_of include.now.script)) }
{
    include.is_once && was_entered(entered, &include.script)
}

/// An include of a missing script: nothing where it is optional, otherwise a fault.
fn missing(is_optional: bool) -> Ending
    ensures { (f : Filing) → ending_at result f ≡ missing_of is_optional (filing_of f) }
{
    if is_optional {
        Ending::GoesOn
    } else {
        Ending::Faults(RunFault::ScriptMissing)
    }
}

/// Runs an include (RFC 6609, section 3.2), judged in this order. Under `:once` it does nothing where its script was
/// entered before. A missing script is a fault, or nothing under `:optional`; an active one is a fault. Any other is
/// entered.
pub fn run_include<'a, L: ScriptEntry, O: Observer>(
    alloc: Global,
    scope: &Scope<'_, '_, 'a>,
    include: &Include<'a>,
    filing: &mut Filing<'a>,
    observer: &mut O,
) -> Result<Ending, AllocError>
    ensures { IfOk result (λ e. ending_at e filing.new ≡
        includes_at L.depth scope.now (include_view include.now) (filing_of filing.old)) }
{
    if is_passed(include, &filing.entered) {
        observer.include(include, Inclusion::EnteredBefore);
        return Ok(Ending::GoesOn);
    }
    let Some(script) = scope
        .shelves
        .get(include.script.location, include.script.name)
    else {
        observer.include(include, Inclusion::Missing);
        return Ok(missing(include.is_optional));
    };
    if is_among(scope.chain, &include.script) {
        observer.include(include, Inclusion::Active);
        return Ok(Ending::Faults(RunFault::RecursiveInclude));
    }
    L::enter(alloc, scope, include, script.script(), filing, observer)
}
