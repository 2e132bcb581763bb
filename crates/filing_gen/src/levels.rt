//! The code of includes, level by level (RFC 6609, section 3.2): the code of the included script replaces the include.
//! The levels end, so that the code is finite whatever the includes are.

ghost use Rattle.std.specs.Prelude.{◌<◌, OnOk};
ghost use Rattle.sieve_meaning.specs.Weight.{included_weight};
ghost use Rattle.sieve_library.specs.BorrowedShelves.{scripts_of, library_on};
ghost use Rattle.sieve_library.specs.Libraries.{library_of, program_in};
ghost use Rattle.filing_flow.specs.Structure.{size};
ghost use Rattle.filing_gen.specs.Adds.{HasRoom, EmitsAnywhere};
ghost use Rattle.filing_gen.specs.Levels.{weight_at_level};
ghost use Rattle.filing_gen.specs.IncludeCode.{included_flow};
ghost use Rattle.filing_gen.specs.Scopes.{names_of, flow_of_entry};
ghost use Rattle.filing_procedures.specs.Slots.{slots_of};
ghost use Rattle.filing_gen.specs.Weights.{IsLeft};

use crate::chain::{Chain, Link};
use crate::emit_commands::emit_commands;
use crate::ends::{NO_PLACE, end_block};
use crate::finding::{Finding, Scope, find};
use crate::linker::{Linker, Weights};
use crate::output::{Output, put, put_fault};
use crate::weight::weigh_commands;
use filing_image::Operation;
use sieve_meaning::{Above, Deepest, Include, Level, RunFault};
use sieve_syntax::Script;
use std::alloc::{AllocError, Global};
use std::marker::PhantomData;

/// The code that enters scripts at one level. The script that is entered is already in the chain, as the innermost one.
pub trait EntryCode: Level {
    /// Subtracts what the script adds to the weight from `left`; none where it is more.
    fn weigh<C: Chain>(scope: &Scope<'_>, chain: &C, script: &Script, left: u32) -> Option<u32>
        ensures { IsLeft left (weight_at_level (library_on scope.now.shelves) Self.depth
            (C.names chain.now) (program_in script.now)) result };

    /// Writes the code that enters the script, whose slot must be below 64. The only error is a refused allocation.
    fn emit<C: Chain>(
        alloc: Global,
        scope: &Scope<'_>,
        chain: &C,
        out: &mut Output,
        slot: usize,
        script: &Script,
    ) -> Result<(), AllocError>
        requires slot { slot < 64 }
        requires room { HasRoom out.old (size
            (flow_of_entry scope.now Self.depth (C.names chain.now) slot (program_in script.now))) }
        ensures adds { OnOk result (EmitsAnywhere out.old out.new (flow_of_entry scope.now
            Self.depth (C.names chain.now) slot (program_in script.now))) };
}

/// No further script may be active: the entry is a fault.
impl EntryCode for Deepest {
    fn weigh<C: Chain>(_scope: &Scope<'_>, _chain: &C, _script: &Script, left: u32) -> Option<u32> {
        Some(left)
    }

    fn emit<C: Chain>(
        _alloc: Global,
        _scope: &Scope<'_>,
        _chain: &C,
        out: &mut Output,
        _slot: usize,
        _script: &Script,
    ) -> Result<(), AllocError> {
        put_fault(out, RunFault::NestingTooDeep)
    }
}

/// One more script may be active than at the level `L`: the entry marks the script in its slot and runs it.
impl<L: EntryCode> EntryCode for Above<L> {
    fn weigh<C: Chain>(scope: &Scope<'_>, chain: &C, script: &Script, left: u32) -> Option<u32> {
        let includes: Includes<'_, C, L> = Includes {
            scope: *scope,
            chain,
            below: PhantomData,
        };
        weigh_commands(&includes, &script.commands, left)
    }

    fn emit<C: Chain>(
        alloc: Global,
        scope: &Scope<'_>,
        chain: &C,
        out: &mut Output,
        slot: usize,
        script: &Script,
    ) -> Result<(), AllocError> {
        let includes: Includes<'_, C, L> = Includes {
            scope: *scope,
            chain,
            below: PhantomData,
        };
        let start = out.code.len();
        put(out, Operation::Mark(slot as u16))?;
        emit_commands(alloc, &includes, out, &script.commands, NO_PLACE)?;
        end_block(out, start);
        Ok(())
    }
}

/// The includes of the innermost script of a chain, which enter scripts at the level `L`.
#[derive(Drop)]
pub struct Includes<'a, C, L> {
    pub scope: Scope<'a>,
    pub chain: &'a C,
    pub below: PhantomData<L>,
}

impl<C: Chain, L: EntryCode> Weights for Includes<'_, C, L> {
    ghost weight_of = { λ s.
        included_weight (library_of (scripts_of s.scope.shelves)) L.depth (C.names s.chain.now) };

    fn weigh(&self, include: &Include<'_>, left: u32) -> Option<u32> {
        match find(&self.scope, self.chain, include) {
            Finding::Pass | Finding::Fault(_) => Some(left),
            Finding::Entry(_, script) => {
                let chain = Link {
                    script: include.script,
                    before: self.chain,
                };
                L::weigh(&self.scope, &chain, script, left)
            }
        }
    }
}

impl<C: Chain, L: EntryCode> Linker for Includes<'_, C, L> {
    ghost flow_of = { λ s. included_flow (library_of (scripts_of s.scope.shelves))
        (slots_of (scripts_of s.scope.shelves)) (names_of s.scope.main) L.depth
        (C.names s.chain.now) };

    /// Writes nothing, a fault, or the entry of a script; under `:once` a jump before the entry skips it where the
    /// script is marked.
    fn emit(
        &self,
        alloc: Global,
        out: &mut Output,
        include: &Include<'_>,
    ) -> Result<(), AllocError> {
        let (slot, script) = match find(&self.scope, self.chain, include) {
            Finding::Pass => return Ok(()),
            Finding::Fault(fault) => return put_fault(out, fault),
            Finding::Entry(slot, script) => (slot, script),
        };
        let chain = Link {
            script: include.script,
            before: self.chain,
        };
        if !include.is_once {
            return L::emit(alloc, &self.scope, &chain, out, slot, script);
        }
        let start = out.code.len();
        put(out, Operation::Marked(slot as u16))?;
        put(out, Operation::JumpIf(NO_PLACE))?;
        L::emit(alloc, &self.scope, &chain, out, slot, script)?;
        end_block(out, start);
        Ok(())
    }
}
