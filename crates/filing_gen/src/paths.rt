//! The weights of procedures: of their code, which stands once, and of the longest paths through them.

ghost use Rattle.std.specs.Prelude.{◌≡◌, ◌<◌, Option, map, IfOk};
ghost use Rattle.std.specs.List.{All};
ghost use Rattle.sieve_meaning.specs.Weight.{greatest_weight};
ghost use Rattle.sieve_meaning.specs.Procedures.{shared_weight as shared_weight_of, path_weight as path_weight_of, greatest_path};
ghost use Rattle.sieve_library.specs.BorrowedShelves.{scripts_of, library_on};
ghost use Rattle.sieve_library.specs.Libraries.{library_of};
ghost use Rattle.filing_procedures.specs.Keys.{IsKeyOf};
ghost use Rattle.filing_procedures.specs.ProcedureCode.{procedure_of, IsEntered, HaveKeys};
ghost use Rattle.filing_gen.specs.Numbers.{number_at};
ghost use Rattle.filing_gen.specs.Paths.{known_path, path_from};
ghost use Rattle.filing_gen.specs.Procedures.{path_weights as path_weights_of};
ghost use Rattle.filing_gen.specs.Scopes.{ForMain};
ghost use Rattle.filing_gen.specs.Weights.{IsWeightUpTo};

use crate::callees::{Call, Callees, Inclusion, numbers_by_slot};
use crate::chain::MainScript;
use crate::finding::Scope;
use crate::linker::Weights;
use crate::weight::{MAX_WEIGHT, script_weight};
use filing_procedures::{Procedure, Reach};
use sieve_meaning::Include;
use std::alloc::{AllocError, Global};

/// The greatest weight of a path.
const MAX_PATH: u32 = 1_000_000;

/// Includes that weigh nothing.
#[derive(Clone, Copy, Drop)]
pub struct Weightless {}

impl Weights for Weightless {
    ghost use Rattle.filing_gen.specs.Procedures.{no_weight};

    ghost weight_of = { λ s. no_weight };

    fn weigh(&self, _include: &Include<'_>, left: u32) -> Option<u32> {
        Some(left)
    }
}

/// The weight of the code of all procedures; none where it is above 60,000.
pub fn shared_weight(procedures: &[Procedure<'_>]) -> Option<u32>
    ensures { IsWeightUpTo greatest_weight
        (shared_weight_of (map procedure_of procedures.now)) result }
{
    let mut left = MAX_WEIGHT;
    for procedure in procedures {
        left -= script_weight(&Weightless {}, procedure.script, left)?;
    }
    Some(MAX_WEIGHT - left)
}

/// The weight that a table has at a place, where it is known.
fn weight_at(weights: &[Option<u32>], place: usize) -> Option<u32>
    ensures { result ≡ number_at weights.now place }
{
    match weights.get(place) {
        Some(weight) => *weight,
        None => None,
    }
}

/// The includes of a procedure, each with the weight of a longest path through the procedure that it enters.
#[derive(Clone, Copy, Drop)]
pub struct Paths<'a, 'b> {
    pub callees: Callees<'a>,
    /// The path weights of the procedures after this one; none where it is 2^32 or more.
    pub later: &'b [Option<u32>],
    ghost weights: { later.now ≡ map known_path (path_weights_of
        (library_of (scripts_of callees.scope.shelves)) (map procedure_of callees.later.now)) },
}

impl Weights for Paths<'_, '_> {
    ghost use Rattle.filing_gen.specs.Procedures.{called_path};

    ghost weight_of = { λ s. called_path (library_of (scripts_of s.callees.scope.shelves))
        (map procedure_of s.callees.later.now) (path_weights_of
        (library_of (scripts_of s.callees.scope.shelves)) (map procedure_of s.callees.later.now))
        s.callees.procedure.now.key.left (procedure_of s.callees.procedure.now).chain };

    fn weigh(&self, include: &Include<'_>, left: u32) -> Option<u32> {
        match self.callees.inclusion(include) {
            Inclusion::Enter(_, Call::To(number)) => left.checked_sub(weight_at(
                self.later, number,
            )?),
            Inclusion::Pass | Inclusion::Fault(_) | Inclusion::Enter(..) => Some(left),
        }
    }
}

/// The path weight of a procedure, by those of the procedures after it; none where it is 2^32 or more.
fn path_weight<'a>(
    alloc: Global,
    reach: &Reach<'a>,
    main: MainScript<'a>,
    procedure: &'a Procedure<'a>,
    later: &'a [Procedure<'a>],
    paths: &[Option<u32>],
) -> Result<Option<u32>, AllocError>
    requires key { IsKeyOf (scripts_of reach.now.shelves) procedure.now.key
        (procedure_of procedure.now) }
    requires entered { All (IsEntered (scripts_of reach.now.shelves)) later.now }
    requires paths { paths.now ≡ map known_path
        (path_weights_of (library_on reach.now.shelves) (map procedure_of later.now)) }
    ensures { IfOk result (λ o. o ≡ known_path (path_from (library_on reach.now.shelves)
        (map procedure_of later.now) (procedure_of procedure.now))) }
{
    let numbers = numbers_by_slot(alloc, reach, procedure, later)?;
    let callees = Callees {
        scope: Scope {
            shelves: reach.shelves,
            main,
        },
        procedure,
        later,
        numbers: numbers.as_slice(),
    };
    let includes = Paths {
        callees,
        later: paths,
    };
    Ok(script_weight(&includes, procedure.script, u32::MAX))
}

/// The path weight of each procedure; none where it is 2^32 or more.
fn path_weights<'a>(
    alloc: Global,
    reach: &Reach<'a>,
    main: MainScript<'a>,
    procedures: &'a [Procedure<'a>],
) -> Result<Vec<Option<u32>>, AllocError>
    requires { HaveKeys (scripts_of reach.now.shelves) procedures.now }
    ensures { IfOk result (λ v. v.items ≡ map known_path
        (path_weights_of (library_on reach.now.shelves) (map procedure_of procedures.now))) }
{
    let mut paths = vec![in alloc; None; procedures.len()]?;
    for number in (0..procedures.len()).rev() {
        let path = path_weight(
            alloc,
            reach,
            main,
            &procedures[number],
            &procedures[number + 1..],
            &paths[number + 1..],
        )?;
        paths[number] = path;
    }
    Ok(paths)
}

/// The weight of a longest path through the main script, of which these are the procedures; none where it is above
/// 1,000,000.
pub fn main_path<'a>(
    alloc: Global,
    reach: &Reach<'a>,
    main: MainScript<'a>,
    procedures: &'a [Procedure<'a>],
) -> Result<Option<u32>, AllocError>
    requires { HaveKeys (scripts_of reach.now.shelves) procedures.now }
    ensures { ForMain reach.now.shelves procedures.now (λ lib known_as script.
        IfOk result (IsWeightUpTo greatest_path (path_weight_of lib known_as script))) }
{
    let paths = path_weights(alloc, reach, main, procedures)?;
    match weight_at(&paths, 0) {
        None => Ok(None),
        Some(path) if path > MAX_PATH => Ok(None),
        Some(path) => Ok(Some(path)),
    }
}
