//! The cost of each place in steps, of which the budget of version 2 must cover the first.

ghost use Rattle.std.specs.Prelude.{◌≡◌, ◌<◌, ◌≤◌, ◌+◌, ℕ, IfOk, length, min};
ghost use Rattle.filing_verify.specs.Passes.{GoesOnward, LeadsInside, MarksReached, Costing, cost_in, too_much};
ghost use Rattle.filing_verify.specs.Well.{AreCosts, cost_by, together, is_call};

use crate::flow::{goes_on, operation_at, place_count, target};
use filing_image::{Image, Operation};
use std::alloc::{AllocError, Global};

/// More than any budget; it stands for this cost and all greater ones. A call adds two costs, so that costs can double
/// with each procedure, and would soon fit no integer type.
const TOO_MUCH: u32 = 1_000_001;

/// The cost of place 0, or `TOO_MUCH` where that is less. There must be a place, each reached place must lead to later
/// places of the code, and `marks` must say which places are reached. The only error is a refused allocation.
pub fn cost_of_start(alloc: Global, image: &Image, marks: &[bool]) -> Result<u32, AllocError>
    requires forward { GoesOnward image.now }
    requires inside { LeadsInside image.now }
    requires marks { MarksReached image.now marks.now }
    requires some { 0 < length image.now.code }
    ensures there { IfOk result (λ c. (cost : ℕ → ℕ) × AreCosts image.now cost) }
    ensures is { IfOk result
        (λ c. (cost : ℕ → ℕ) → AreCosts image.now cost → c ≡ min (cost 0) too_much) }
{
    let mut costs = Vec::new(alloc);
    costs.resize(place_count(image), 0u32)?;
    for place in (0..place_count(image)).rev() {
        set_cost(image, marks, &mut costs, place);
    }
    Ok(costs[0])
}

/// Sets the cost of a reached place from the costs of the places after it.
fn set_cost(image: &Image, marks: &[bool], costs: &mut [u32], place: usize)
    requires within { place < length image.now.code }
    requires forward { GoesOnward image.now }
    requires inside { LeadsInside image.now }
    requires marks { MarksReached image.now marks.now }
    requires so_far { Costing image.now (place + 1) costs.old }
    ensures { Costing image.now place costs.new }
{
    if marks[place] {
        costs[place] = cost(image, operation_at(image, place), place, costs);
    }
}

/// The cost of a place from its operation and the costs of the places after it.
fn cost(image: &Image, operation: Operation, place: usize, costs: &[u32]) -> u32
    requires small { (p : ℕ) → cost_in costs.now p ≤ too_much }
    requires within { place < length costs.now }
    ensures { result ≡ min (cost_by image.now (cost_in costs.now) place operation) too_much }
{
    let next = if goes_on(operation) {
        at(costs, place + 1)
    } else {
        0
    };
    let target = match target(image, operation) {
        Some(to) => at(costs, to),
        None => 0,
    };
    (1 + together(operation, next, target)).min(TOO_MUCH)
}

/// The cost of going on from an operation: to both of its successors at a call, and else to the costlier one.
fn together(operation: Operation, next: u32, target: u32) -> u32
    requires next { next ≤ too_much }
    requires target { target ≤ too_much }
    ensures { result ≡ together (is_call operation) next target }
{
    match operation {
        Operation::Call(_) => next + target,
        _ => next.max(target),
    }
}

/// The cost of a place; 0 past the end.
fn at(costs: &[u32], place: usize) -> u32
    requires { (p : ℕ) → cost_in costs.now p ≤ too_much }
    ensures is { result ≡ cost_in costs.now place }
    ensures small { result ≤ too_much }
{
    if place < costs.len() { costs[place] } else { 0 }
}
