//! The longest path, which the budget of version 1 must cover.

ghost use Rattle.std.specs.Prelude.{◌≡◌, ◌<◌, ◌≤◌, ◌+◌, ℕ, IfOk, length, slice_index_or};
ghost use Rattle.filing_verify.specs.Flow.{Path, target, goes_on};
ghost use Rattle.filing_verify.specs.Passes.{GoesOnward, MarksReached, Costs, cost_at, by_next, by_target};

use crate::flow::{goes_on, operation_at, place_count, target};
use filing_image::{Image, Operation};
use std::alloc::{AllocError, Global};

/// The number of places on the longest path of successors from place 0. There must be a place, each reached jump must
/// go forward, and `marks` must say which places are reached. The only error is a refused allocation.
pub fn longest(alloc: Global, image: &Image, marks: &[bool]) -> Result<usize, AllocError>
    requires forward { GoesOnward image.now }
    requires marks { MarksReached image.now marks.now }
    requires some { 0 < length image.now.code }
    ensures most { IfOk result
        (λ c. (n q : ℕ) → Path image.now n q → q < length image.now.code → n + 1 ≤ c) }
    ensures attained { IfOk result
        (λ c. (n q : ℕ) × Path image.now n q × (q < length image.now.code) × (n + 1 ≡ c)) }
{
    let mut costs = Vec::new(alloc);
    costs.resize(place_count(image), 0usize)?;
    for place in (0..place_count(image)).rev() {
        set_cost(image, marks, &mut costs, place);
    }
    Ok(costs[0])
}

/// Sets the cost of a reached place from the costs of the places after it.
fn set_cost(image: &Image, marks: &[bool], costs: &mut [usize], place: usize)
    requires within { place < length image.now.code }
    requires forward { GoesOnward image.now }
    requires marks { MarksReached image.now marks.now }
    requires so_far { Costs image.now (place + 1) costs.old }
    ensures { Costs image.now place costs.new }
{
    if marks[place] {
        costs[place] = cost(image, operation_at(image, place), place, costs);
    }
}

/// The number of places on the longest path from a place on, from the costs of the places after it.
fn cost(image: &Image, operation: Operation, place: usize, costs: &[usize]) -> usize
    requires small { (p : ℕ) → p < length costs.now
        → slice_index_or costs.now p 0 + p ≤ length costs.now }
    requires within { place < length costs.now }
    ensures { result ≡ cost_at image.now operation place costs.now }
{
    let next = if goes_on(operation) {
        at(costs, place + 1)
    } else {
        0
    };
    let jump = match target(image, operation) {
        Some(to) => at(costs, to),
        None => 0,
    };
    next.max(jump) + 1
}

/// The cost of a place; 0 past the end.
fn at(costs: &[usize], place: usize) -> usize
    requires { (p : ℕ) → p < length costs.now
        → slice_index_or costs.now p 0 + p ≤ length costs.now }
    ensures is { result ≡ slice_index_or costs.now place 0 }
    ensures small { result ≤ length costs.now }
{
    if place < costs.len() { costs[place] } else { 0 }
}
