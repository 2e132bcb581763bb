//! Which shape the stack has at each place.

ghost use Rattle.std.specs.Prelude.{◌≡◌, ◌<◌, ◌+◌, IfOk, true, false, Some, length};
ghost use Rattle.filing_verify.specs.Flow.{Follows, target, goes_on};
ghost use Rattle.filing_verify.specs.Shapes.{HasShapes};
ghost use Rattle.filing_verify.specs.Passes.{GoesOnward, Takes, Clashes, Shaping};

use crate::effect::apply;
use crate::flow::{goes_on, operation_at, place_count, target};
use crate::shape::Shape;
use filing_image::{Image, Operation};
use std::alloc::{AllocError, Global};

/// Whether shapes of the stack, at most 32 deep, can be assigned to the places that are reached. Each reached jump must
/// go forward. The only error is a refused allocation.
pub fn has_shapes(alloc: Global, image: &Image) -> Result<bool, AllocError>
    requires { GoesOnward image.now }
    ensures yes { IfOk result (λ yes. yes ≡ true → HasShapes image.now) }
    ensures no { IfOk result (λ yes. yes ≡ false → HasShapes image.now → ⊥) }
{
    let mut table = Vec::with_capacity(alloc, place_count(image))?;
    for _ in 0..place_count(image) {
        table.push(None)?;
    }
    offer(&mut table, 0, &Shape::new());
    for place in 0..place_count(image) {
        if !pass_on(image, &mut table, place) {
            return Ok(false);
        }
    }
    Ok(true)
}

/// Passes the shape after a place's operation on to its successors; false where there can be no assignment.
fn pass_on(image: &Image, table: &mut [Option<Shape>], place: usize) -> bool
    requires within { place < length image.now.code }
    requires forward { GoesOnward image.now }
    requires so_far { Shaping image.now place table.old }
    ensures passed { result ≡ true → Shaping image.now (place + 1) table.new }
    ensures refused { result ≡ false → HasShapes image.now → ⊥ }
{
    let Some(shape) = &table[place] else {
        return true;
    };
    let mut shape = shape.copy();
    let operation = operation_at(image, place);
    if !apply(operation, &mut shape) {
        return false;
    }
    if shape.depth() > 32 {
        return false;
    }
    offer_successors(image, operation, table, place, &shape)
}

/// Gives a shape to the places that an operation leads to, unless one has another.
fn offer_successors(
    image: &Image,
    operation: Operation,
    table: &mut [Option<Shape>],
    place: usize,
    shape: &Shape,
) -> bool
    requires { place < length table.old }
    ensures taken { result ≡ true
        → Takes table.old (Follows image.now operation place) shape.now table.new }
    ensures refused { result ≡ false
        → Clashes table.old (Follows image.now operation place) shape.now }
{
    match target(image, operation) {
        None => offer_next(operation, table, place, shape),
        Some(to) => {
            if !offer(table, to, shape) {
                return false;
            }
            offer_next(operation, table, place, shape)
        }
    }
}

/// Gives a shape to the next place, where the operation goes on, unless that has another.
fn offer_next(
    operation: Operation,
    table: &mut [Option<Shape>],
    place: usize,
    shape: &Shape,
) -> bool
    requires { place < length table.old }
    ensures taken { result ≡ true →
        Takes table.old (λ q. (goes_on operation ≡ true) × (q ≡ place + 1)) shape.now table.new }
    ensures refused { result ≡ false
        → Clashes table.old (λ q. (goes_on operation ≡ true) × (q ≡ place + 1)) shape.now }
{
    if !goes_on(operation) {
        return true;
    }
    offer(table, place + 1, shape)
}

/// Gives a place this shape, unless it has another.
fn offer(table: &mut [Option<Shape>], at: usize, shape: &Shape) -> bool
    ensures taken { result ≡ true → Takes table.old (λ q. q ≡ at) shape.now table.new }
    ensures refused { result ≡ false → Clashes table.old (λ q. q ≡ at) shape.now }
{
    if at >= table.len() {
        return true;
    }
    match &table[at] {
        Some(other) => other.is(shape),
        None => {
            table[at] = Some(shape.copy());
            true
        }
    }
}
