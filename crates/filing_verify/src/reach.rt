//! Which places are reached: each place that is reached passes its mark on to its successors.

ghost use Rattle.std.specs.Prelude.{◌≡◌, ◌<◌, ◌+◌, length, IfOk, IfSome, IfNone, true, false, slice_set};
ghost use Rattle.filing_verify.specs.Flow.{target, goes_on};
ghost use Rattle.filing_verify.specs.Well.{AreInRange, GoesForward};
ghost use Rattle.filing_verify.specs.Passes.{GoesOnward, Marks, MarksReached, with_target, with_next};

use crate::flow::{goes_on, operation_at, place_count, target};
use filing_image::{Image, Operation};
use std::alloc::{AllocError, Global};

/// For each place, whether it is reached; none where a reached jump or call does not go forward. The only error is a
/// refused allocation.
pub fn reach(alloc: Global, image: &Image) -> Result<Option<Vec<bool>>, AllocError>
    requires { AreInRange image.now }
    ensures marks { IfOk result (λ m. IfSome m (λ v. MarksReached image.now v.items)) }
    ensures forward { IfOk result (λ m. IfSome m (λ _. GoesForward image.now)) }
    ensures onward { IfOk result (λ m. IfSome m (λ _. GoesOnward image.now)) }
    ensures backward { IfOk result (λ m. IfNone m (GoesForward image.now → ⊥)) }
{
    let mut marks = Vec::new(alloc);
    marks.resize(place_count(image), false)?;
    mark(&mut marks, 0);
    for place in 0..place_count(image) {
        if !pass_on(image, &mut marks, place) {
            return Ok(None);
        }
    }
    Ok(Some(marks))
}

/// Passes the mark of a place on to its successors; false where its jump or call does not go forward.
fn pass_on(image: &Image, marks: &mut [bool], place: usize) -> bool
    requires within { place < length image.now.code }
    requires so_far { Marks image.now place marks.old }
    ensures passed { result ≡ true → Marks image.now (place + 1) marks.new }
    ensures backward { result ≡ false → GoesOnward image.now → ⊥ }
{
    if !marks[place] {
        return true;
    }
    let operation = operation_at(image, place);
    if let Some(to) = target(image, operation) {
        if to <= place {
            return false;
        }
    }
    mark_successors(image, operation, marks, place);
    true
}

/// Marks the places that an operation leads to.
fn mark_successors(image: &Image, operation: Operation, marks: &mut [bool], place: usize)
    requires { place < length marks.old }
    ensures { marks.new
        ≡ with_next (goes_on operation) place (with_target (target image.now operation) marks.old) }
{
    if let Some(to) = target(image, operation) {
        mark(marks, to);
    }
    if goes_on(operation) {
        mark(marks, place + 1);
    }
}

/// Marks a place, if the code has it.
fn mark(marks: &mut [bool], place: usize)
    ensures { marks.new ≡ slice_set marks.old place true }
{
    if place < marks.len() {
        marks[place] = true;
    }
}
