//! The successors of an operation, and the procedures that places are in.

ghost use Rattle.std.specs.Prelude.{◌≡◌, ◌<◌, ◌^◌, length, slice_get, Some};
ghost use Rattle.filing_verify.specs.Flow.{jump_target, first_place, target, goes_on, procedure_of};
ghost use Rattle.filing_verify.specs.Well.{HasProcedures};

use filing_image::{Image, Operation};

/// The number of places, one for each operation of the code; at most 65,535.
pub fn place_count(image: &Image) -> usize
    ensures value { result ≡ length image.now.code }
    ensures short { result < 2 ^ 16 }
{
    image.code().len()
}

/// The operation at a place, which counts from 0 and must be below `place_count`.
pub fn operation_at(image: &Image, place: usize) -> Operation
    requires { place < length image.now.code }
    ensures { slice_get image.now.code place ≡ Some result }
{
    image.code()[place]
}

/// The place that a jump names; none for any other operation.
pub fn jump_target(operation: Operation) -> Option<usize>
    ensures { result ≡ jump_target operation }
{
    match operation {
        Operation::Jump(b) | Operation::JumpIf(b) | Operation::JumpUnless(b) => Some(b as usize),
        _ => None,
    }
}

/// The place that a jump names, or the first place of the procedure that a call enters; none for any other operation.
pub fn target(image: &Image, operation: Operation) -> Option<usize>
    ensures { result ≡ target image.now operation }
{
    match operation {
        Operation::Call(b) => first_place(image, b),
        _ => jump_target(operation),
    }
}

/// The first place of the procedure with this number, where there is one.
fn first_place(image: &Image, procedure: u16) -> Option<usize>
    ensures { result ≡ first_place image.now procedure }
{
    let first = image.first_places().get(procedure as usize).copied()?;
    Some(first as usize)
}

/// The number of the procedure that a place is in; 0 in version 1. In version 2 the first places must ascend.
pub fn procedure_of(image: &Image, place: usize) -> usize
    requires { HasProcedures image.now image.now.procedures }
    ensures { result ≡ procedure_of image.now place }
{
    let begun = image
        .first_places()
        .partition_point(|first| *first as usize <= place);
    begun.saturating_sub(1)
}

/// Whether the run may go on to the next place, which it may not after `Jump`, `Stop`, `Fault` and `Return`. After
/// `Call` it may, once the procedure has returned.
pub fn goes_on(operation: Operation) -> bool
    ensures { result ≡ goes_on operation }
{
    !matches!(
        operation,
        Operation::Jump(_) | Operation::Stop | Operation::Fault(_) | Operation::Return
    )
}
