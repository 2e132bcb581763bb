//! The range of operands, and the procedures that version 2 may have.

ghost use Rattle.std.specs.Prelude.{◌≡◌, IsTrue, ◌↔◌, ◌<◌, ℕ, length, slice_get, true, false, Some};
ghost use Rattle.filing_image.specs.declared.instruction.Operation.{Operation as OperationType};
ghost use Rattle.filing_verify.specs.Flow.{jump_target, procedure_of};
ghost use Rattle.filing_verify.specs.Passes.{JumpsOut};
ghost use Rattle.filing_verify.specs.Well.{InRange, AreInRange, AreFirstPlaces, Ascends, HasProcedures, JumpsStay};

use crate::flow::{jump_target, operation_at, place_count, procedure_of};
use filing_image::{Image, Operation, Version};

/// Whether there are at most 64 slots, each operation, reached or not, has its operands in range, the procedures are as
/// version 2 must have them, and no jump leaves its procedure.
pub fn are_in_range(image: &Image) -> bool
    ensures { IsTrue result ↔ AreInRange image.now }
{
    image.slots() <= 64
        && image.code().iter().all(|o| is_in_range(image, *o))
        && has_procedures(image)
        && jumps_stay(image)
}

/// Whether each operand names something that exists, or has one of its values.
fn is_in_range(image: &Image, operation: Operation) -> bool
    ensures { IsTrue result ↔ InRange image.now operation }
{
    match operation {
        Operation::Values(b) | Operation::Exists(b) => (b as usize) < image.text_count(),
        Operation::Match(a, b) => a <= 5 && (b as usize) < image.text_count(),
        Operation::Number(b) => (b as usize) < image.numbers().len(),
        Operation::Jump(b) | Operation::JumpIf(b) | Operation::JumpUnless(b) => {
            (b as usize) < image.code().len()
        }
        Operation::Marked(b) | Operation::Mark(b) => b < image.slots(),
        Operation::File(a, b) => a <= 1 && (b as usize) < image.text_count(),
        Operation::Fault(a) => 2 <= a && a <= 5,
        Operation::Call(b) => (b as usize) < image.first_places().len(),
        Operation::Return => 0 < image.first_places().len(),
        _ => true,
    }
}

/// Whether the procedures are as version 2 must have them.
fn has_procedures(image: &Image) -> bool
    ensures { IsTrue result ↔ HasProcedures image.now image.now.procedures }
{
    match image.version() {
        Version::One => true,
        Version::Two => are_procedures(image.first_places(), place_count(image)),
    }
}

/// Whether these are the first places of 1 to 256 procedures in code of `places` places.
fn are_procedures(firsts: &[u16], places: usize) -> bool
    ensures { IsTrue result ↔ AreFirstPlaces places firsts.now }
{
    0 < firsts.len()
        && firsts.len() <= 256
        && firsts[0] == 0
        && ascends(firsts)
        && firsts.iter().all(|first| (*first as usize) < places)
}

/// Whether each number is greater than the one before it.
fn ascends(numbers: &[u16]) -> bool
    ensures yes { result ≡ true → Ascends numbers.now }
    ensures no { result ≡ false → Ascends numbers.now → ⊥ }
{
    for i in 1..numbers.len() {
        if numbers[i] <= numbers[i - 1] {
            return false;
        }
    }
    true
}

/// Whether each jump goes to a place of its own procedure.
fn jumps_stay(image: &Image) -> bool
    requires { HasProcedures image.now image.now.procedures }
    ensures yes { result ≡ true → JumpsStay image.now }
    ensures no { result ≡ false → JumpsStay image.now → ⊥ }
{
    for place in 0..place_count(image) {
        if jumps_out(image, place) {
            return false;
        }
    }
    true
}

/// Whether the operation at this place is a jump to another procedure.
fn jumps_out(image: &Image, place: usize) -> bool
    requires within { place < length image.now.code }
    requires procedures { HasProcedures image.now image.now.procedures }
    ensures out { result ≡ true → JumpsOut image.now place }
    ensures stays { result ≡ false → (q : ℕ) (o : OperationType)
        → slice_get image.now.code place ≡ Some o → jump_target o ≡ Some q
        → procedure_of image.now q ≡ procedure_of image.now place }
{
    let Some(to) = jump_target(operation_at(image, place)) else {
        return false;
    };
    procedure_of(image, to) != procedure_of(image, place)
}
