//! Whether the code runs off its end, or from one procedure into the next.

ghost use Rattle.std.specs.Prelude.{◌≡◌, ◌<◌, ◌+◌, true, false, length};
ghost use Rattle.filing_verify.specs.Flow.{IsReached, procedure_of};
ghost use Rattle.filing_verify.specs.Passes.{MarksReached, RunsOn};
ghost use Rattle.filing_verify.specs.Well.{AreInRange, StaysInside};

use crate::flow::{goes_on, operation_at, place_count, procedure_of};
use filing_image::Image;

/// Whether the code has a place, and no reached place leads out of its procedure or past the end, except that a call
/// enters another procedure. `marks` must say which places are reached.
pub fn stays_inside(image: &Image, marks: &[bool]) -> bool
    requires in_range { AreInRange image.now }
    requires marks { MarksReached image.now marks.now }
    ensures inside { result ≡ true → StaysInside image.now }
    ensures outside { result ≡ false → StaysInside image.now → ⊥ }
{
    if place_count(image) < 1 {
        return false;
    }
    for place in 0..place_count(image) {
        if runs_on(image, marks, place) {
            return false;
        }
    }
    true
}

/// Whether a place is reached and goes on to the next one, which is no place of its procedure.
fn runs_on(image: &Image, marks: &[bool], place: usize) -> bool
    requires within { place < length image.now.code }
    requires in_range { AreInRange image.now }
    requires marks { MarksReached image.now marks.now }
    ensures off { result ≡ true → IsReached image.now place × RunsOn image.now place }
    ensures on { result ≡ false → IsReached image.now place → RunsOn image.now place → ⊥ }
{
    if !marks[place] {
        return false;
    }
    if !goes_on(operation_at(image, place)) {
        return false;
    }
    is_last(image, place)
}

/// Whether a place is the last of its procedure, or of the code.
fn is_last(image: &Image, place: usize) -> bool
    requires within { place < length image.now.code }
    requires in_range { AreInRange image.now }
    ensures yes { result ≡ true → (place + 1 < length image.now.code) ×
        (procedure_of image.now (place + 1) ≡ procedure_of image.now place) → ⊥ }
    ensures no { result ≡ false → (place + 1 < length image.now.code) ×
        (procedure_of image.now (place + 1) ≡ procedure_of image.now place) }
{
    let count = place_count(image);
    place + 1 >= count || procedure_of(image, place + 1) != procedure_of(image, place)
}
