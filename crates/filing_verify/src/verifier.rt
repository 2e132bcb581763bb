//! The verifier: the five rules, one after the other.

ghost use Rattle.std.specs.Prelude.{◌≡◌, ◌≤◌, ◌↔◌, true, false, IsTrue, IfOk, IfErr};
ghost use Rattle.filing_image.specs.Program.{Program, version_of};
ghost use Rattle.filing_verify.specs.Passes.{GoesOnward, MarksReached};
ghost use Rattle.filing_verify.specs.Well.{IsWell, IsWithin, Fails, AreInRange, StaysInside};

use crate::cost::longest;
use crate::cost_with_calls::cost_of_start;
use crate::fault::VerifyFault;
use crate::inside::stays_inside;
use crate::range::are_in_range;
use crate::reach::reach;
use crate::shaping::has_shapes;
use filing_image::{Image, Version};
use std::alloc::{AllocError, Global};
use std::marker::Model;

/// The greatest budget that an image of version 1 may declare.
const MAX_BUDGET: u32 = 65_535;

/// The greatest budget that an image of version 2 may declare.
const MAX_BUDGET_WITH_CALLS: u32 = 1_000_000;

/// An image that may run: its code is well formed, and each of its runs ends within its budget. Contracts see it as
/// the image's program.
#[derive(Drop)]
pub struct Verified {
    image: Image,
}

impl Model for Verified {
    ghost Value = { Program };

    ghost view = { λ v. v.image };

    ghost invariant = { λ v. IsWell v.image };
}

impl Verified {
    /// Wraps an image of which the caller proves that it may run. Nothing is checked or allocated.
    pub fn known(image: Image) -> Verified
        requires { IsWell image }
        ensures { result ≡ image }
    {
        Verified { image }
    }

    /// The image that was verified.
    pub fn image(&self) -> &Image
        ensures is { result.now ≡ self.now }
        ensures well { IsWell self.now }
    {
        &self.image
    }

    /// The budget that the image declares: 1 to 65,535 steps in version 1, and 1 to 1,000,000 in version 2.
    pub fn budget(&self) -> u32
        ensures { result ≡ self.now.budget }
    {
        self.image.budget()
    }
}

/// Accepts exactly the images that may run. Each other image is refused with the first rule that it breaks, 62 to 66,
/// or with 99 where an allocation was refused; rule 62 is checked before memory is taken. A refused image is handed
/// back unchanged. Time and memory are linear in the length of the code.
pub fn verify(alloc: Global, image: Image) -> Result<Verified, (VerifyFault, Image)>
    ensures accepted { IfOk result (λ v. v ≡ image) }
    ensures well { IfOk result (λ v. IsWell image) }
    ensures back { IfErr result (λ e. e.1 ≡ image) }
    ensures refused { IfErr result (λ e. Fails e.0 image) }
{
    match check_rules(alloc, &image) {
        Ok(()) => Ok(Verified { image }),
        Err(fault) => Err((fault, image)),
    }
}

/// The first rule that the image breaks.
fn check_rules(alloc: Global, image: &Image) -> Result<(), VerifyFault>
    ensures well { IfOk result (λ _. IsWell image.now) }
    ensures refused { IfErr result (λ e. Fails e image.now) }
{
    if !are_in_range(image) {
        return Err(VerifyFault::Operand);
    }
    let Some(marks) = reach(alloc, image)? else {
        return Err(VerifyFault::Backward);
    };
    if !has_shapes(alloc, image)? {
        return Err(VerifyFault::Stack);
    }
    if !stays_inside(image, &marks) {
        return Err(VerifyFault::RunsOff);
    }
    if !is_within(alloc, image, &marks)? {
        return Err(VerifyFault::Budget);
    }
    Ok(())
}

/// Whether the budget is in the range of the version, and no run needs more.
fn is_within(alloc: Global, image: &Image, marks: &[bool]) -> Result<bool, AllocError>
    requires in_range { AreInRange image.now }
    requires forward { GoesOnward image.now }
    requires inside { StaysInside image.now }
    requires marks { MarksReached image.now marks.now }
    ensures yes { IfOk result (λ yes. yes ≡ true → IsWithin image.now) }
    ensures no { IfOk result (λ yes. yes ≡ false → IsWithin image.now → ⊥) }
{
    match image.version() {
        Version::One => is_within_paths(alloc, image, marks),
        Version::Two => is_within_costs(alloc, image, marks),
    }
}

/// Whether the budget is 1 to 65,535, and has a step for each place of the longest path.
fn is_within_paths(alloc: Global, image: &Image, marks: &[bool]) -> Result<bool, AllocError>
    requires version { Version.One ≡ version_of image.now.procedures }
    requires forward { GoesOnward image.now }
    requires inside { StaysInside image.now }
    requires marks { MarksReached image.now marks.now }
    ensures yes { IfOk result (λ yes. yes ≡ true → IsWithin image.now) }
    ensures no { IfOk result (λ yes. yes ≡ false → IsWithin image.now → ⊥) }
{
    let places = longest(alloc, image, marks)?;
    Ok(is_between(places, image.budget(), MAX_BUDGET))
}

/// Whether the budget is 1 to 1,000,000 and at least the cost of place 0.
fn is_within_costs(alloc: Global, image: &Image, marks: &[bool]) -> Result<bool, AllocError>
    requires version { Version.Two ≡ version_of image.now.procedures }
    requires in_range { AreInRange image.now }
    requires forward { GoesOnward image.now }
    requires inside { StaysInside image.now }
    requires marks { MarksReached image.now marks.now }
    ensures yes { IfOk result (λ yes. yes ≡ true → IsWithin image.now) }
    ensures no { IfOk result (λ yes. yes ≡ false → IsWithin image.now → ⊥) }
{
    let steps = cost_of_start(alloc, image, marks)?;
    Ok(is_between(steps as usize, image.budget(), MAX_BUDGET_WITH_CALLS))
}

/// Whether a budget is 1 to `max`, and not below what is needed.
fn is_between(needed: usize, budget: u32, max: u32) -> bool
    ensures { IsTrue result ↔ (1 ≤ budget) × (budget ≤ max) × (needed ≤ budget) }
{
    1 <= budget && budget <= max && needed <= budget as usize
}
