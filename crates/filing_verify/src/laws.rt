//! Laws of the definitions, each the contract of a function that does nothing.

ghost use Rattle.std.specs.Prelude.{◌≡◌, ◌↔◌, None};
ghost use Rattle.filing_image.specs.Program.{Program};
ghost use Rattle.filing_verify.specs.declared.fault.VerifyFault.{VerifyFault};
ghost use Rattle.filing_verify.specs.Well.{IsWell, Fails};
ghost use Rattle.filing_verify.specs.VersionOne as one;

/// A version 1 program is accepted exactly where it was before there were procedures, and refused by the same rule.
pub fn version_one_is_kept()
    ensures accepted { (p : Program) → p.procedures ≡ None → (IsWell p ↔ one.IsWell p) }
    ensures refused { (fault : VerifyFault) (p : Program) → p.procedures ≡ None
        → (Fails fault p ↔ one.Fails fault p) }
{}
