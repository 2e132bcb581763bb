//! Laws of images, stated on a function that does nothing.

ghost use Rattle.std.specs.Prelude.{◌≡◌, ◌++◌, ℕ, List};
ghost use Rattle.filing_image.specs.Program.{Program, parts};
ghost use Rattle.filing_image.specs.Spelling.{spelling, Fits};

/// No program's spelling is a prefix of another's. So each image has one spelling, the one that `encode` gives, and
/// octets spell at most one image. Decoding what `encode` gave answers the same image, and encoding what `decode`
/// answered gives the same octets.
pub fn one_spelling()
    ensures { (p q : Program) (x y : List ℕ) → Fits (parts p) → Fits (parts q) →
        spelling (parts p) ++ x ≡ spelling (parts q) ++ y → (p ≡ q) × (x ≡ y) }
{}
