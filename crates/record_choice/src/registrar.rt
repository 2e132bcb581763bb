//! Who is handed the certificates of a disposal.

ghost use Rattle.std.specs.Prelude.{IfOk, OnOk};
ghost use Rattle.record_choice.specs.Disposals.{Certificate, certificate_view};

use crate::destruction::Destroyed;

/// Who is handed the certificates of a disposal. Each is made out before its record is destroyed, so that no record is
/// destroyed whose certificate cannot be had, and is handed over afterwards.
pub trait Registrar {
    /// Why no further record is to be destroyed.
    type Fault: Drop;

    /// A certificate that is made out.
    type Draft: Drop;

    /// What its draft says.
    ghost says: { Self → Self.Draft → Certificate → Type 0 };

    /// A certificate was handed over, and nothing else happened.
    ghost takes: { Self → Self → Certificate → Type 0 };

    /// Whether it takes certificates, as it does until one is not taken.
    ghost is_open: { Self → Type 0 };

    /// Makes out the certificate of a record that is about to be destroyed.
    fn draft(&self, destroyed: &Destroyed) -> Result<Self::Draft, Self::Fault>
        ensures { IfOk result (λ d. says self.now d (certificate_view destroyed.now)) };

    /// Takes the certificate of a record that was just destroyed. A failure ends the disposal.
    fn take(&mut self, draft: Self::Draft) -> Result<(), Self::Fault>
        requires { is_open self.old }
        ensures taken { (c : Certificate) → says self.old draft c → takes self.old self.new c }
        ensures open { OnOk result (is_open self.new) };
}
