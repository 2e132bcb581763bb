//! How long a delivery may take.

ghost use Rattle.std.specs.Prelude.{Bool};

/// How long a delivery may go on.
pub trait Patience {
    /// It was asked once, with this answer, and is like this afterwards.
    ghost asked: { Self → Bool → Self → Type 0 };

    /// Whether the delivery has gone on for too long. It is asked between two turns of the run.
    fn is_over(&mut self) -> bool
        ensures { asked self.old result self.new };
}
