//! How many scripts an include may still enter (RFC 6609, section 3.2). The number is a type, so that a recursion over
//! includes ends with its levels, whatever the scripts include.

ghost use Rattle.std.specs.Prelude.{ℕ, zero, suc};

use std::marker::PhantomData;

/// A level: the number of further scripts that may be active (RFC 6609, section 3.2). To enter one more at the limit of
/// nesting is a fault. A trait that extends this one says what the entry of a script is, at `Deepest` and at `Above`.
pub trait Level {
    /// The number of further scripts that may be active.
    ghost depth: { ℕ };
}

/// The limit of nesting: no further script may be active.
pub struct Deepest {}

impl Level for Deepest {
    ghost depth = { zero };
}

/// One more script may be active than at the level `L`.
pub struct Above<L> {
    below: PhantomData<L>,
}

impl<L: Level> Level for Above<L> {
    ghost depth = { suc L.depth };
}

/// The level of a main script: eight scripts may be active, the main one among them. A script without `include` uses
/// none of the other seven.
pub type Levels = Above<Above<Above<Above<Above<Above<Above<Deepest>>>>>>>;
