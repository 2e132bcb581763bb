//! Days that a session may name.

ghost use Rattle.std.specs.Prelude.{pos};
ghost use Rattle.jiff.specs.Words.{epoch_day, IsBetween};

use class_plan::Date;

/// A day of the years 1970 to 9999.
#[derive(Clone, Copy)]
pub struct Day {
    pub date: Date,
    pub ghost in_range: { IsBetween (pos 0) (pos 2932896) (epoch_day date) },
}
