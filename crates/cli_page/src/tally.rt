//! The counts of all classes, and of all due dates.

ghost use Rattle.std.specs.Prelude.{◌≡◌};
ghost use Rattle.cli_page.specs.Columns.{in_years};

use crate::counts::Counts;
use crate::years::Years;

/// The counts of a class.
#[derive(Drop)]
pub struct ClassCounts {
    pub path: Vec<u8>,
    pub counts: Counts,
}

/// The counts of all classes, of all records together, and of the years in which live records fall due. The counts by years
/// always add up to the number of live records with a due date.
pub struct Tally {
    /// The day of the report, counted from 1970-01-01.
    pub(crate) day: u32,
    pub(crate) all: Counts,
    /// In byte order of their paths.
    pub(crate) classes: Vec<ClassCounts>,
    pub(crate) years: Years,
    ghost dated: { in_years years.years.items ≡ all.dated },
}

impl Drop for Tally {
    fn drop(self) {
        let Tally {
            day: _,
            all: _,
            classes: _,
            years: _,
        } = self;
    }
}
