//! Disposal schedules: how long after its capture a record falls due, and what is done then.

/// The unit of a schedule's period.
#[derive(Clone, Copy, Debug)]
pub enum Unit {
    /// Days, 1 to 366,000 of them.
    Days,
    /// Months, 1 to 12,000 of them.
    Months,
    /// Years, 1 to 1,000 of them.
    Years,
}

/// What is done with a record once it is due.
#[derive(Clone, Copy, Debug)]
pub enum Action {
    /// Somebody reviews it.
    Review,
    /// It is transferred to another archive.
    Transfer,
    /// It may be destroyed.
    Destroy,
}

/// A disposal schedule, as MoReq2010 has them for classes.
#[derive(Clone, Copy, Debug)]
pub enum Schedule {
    /// The record is kept for good.
    Permanent,
    /// The record falls due a number of days, months or years after its capture.
    After {
        /// The number of units, in the range that [`Unit`] gives.
        count: u32,
        /// The unit of the count.
        unit: Unit,
        /// What is done with the record then.
        action: Action,
        /// Whether the record falls due only on 31 December of that day's year.
        year_end: bool,
    },
}
