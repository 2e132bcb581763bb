//! Why a report cannot be made.

use std::alloc::{AllocError, AllocFailed};

/// Why a report cannot be made.
#[derive(Clone, Copy)]
pub enum ReportFault {
    NoMemory,
    /// A count would be greater than 2^64 - 1.
    TooMany,
    /// A record's class is none of the plan's.
    NoClass,
    /// A due date is not in the years 1970 to 9999.
    NoDay,
}

impl From<AllocError> for ReportFault {
    fn from(_error: AllocError) -> ReportFault {
        ReportFault::NoMemory
    }
}

impl<T: Drop> From<AllocFailed<T>> for ReportFault {
    fn from(_error: AllocFailed<T>) -> ReportFault {
        ReportFault::NoMemory
    }
}
