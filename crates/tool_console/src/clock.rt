//! The time.

use crate::failure::Failure;
use std::time::{SystemTime, UNIX_EPOCH};

/// The time of the clock, in seconds since 1970-01-01T00:00:00Z. A failure where there is no clock, or it is before
/// 1970.
pub fn now(rt: &HostRuntime) -> Result<u64, Failure> {
    let alloc = rt.alloc();
    let now = SystemTime::now(rt).map_err(|_| Failure::told(alloc, "the clock cannot be read"))?;
    let since = now
        .duration_since(UNIX_EPOCH)
        .map_err(|_| Failure::told(alloc, "the clock is before 1970"))?;
    Ok(since.as_secs())
}
