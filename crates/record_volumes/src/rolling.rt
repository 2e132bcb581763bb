//! Into which volume a message goes.

ghost use Rattle.std.specs.Prelude.{◌≡◌};
ghost use Rattle.record_volumes.specs.Rolling.{last_number, target};

/// The greatest number of a volume. Numbers of volumes have four digits.
pub const LAST_VOLUME: u32 = 9_999;

/// Where a message goes.
#[derive(Clone, Copy)]
pub enum Target {
    /// Into the last volume, which has this number.
    Last(u32),
    /// Into a new one with this number.
    Next(u32),
}

/// Where a message goes, where the last volume has this number and so many octets, and volumes have a size of so many: into
/// the last one, or into the next where the last is over its size. The last of all numbers has none next to it.
pub fn target_of(volume: u32, octets: u64, size: u64) -> Target
    ensures { result ≡ target volume octets size }
{
    if octets > size && volume < LAST_VOLUME {
        Target::Next(volume + 1)
    } else {
        Target::Last(volume)
    }
}
