//! Counts, which end at the greatest number of 64 bits.

ghost use Rattle.std.specs.Prelude.{◌≡◌};
ghost use Rattle.cli_console.specs.Counts.{counted as counted_if};

/// One more where it is so, up to the greatest number of 64 bits.
pub fn counted(is_so: bool, count: u64) -> u64
    ensures { result ≡ counted_if is_so count }
{
    if is_so {
        count.saturating_add(1)
    } else {
        count
    }
}
