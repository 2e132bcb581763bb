//! Paths of classes: segments of small letters, digits and `-`, joined by `/`.
ghost use Rattle.std.specs.Prelude.{◌≡◌};
ghost use Rattle.class_paths.specs.Path.{is_mark, is_path};

/// The octet between two segments.
pub const SLASH: u8 = b'/';

/// The class that is always there and open.
pub const UNFILED: &[u8] = b"unfiled";

/// The most `/` in a path, one fewer than its segments.
const MAX_SLASHES: usize = 7;

/// The most octets in a segment.
const MAX_OCTETS: usize = 40;

/// Whether an octet is a small letter, a digit or `-`.
fn fits_segment(octet: u8) -> bool
    ensures { result ≡ is_mark octet }
{
    octet.is_ascii_lowercase() || octet.is_ascii_digit() || octet == b'-'
}

/// Whether a path is 1 to 8 segments, each of 1 to 40 small letters, digits and `-`.
pub fn fits_path(path: &[u8]) -> bool
    ensures { result ≡ is_path path.now }
{
    let mut closed: usize = 0;
    let mut run: usize = 0;
    for octet in path {
        if *octet == SLASH {
            if run == 0 || closed == MAX_SLASHES {
                return false;
            }
            closed += 1;
            run = 0;
        } else {
            if !fits_segment(*octet) || run == MAX_OCTETS {
                return false;
            }
            run += 1;
        }
    }
    run > 0
}
