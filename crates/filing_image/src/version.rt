//! The versions of the image format.

ghost use Rattle.std.specs.Prelude.{◌≡◌};
ghost use Rattle.filing_image.specs.Spelling.{last_operation};

/// A version of the image format. Version 2 alone has procedures, calls and returns.
#[derive(Clone, Copy, PartialEq, Eq)]
pub enum Version {
    /// The code is one piece.
    One,
    /// The code is a row of procedures, and execution starts at the first.
    Two,
}

impl Version {
    /// The number of the version's last operation.
    pub(crate) fn last_operation(self) -> u8
        ensures { result ≡ last_operation self }
    {
        match self {
            Version::One => 21,
            Version::Two => 23,
        }
    }
}
