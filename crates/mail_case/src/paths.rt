//! Which paths are open classes.

ghost use Rattle.std.specs.Prelude.{◌≡◌, ℕ, List, Bool};

use class_paths::Paths;
use std::collections::BTreeSet;

/// Decides which paths are open classes. It answers by one ghost function, which does not change while it is only read.
pub trait OpenPaths {
    /// Whether a path is that of an open class, for contracts.
    ghost opens: { Self → List ℕ → Bool };

    /// Whether a path is that of an open class.
    fn is_open(&self, path: &[u8]) -> bool
        ensures { result ≡ opens self.now path.now };
}

/// The open paths are those in the set.
impl OpenPaths for Paths {
    ghost use Rattle.mail_case.specs.Message.{is_among};

    ghost opens = { is_among };

    fn is_open(&self, path: &[u8]) -> bool {
        self.as_slice().iter().any(|open| path == open.as_slice())
    }
}

/// The open paths are those in the set.
impl OpenPaths for BTreeSet<Vec<u8>> {
    ghost use Rattle.mail_case.specs.Views.{is_in};

    ghost opens = { is_in };

    fn is_open(&self, path: &[u8]) -> bool {
        self.contains(path)
    }
}
