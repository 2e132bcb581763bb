//! Open paths that captures share.

ghost use Rattle.std.specs.Prelude.{◌≡◌, IfOk};
ghost use Rattle.mail_case.specs.Views.{paths_in};

use mail_case::OpenPaths;
use std::alloc::{AllocError, Global};
use std::collections::BTreeSet;
use std::marker::Model;
use std::rc::Rc;

/// Open paths that captures share. Contracts see them as the list of the paths, in byte order.
#[derive(Drop)]
pub struct PinnedPaths {
    paths: Rc<BTreeSet<Vec<u8>>>,
}

impl Model for PinnedPaths {
    ghost use Rattle.std.specs.Prelude.{ℕ, List};
    ghost use Rattle.mail_case.specs.Views.{paths_in};

    ghost Value = { List (List ℕ) };

    ghost view = { λ p. paths_in p.paths.value };
}

impl PinnedPaths {
    /// The paths of a set, to be shared. The only error is out of memory (99).
    pub fn new(alloc: Global, paths: BTreeSet<Vec<u8>>) -> Result<PinnedPaths, AllocError>
        ensures { IfOk result (λ p. p ≡ paths_in paths) }
    {
        Ok(PinnedPaths {
            paths: Rc::new(alloc, paths)?,
        })
    }
}

/// The same paths, shared. It allocates nothing; the only error is that they are shared more often than can be counted.
impl Clone for PinnedPaths {
    ghost use Rattle.std.specs.Prelude.{◌≡◌};

    ghost is_clone = { λ p copy. copy ≡ p };

    fn clone(&self) -> Result<PinnedPaths, AllocError> {
        Ok(PinnedPaths {
            paths: self.paths.clone()?,
        })
    }
}

/// The open paths are those of the list.
impl OpenPaths for PinnedPaths {
    ghost use Rattle.mail_case.specs.Message.{is_among};

    ghost opens = { is_among };

    fn is_open(&self, path: &[u8]) -> bool {
        self.paths.is_open(path)
    }
}
