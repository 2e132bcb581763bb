//! The removal of a store that this program has made.

ghost use Rattle.std.specs.Prelude.{◌≡◌, ◌⊎◌, ◌++◌, ◌∷◌, [], ℕ, List, IfOk, string_bytes};
ghost use Rattle.record_places.specs.Calls.{Makes, log_of, remove};
ghost use Rattle.cli_files.specs.Making.{removing};

use record_places::FileSystem;
use std::alloc::{AllocError, Global};

/// The path of the log beside the file at a path.
pub(crate) fn log_beside(alloc: Global, path: &str) -> Result<String, AllocError>
    ensures { IfOk result (λ log. string_bytes log ≡ log_of path.now) }
{
    format!(in alloc; "{path}-wal")
}

/// Removes a log, and then the file that it belongs to, as far as the system lets it.
pub(crate) fn remove_both<F: FileSystem>(files: &mut F, log: &str, path: &str)
    ensures calls { log.now ≡ log_of path.now
        → Makes F.made files.old files.new (λ calls. calls ≡ removing path.now) }
    ensures kept { (name : List ℕ) → F.has_named files.old name → F.has_named files.new name }
{
    let _ = files.remove(log);
    let _ = files.remove(path);
}

/// Removes the file of a store that this program has made and nobody else has opened, and the log beside it, as far as the
/// system lets it. Where there is no memory for the path of the log, the log stays.
pub fn remove_files<F: FileSystem>(files: &mut F, alloc: Global, path: &str)
    ensures { Makes F.made files.old files.new
        (λ calls. (calls ≡ removing path.now) ⊎ (calls ≡ remove path.now ∷ [])) }
{
    match log_beside(alloc, path) {
        Ok(log) => remove_both(files, log.as_str(), path),
        Err(_) => {
            let _ = files.remove(path);
        }
    }
}
