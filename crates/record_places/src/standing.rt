//! What is judged of a file before it is opened, as values.

ghost use Rattle.std.specs.Prelude.{◌≡◌, ◌<◌, ℕ, IsTrue};
ghost use Rattle.std.specs.Int.{bit_at};
ghost use Rattle.record_places.specs.Looks.{is_as_private, is_within, may_be_store};

use std::fs::Metadata;
use std::os::unix::fs::MetadataExt;

/// The permissions of a file's group to read and write it.
const GROUP: u32 = 0o060;

/// The permissions of all to read, write and execute a file.
const ALL: u32 = 0o777;

/// Whether all that these permissions let anyone do, those of another file let them do too.
fn is_within(mode: u32, other: u32) -> bool
    ensures is { result ≡ is_within mode other }
    ensures within { IsTrue result → (permission : ℕ) → permission < 9
        → bit_at mode permission ≡ 1 → bit_at other permission ≡ 1 }
{
    mode & !other & ALL == 0
}

/// What a file is, whose it is, and who may do what with it.
#[derive(Clone, Copy)]
pub struct Standing {
    /// Whether it is a regular file, and no folder, link or device.
    pub is_file: bool,
    /// How many names it has.
    pub links: u64,
    /// How many octets it has.
    pub octets: u64,
    /// The number of its owner.
    pub owner: u32,
    /// The number of its group.
    pub group: u32,
    /// Its permissions, as `chmod` has them. Other bits of its mode may stand above them.
    pub mode: u32,
}

impl Standing {
    /// What the system says of a file.
    pub fn of(found: &Metadata) -> Standing {
        Standing {
            is_file: found.is_file(),
            links: found.nlink(),
            octets: found.len(),
            owner: found.uid(),
            group: found.gid(),
            mode: found.mode(),
        }
    }

    /// Whether a store may be in the file: it is a regular one, with one name.
    pub fn may_be_store(self) -> bool
        ensures { result ≡ may_be_store self }
    {
        self.is_file && self.links == 1
    }

    /// Whether the file, a log, lets nobody read or write who may not do so with its store. A log of the store's group may
    /// be that of another member, where the group may read and write the store.
    pub fn is_as_private(self, store: Standing) -> bool
        ensures is { result ≡ is_as_private self store }
        ensures within { IsTrue result → (permission : ℕ) → permission < 9
            → bit_at self.mode permission ≡ 1 → bit_at store.mode permission ≡ 1 }
    {
        let is_of_group = self.group == store.group;
        let is_shared = is_of_group && store.mode & GROUP == GROUP;
        self.is_file
            && (self.owner == store.owner || is_shared)
            && is_within(self.mode, store.mode)
            && (is_of_group || self.mode & GROUP == 0)
    }
}
