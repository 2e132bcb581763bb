//! The space that is left in a volume, into which mail is captured until the next one begins.

ghost use Rattle.std.specs.Prelude.{◌≡◌, false, nat_lt};
ghost use Rattle.cli_changes.specs.Spaces.{
  is_full as is_full_space,
  no_end,
  space_as_it_is,
  space_of,
  with_message,
};

/// How many octets are counted for what stands beside a message in the store. It is more than most need: where a round ends too early,
/// the next one goes on in the same volume.
const BESIDE: u64 = 1_024;

/// The space that is left in a store.
#[derive(Clone, Copy)]
pub struct Space {
    /// How many octets a volume may get before it is over its size; none where the store is no volume.
    left: Option<u64>,
    /// How many it has got: the octets of the messages that were captured, with what stands beside them.
    captured: u64,
}

impl Space {
    /// That of a store which is no volume.
    pub fn unbounded() -> Space
        ensures { result ≡ no_end }
    {
        Space {
            left: None,
            captured: 0,
        }
    }

    /// That of a volume of so many octets, where volumes have a size of so many. There is space for one message at least.
    pub fn of(octets: u64, size: u64) -> Space
        ensures space { result ≡ space_of octets size }
        ensures begins { is_full_space result ≡ false }
    {
        Space {
            left: Some(size.saturating_sub(octets)),
            captured: 0,
        }
    }

    /// That of a volume as it is, before which none is begun: none is left where it is over its size.
    pub fn as_it_is(octets: u64, size: u64) -> Space
        ensures space { result ≡ space_as_it_is octets size }
        ensures full { is_full_space result ≡ nat_lt size octets }
    {
        Space {
            left: Some(size),
            captured: octets,
        }
    }

    /// Whether the next message belongs to the next volume.
    pub fn is_full(&self) -> bool
        ensures { result ≡ is_full_space self.now }
    {
        match self.left {
            Some(left) => left < self.captured,
            None => false,
        }
    }

    /// Counts a message of so many octets that was captured.
    pub fn count(&mut self, octets: usize)
        ensures { self.new ≡ with_message octets self.old }
    {
        self.captured = self
            .captured
            .saturating_add(octets as u64)
            .saturating_add(BESIDE);
    }
}

/// Where messages are captured.
#[derive(Clone, Copy)]
pub struct Place {
    /// The number of the volume, in an archive of volumes.
    pub volume: Option<u32>,
    /// The space that is left there.
    pub space: Space,
}
