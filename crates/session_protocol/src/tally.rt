//! How the troubles of a stream are counted.

ghost use Rattle.std.specs.Prelude.{◌≡◌, false, not};
ghost use Rattle.session_protocol.specs.Streams.{CountsCall, is_failed, no_troubles};

use crate::stream::Trouble;

/// How many calls of a stream failed, and how many were interrupted. Each count stays at its greatest value, 2^64 - 1.
///
/// Contracts alone read the counts: by them `serve` says that a fault has its cause. They are fields all the same,
/// since a ghost field holds a fact about the other fields, and no number that a call could change.
#[derive(Drop)]
pub struct Tally {
    /// How many calls failed, and were not only interrupted.
    pub failures: u64,
    /// How many of the last calls were interrupted, one directly after the other.
    pub interruptions: u64,
    /// The most interruptions there ever were in a row.
    pub most_interruptions: u64,
    /// How many calls were interrupted in all.
    pub all_interruptions: u64,
}

impl Tally {
    /// The counts before the first call, all 0.
    pub fn new() -> Tally
        ensures { result ≡ no_troubles }
    {
        Tally {
            failures: 0,
            interruptions: 0,
            most_interruptions: 0,
            all_interruptions: 0,
        }
    }

    /// Counts a trouble, and answers it.
    pub fn count(&mut self, trouble: Trouble) -> Trouble
        ensures same { result ≡ trouble }
        ensures counted { CountsCall (is_failed trouble) (not (is_failed trouble))
            self.old self.new }
    {
        match trouble {
            Trouble::Interrupted => {
                self.interruptions = self.interruptions.saturating_add(1);
                self.most_interruptions = self.most_interruptions.max(self.interruptions);
                self.all_interruptions = self.all_interruptions.saturating_add(1);
            }
            Trouble::Failed => {
                self.failures = self.failures.saturating_add(1);
                self.interruptions = 0;
            }
        }
        trouble
    }

    /// Counts a call that met no trouble, and answers how many octets it moved.
    pub fn count_moved(&mut self, count: usize) -> usize
        ensures same { result ≡ count }
        ensures counted { CountsCall false false self.old self.new }
    {
        self.interruptions = 0;
        count
    }
}
