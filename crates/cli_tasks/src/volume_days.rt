//! The days of the volumes before the one in which mail is captured: the clock is judged by them where that one has no record.

ghost use Rattle.std.specs.Prelude.{◌≡◌, false, true, IfOk};
ghost use Rattle.cli_tasks.specs.Days.{LooksBack, ShowsDay, looks_back, volumes_before};

use crate::archives::{Archives, Work};
use crate::volume_row::Volumes;
use cli_changes::Timing;
use cli_console::Failure;
use record_store::Store;
use sqlite::{Alter, Connection};

/// Looks for the last day of a store, beside what is known.
#[derive(Drop)]
struct LookForDay {
    timing: Timing,
}

impl Work for LookForDay {
    type Answer = Timing;

    ghost does = { λ S g it before done after. IfOk done
        (λ timing. ShowsDay g it.timing before after timing) };

    fn work<S: Alter>(
        self,
        rt: &HostRuntime,
        archive: Store<S>,
    ) -> (Connection<S>, Result<Timing, Failure>) {
        let mut archive = archive;
        let mut timing = self.timing;
        match timing.look(rt, &mut archive) {
            Ok(()) => (archive.into_connection(), Ok(timing)),
            Err(failure) => (archive.into_connection(), Err(failure)),
        }
    }
}

/// Whether a day is looked for in the volumes before a store, of which this is the next number.
fn looks_back(next: u64, timing: Timing) -> bool
    ensures { result ≡ looks_back next timing }
{
    next <= 1 && timing.needs_day()
}

/// The volumes before one in which mail is captured; none before the first, and before a store that is no volume.
#[derive(Drop)]
pub struct Earlier<'a, A> {
    pub archives: &'a A,
    pub volumes: Volumes<'a>,
}

impl<'a, A: Archives> Earlier<'a, A> {
    /// Those of the archive in a folder that are before this volume, if it is one.
    pub fn of(archives: &'a A, folder: &'a str, volume: Option<u32>) -> Earlier<'a, A>
        ensures folder { result.volumes.folder.now ≡ folder.now }
        ensures last { result.volumes.last ≡ volumes_before volume }
        ensures archives { result.archives.now ≡ archives.now }
    {
        Earlier {
            archives,
            volumes: Volumes {
                folder,
                last: volume.unwrap_or(0).saturating_sub(1),
            },
        }
    }

    /// What is known by the last day of the newest of them that has a record, where no day was.
    fn looked_back(&self, rt: &HostRuntime, timing: Timing) -> Result<Timing, Failure>
        ensures { IfOk result (LooksBack A.Kept.Store (A.is_at self.now.archives.now)
            self.now.volumes.folder.now self.now.volumes.last timing) }
    {
        for later in 0..self.volumes.last {
            let volume = self.volumes.last - later;
            let looked = self
                .volumes
                .lend(rt, self.archives, volume, LookForDay { timing })?;
            if !looked.needs_day() {
                return Ok(looked);
            }
        }
        Ok(timing)
    }

    /// When mail is captured in a store: where it has no record, the clock is judged by the last day of the newest of these volumes that
    /// has one. The failure is that of a volume.
    pub fn timing_in<S: Alter>(
        &self,
        rt: &HostRuntime,
        archive: &Store<S>,
        timing: Timing,
    ) -> Result<Timing, Failure>
        ensures back { IfOk result (λ looked. looks_back archive.now.next timing ≡ true
            → LooksBack A.Kept.Store (A.is_at self.now.archives.now) self.now.volumes.folder.now
            self.now.volumes.last timing looked) }
        ensures same { IfOk result (λ looked. looks_back archive.now.next timing ≡ false
            → looked ≡ timing) }
    {
        if looks_back(archive.next_number(), timing) {
            return self.looked_back(rt, timing);
        }
        Ok(timing)
    }
}
