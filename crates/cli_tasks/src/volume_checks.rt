//! `check` over an archive of volumes: each of them, and that it goes on from the one before.

use crate::archives::{Archives, Work};
use crate::histories::say_none;
use crate::volume_row::{Volumes, failure_in, named_in, volume_line};
use class_plan::Plan;
use cli_console::{Failure, Joined, Status, told_now, write_text};
use cli_history::{
    Beginning, beginning_in, event_with_mark, is_same_plan, judge_history, open_history,
};
use cli_readings::{Contents, Totals, write_contents, write_totals};
use record_noted::{NotedStore, Opened};
use record_store::Store;
use sqlite::{Alter, Connection};
use std::alloc::{AllocError, Global};
use tool_texts::{Shown, put};

/// How a volume begins.
struct Front {
    /// Whether it has another plan than the archive, where that is known.
    is_behind: bool,
    beginning: Beginning,
}

impl Drop for Front {
    fn drop(self) {
        let Front {
            is_behind: _,
            beginning: _,
        } = self;
    }
}

impl Front {
    /// That of a store, by the plan of the archive, where that is known.
    fn of<S: Alter>(
        rt: &HostRuntime,
        archive: &mut Store<S>,
        plan: Option<&Plan>,
    ) -> Result<Front, Failure> {
        let is_behind = match plan {
            Some(plan) => !is_same_plan(rt.alloc(), archive.plan(), plan)?,
            None => false,
        };
        Ok(Front {
            is_behind,
            beginning: beginning_in(rt, archive)?,
        })
    }

    /// How the mark begins after which the history began, where that names one.
    fn mark(&self) -> Option<&[u8]> {
        match &self.beginning {
            Beginning::After(mark) => Some(mark.as_slice()),
            Beginning::Nowhere | Beginning::Alone => None,
        }
    }
}

/// Reads how a volume begins.
#[derive(Drop)]
struct ReadFront<'p> {
    plan: Option<&'p Plan>,
}

impl Work for ReadFront<'_> {
    type Answer = Front;

    fn work<S: Alter>(
        self,
        rt: &HostRuntime,
        archive: Store<S>,
    ) -> (Connection<S>, Result<Front, Failure>) {
        let mut archive = archive;
        let front = Front::of(rt, &mut archive, self.plan);
        (archive.into_connection(), front)
    }
}

/// The marks that are looked for in a volume.
#[derive(Clone, Copy)]
pub struct Marks<'m> {
    /// One that was noted elsewhere.
    pub head: Option<&'m [u8]>,
    /// How that begins after which the next volume began, where that names one.
    pub next: Option<&'m [u8]>,
}

/// What was found of the marks that are looked for.
#[derive(Clone, Copy)]
pub struct Met {
    /// The event that has the one which was noted elsewhere, if one has it.
    pub head: Option<u32>,
    /// Whether the one after which the next volume began is missing.
    pub lacks_next: bool,
}

/// The event of a history that has a mark, where one is looked for.
fn event_of<S: Alter>(
    rt: &HostRuntime,
    noted: &mut NotedStore<S>,
    mark: Option<&[u8]>,
) -> Result<Option<u32>, Failure> {
    match mark {
        Some(mark) => event_with_mark(rt, noted, mark),
        None => Ok(None),
    }
}

impl Marks<'_> {
    /// What is found of them in a history.
    pub fn look_in<S: Alter>(
        self,
        rt: &HostRuntime,
        noted: &mut NotedStore<S>,
    ) -> Result<Met, Failure> {
        let head = event_of(rt, noted, self.head)?;
        let next = event_of(rt, noted, self.next)?;
        Ok(Met {
            head,
            lacks_next: self.next.is_some() && next.is_none(),
        })
    }

    /// What is found of them where there is no history.
    pub fn nowhere(self) -> Met {
        Met {
            head: None,
            lacks_next: self.next.is_some(),
        }
    }
}

/// What was found of a volume.
#[derive(Drop)]
struct Checked {
    totals: Totals,
    /// What was found of the marks, where its history was read.
    met: Result<Met, Failure>,
    /// Whether its history is whole, and explains it.
    history: Result<(), Failure>,
}

/// Judges a volume and its history, where there is one, and looks for marks there.
#[derive(Drop)]
struct CheckVolume<'m> {
    volume: u32,
    marks: Marks<'m>,
}

impl Work for CheckVolume<'_> {
    type Answer = Checked;

    fn work<S: Alter>(
        self,
        rt: &HostRuntime,
        archive: Store<S>,
    ) -> (Connection<S>, Result<Checked, Failure>) {
        let mut archive = archive;
        let Contents { totals, seals } = match write_contents(rt, &mut archive) {
            Ok(contents) => contents,
            Err(failure) => return (archive.into_connection(), Err(failure)),
        };
        let volume = self.volume;
        let (connection, met, history) = match open_history(rt, archive) {
            Ok(Opened::Noted(noted)) => {
                let mut noted = noted;
                let met = self.marks.look_in(rt, &mut noted);
                let judged = judge_history(rt, &mut noted, Some(volume), None, seals);
                let met = named_in(rt, met, volume);
                let judged = named_in(rt, judged, volume);
                (noted.into_store().into_connection(), met, judged)
            }
            Ok(Opened::Plain(archive)) => {
                let met = self.marks.nowhere();
                (archive.into_connection(), Ok(met), say_none(rt))
            }
            Err((archive, failure)) => {
                let failure = failure_in(rt, failure, volume);
                (archive.into_connection(), Err(failure), Ok(()))
            }
        };
        let checked = Checked {
            totals,
            met,
            history,
        };
        (connection, Ok(checked))
    }
}

/// That a volume has not the plan of the archive.
pub fn behind_words(alloc: Global, volume: u32) -> Result<Shown, AllocError> {
    let mut words = Shown::new(alloc);
    words.words("volume ")?;
    words.value(&volume)?;
    words.words(
        ": its plan is not that of the archive, which is the plan of the last volume; plan --set gives it that one",
    )?;
    Ok(words)
}

/// That the history of a volume does not go on from the one before.
pub fn alone_words(alloc: Global, volume: u32) -> Result<Shown, AllocError> {
    let mut words = Shown::new(alloc);
    words.words("volume ")?;
    words.value(&volume)?;
    words.words(
        ": its history does not name the mark of the volume before, so it may be that of another archive",
    )?;
    Ok(words)
}

/// That no event of a volume has the mark after which the next one began.
pub fn broken_words(alloc: Global, volume: u32) -> Result<Shown, AllocError> {
    let next = volume.saturating_add(1);
    let mut words = Shown::new(alloc);
    put!(words; "volume " value(&next) " began after a mark that no event of volume " value(&volume)
        " has: one of them is another archive's, or an older copy, or its history was changed")?;
    Ok(words)
}

/// That a mark is that of an event of a volume.
fn met_line(alloc: Global, mark: &str, event: u32, volume: u32) -> Result<Shown, AllocError> {
    let mut line = Shown::new(alloc);
    put!(line; "mark " value(&mark) " is that of event " value(&event) " of volume " value(&volume))?;
    line.end_line()?;
    Ok(line)
}

/// That no event of any volume has a mark.
fn unmet_words(alloc: Global, mark: &str) -> Result<Shown, AllocError> {
    let mut words = Shown::new(alloc);
    words.value(&mark)?;
    words.words(": no event of the histories of the volumes has this mark")?;
    Ok(words)
}

/// What is found of the volumes so far.
struct Checking<'h> {
    /// The plan of the archive; none where the last volume is damaged.
    plan: Option<Plan>,
    /// Why something was not read by which volumes are compared: a damage, which is told once its volume is checked.
    unread: Option<Failure>,
    /// A mark that was noted elsewhere.
    head: Option<&'h str>,
    /// Whether it was met.
    is_met: bool,
    totals: Totals,
    joined: Joined,
}

impl Drop for Checking<'_> {
    fn drop(self) {
        let Checking {
            plan: _,
            unread: _,
            head: _,
            is_met: _,
            totals: _,
            joined: _,
        } = self;
    }
}

impl Checking<'_> {
    /// Adds what was found of a volume. What is bad there is told, and the others are checked all the same.
    fn add(&mut self, rt: &HostRuntime, found: Result<(), Failure>) -> Result<(), Failure> {
        self.joined.add(told_now(rt, found))
    }

    /// Tells something bad.
    fn refuse(
        &mut self,
        rt: &HostRuntime,
        words: Result<Shown, AllocError>,
    ) -> Result<(), Failure> {
        self.add(rt, Err(Failure::shown(Status::BadData, words)))
    }

    /// What was read, by which volumes are compared; none where a volume is damaged, which is noted.
    fn noted<T: Drop>(&mut self, read: Result<T, Failure>) -> Result<Option<T>, Failure> {
        match read {
            Ok(found) => Ok(Some(found)),
            Err(Failure::Told(Status::BadData, text)) => {
                self.unread = Some(Failure::Told(Status::BadData, text));
                Ok(None)
            }
            Err(failure) => Err(failure),
        }
    }

    /// Reads how a volume begins. Nothing is said of one that could not be read.
    fn front<A: Archives>(
        &mut self,
        rt: &HostRuntime,
        archives: &A,
        volumes: Volumes<'_>,
        volume: u32,
    ) -> Result<Front, Failure> {
        let work = ReadFront {
            plan: self.plan.as_ref(),
        };
        let read = volumes.lend(rt, archives, volume, work);
        match self.noted(read)? {
            Some(front) => Ok(front),
            None => Ok(Front {
                is_behind: false,
                beginning: Beginning::Nowhere,
            }),
        }
    }

    /// Adds what was found of a volume. Says which event of it has the mark that is looked for, where one has it, and tells where that is
    /// missing after which the next volume began.
    fn take(&mut self, rt: &HostRuntime, volume: u32, checked: Checked) -> Result<(), Failure> {
        let Checked {
            totals,
            met,
            history,
        } = checked;
        self.totals.add(totals);
        self.add(rt, history)?;
        let met = match met {
            Ok(met) => met,
            Err(failure) => return self.add(rt, Err(failure)),
        };
        if let (Some(mark), Some(event)) = (self.head, met.head) {
            self.is_met = true;
            write_text(rt, &met_line(rt.alloc(), mark, event, volume)?)?;
        }
        if met.lacks_next {
            return self.refuse(rt, broken_words(rt.alloc(), volume));
        }
        Ok(())
    }

    /// Checks a volume that begins so, before one whose history names this mark.
    fn check_volume<A: Archives>(
        &mut self,
        rt: &HostRuntime,
        archives: &A,
        volumes: Volumes<'_>,
        volume: u32,
        front: &Front,
        next: Option<&[u8]>,
    ) -> Result<(), Failure> {
        write_text(rt, &volume_line(rt.alloc(), volume)?)?;
        if front.is_behind {
            self.refuse(rt, behind_words(rt.alloc(), volume))?;
        }
        if volume > 1 && matches!(&front.beginning, Beginning::Alone) {
            self.refuse(rt, alone_words(rt.alloc(), volume))?;
        }
        let head = match self.head {
            Some(mark) => Some(mark.as_bytes()),
            None => None,
        };
        let marks = Marks { head, next };
        match volumes.lend(rt, archives, volume, CheckVolume { volume, marks }) {
            Ok(checked) => self.take(rt, volume, checked),
            Err(failure) => self.add(rt, Err(failure)),
        }
    }

    /// Writes what all volumes hold. `BadData` where something was found, and where no history has the mark, which is told. What was
    /// not read is told where nothing else was found.
    fn end(&mut self, rt: &HostRuntime, volumes: Volumes<'_>) -> Result<(), Failure> {
        write_totals(rt, volumes.last, &self.totals)?;
        match self.head {
            Some(mark) if !self.is_met => self.refuse(rt, unmet_words(rt.alloc(), mark))?,
            _ => {}
        }
        self.joined.end()?;
        match self.unread.take() {
            Some(failure) => Err(failure),
            None => Ok(()),
        }
    }
}

/// Checks all volumes, one after another, and that each has the plan of the archive and goes on from the one before. Where one is damaged,
/// the others are checked all the same; where that is the last one, no plan is compared. A mark that was noted elsewhere may be looked
/// for in all of them.
pub fn check<A: Archives>(
    rt: &HostRuntime,
    archives: &A,
    volumes: Volumes<'_>,
    head: Option<&str>,
) -> Result<(), Failure> {
    let mut checking = Checking {
        plan: None,
        unread: None,
        head,
        is_met: false,
        totals: Totals::none(),
        joined: Joined::new(),
    };
    checking.plan = checking.noted(volumes.plan(rt, archives))?;
    let mut front = checking.front(rt, archives, volumes, 1)?;
    for volume in 1..volumes.last {
        let next = checking.front(rt, archives, volumes, volume + 1)?;
        checking.check_volume(rt, archives, volumes, volume, &front, next.mark())?;
        front = next;
    }
    checking.check_volume(rt, archives, volumes, volumes.last, &front, None)?;
    checking.end(rt, volumes)
}
