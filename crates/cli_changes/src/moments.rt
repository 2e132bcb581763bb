//! When mail is captured: at a moment that is named, or at that of the clock, which is judged by the days of the store.

ghost use Rattle.std.specs.Prelude.{◌≡◌, ◌<◌, ◌^◌, ℕ, negsuc, pos, Some, map, IfOk, IfErr, OnOk};
ghost use Rattle.cli_choice.specs.Reads.{IsReadOf};
ghost use Rattle.record_archive.specs.Archive.{Archive};
ghost use Rattle.record_choice.specs.Entries.{entry_view};
ghost use Rattle.record_choice.specs.Reads.{OnlyReads};
ghost use Rattle.cli_changes.specs.Moments.{
  IsLast,
  IsLookedFor,
  IsMoment,
  IsMomentBy,
  IsMomentNow,
  IsRefused,
  day_of_moment,
  days_of,
  last_day_of,
  later_of as later_of_days,
  more_days,
  needs_day as needs_day_of,
  no_day,
  with_day,
};

use class_plan::{Date, date_of, day_number};
use cli_console::{Failure, Reader, Status, now, read_chosen};
use cli_texts::Headers;
use command_lines::archives::Moment;
use record_choice::{Choice, Repository};
use record_store::{RecordEntry, StoreFault};
use std::alloc::{AllocError, Global};
use tool_texts::Shown;

/// How many seconds a day has.
const DAY: u64 = 86_400;

/// The last moment of a capture, 2199-12-31T23:59:59Z.
const LAST: u64 = 7_258_118_399;

/// Why nothing can be captured now. Days are counted from 1970-01-01.
#[derive(Clone, Copy)]
pub enum MomentFault {
    /// The moment that is named has not come.
    NotCome,
    /// The clock is after 2199.
    PastLast,
    /// The clock stands on this day, more than a day before the last one on which a record was captured.
    Behind { today: u64, last: u32 },
}

/// The day of a moment, in days since 1970-01-01.
pub(crate) fn day_of_moment(moment: u64) -> u64
    ensures { result ≡ day_of_moment moment }
{
    moment / DAY
}

/// The moment of a capture that is asked for, where the clock shows `now` and `last` is the last day on which a record
/// was captured. Moments are in seconds since 1970, and days are counted from 1970-01-01.
///
/// A moment that is named may not be later than the clock (`NotCome`). The clock may not be after 2199 (`PastLast`), nor,
/// where it is not named, more than a day before the last day (`Behind`).
pub fn judge_moment(asked: Moment, now: u64, last: Option<u32>) -> Result<u64, MomentFault>
    ensures moment { IfOk result (IsMoment asked now last) }
    ensures refused { IfErr result (IsRefused asked now last) }
{
    if let Moment::At(moment) = asked {
        return if moment <= now {
            Ok(moment)
        } else {
            Err(MomentFault::NotCome)
        };
    }
    if now > LAST {
        return Err(MomentFault::PastLast);
    }
    let today = day_of_moment(now);
    match (asked, last) {
        (Moment::Unnamed, Some(last)) if today + 1 < u64::from(last) => {
            Err(MomentFault::Behind { today, last })
        }
        _ => Ok(now),
    }
}

/// Adds a day, by its number.
fn put_day(text: &mut Shown, number: u64) -> Result<(), AllocError> {
    match date_of(i64::try_from(number).unwrap_or(i64::MAX)) {
        Some(date) => text.value(&date),
        None => {
            text.words("day ")?;
            text.value(&number)
        }
    }
}

/// Adds what is told of a clock that is before the days of a store.
fn put_behind(text: &mut Shown, today: u64, last: u32) -> Result<(), AllocError> {
    text.words("the clock says ")?;
    put_day(text, today)?;
    text.words(", but the store has a record of ")?;
    put_day(text, u64::from(last))?;
    text.words("; set the clock, or take it by --at now if that record is wrong")
}

/// The day that begins with a moment, where one of the years 1970 to 9999 does.
fn day_begun(moment: u64) -> Option<Date> {
    if moment % DAY != 0 {
        return None;
    }
    date_of(i64::try_from(day_of_moment(moment)).ok()?)
}

/// Adds what is told of a moment that has not come: as a day, where one begins with it, and else in seconds since 1970.
fn put_not_come(text: &mut Shown, moment: u64) -> Result<(), AllocError> {
    text.words("--at ")?;
    let Some(day) = day_begun(moment) else {
        text.value(&moment)?;
        return text.words(": this moment has not come yet");
    };
    text.value(&day)?;
    text.words(": this day has not come yet")
}

/// Adds why nothing can be captured at the moment that is asked for.
fn put_fault(text: &mut Shown, asked: Moment, fault: MomentFault) -> Result<(), AllocError> {
    match (fault, asked) {
        (MomentFault::NotCome, Moment::At(moment)) => put_not_come(text, moment),
        (MomentFault::NotCome | MomentFault::PastLast, _) => text.words("the clock is after 2199"),
        (MomentFault::Behind { today, last }, _) => put_behind(text, today, last),
    }
}

/// The failure of the moment of a capture. `Usage` where one is named that has not come; where the clock is wrong it may be
/// done later, `TryAgain`.
fn moment_failure(alloc: Global, asked: Moment, fault: MomentFault) -> Failure {
    let status = match (fault, asked) {
        (MomentFault::NotCome, Moment::At(_)) => Status::Usage,
        _ => Status::TryAgain,
    };
    let mut text = Shown::new(alloc);
    match put_fault(&mut text, asked, fault) {
        Ok(()) => Failure::Told(status, text),
        Err(AllocError) => Failure::NoMemory,
    }
}

/// The date of the clock, in UTC; none where there is no clock, or it is not in the years 1970 to 9999.
pub fn date_of_clock(rt: &HostRuntime) -> Option<Date> {
    let day = day_of_moment(now(rt).ok()?);
    date_of(i64::try_from(day).ok()?)
}

/// A day from 1970-01-01 on, as 32 bits count it; 0 for another one.
pub(crate) fn small_day(day: i64) -> u32
    ensures day { (n : ℕ) → n < 2 ^ 32 → day ≡ pos n → result ≡ n }
    ensures early { (n : ℕ) → day ≡ negsuc n → result ≡ 0 }
{
    match u32::try_from(day) {
        Ok(day) => day,
        Err(_) => 0,
    }
}

/// The later one of the last day so far, if there is one, and another.
fn later_of(last: Option<u32>, day: u32) -> u32
    ensures { result ≡ later_of_days last day }
{
    match last {
        Some(last) => last.max(day),
        None => day,
    }
}

/// The last day on which one of those records was captured that were taken.
#[derive(Drop)]
struct LastDay {
    /// In days since 1970-01-01; none where no record was taken.
    last: Option<u32>,
}

impl Reader for LastDay {
    ghost takes = { λ old a es new. new.last ≡ last_day_of old.last (map entry_view es) };

    fn take<R: Repository<Fault = StoreFault>>(
        &mut self,
        _archive: &mut R,
        entry: &RecordEntry,
        _headers: Option<&Headers>,
    ) -> Result<(), Failure> {
        let day = small_day(day_number(entry.day));
        let last = later_of(self.last, day);
        self.last = Some(last);
        Ok(())
    }

    fn rest(&mut self) -> Result<(), Failure> {
        Ok(())
    }

    ghost takes_none = { λ days a. no_day days.last };

    ghost takes_more = { λ x y z a es fs one other.
        more_days x.last y.last z.last es fs one other };
}

/// The last one of the days on which the records of a store were captured, and of one that is known, in days since 1970-01-01; none
/// where there is no record and none is known. The failure is that of the store.
fn last_day<R: Repository<Fault = StoreFault>>(
    rt: &HostRuntime,
    archive: &mut R,
    known: Option<u32>,
) -> Result<Option<u32>, Failure>
    ensures reads { OnlyReads R.clean R.stands archive.old archive.new }
    ensures last { IfOk result (λ last. IsReadOf R.clean R.stands archive.old archive.new
        (λ a. IsLast (with_day known (days_of a)) last)) }
{
    let mut days = LastDay { last: known };
    read_chosen(rt, archive, &Choice::every(), &mut days)?;
    Ok(days.last)
}

/// The day of a moment, as 32 bits count it, or the last one of these.
fn capture_day(moment: u64) -> u32
    ensures { day_of_moment moment < 2 ^ 32 → result ≡ day_of_moment moment }
{
    match u32::try_from(day_of_moment(moment)) {
        Ok(day) => day,
        Err(_) => u32::MAX,
    }
}

/// When mail is captured.
#[derive(Clone, Copy)]
pub struct Timing {
    asked: Moment,
    /// The last day on which a record is known to have been captured, in days since 1970-01-01.
    last: Option<u32>,
}

impl Timing {
    /// As it is asked for. `Usage` where a moment is named that has not come; `TryAgain` where there is no clock or it is
    /// not in the years 1970 to 2199.
    pub fn new(rt: &HostRuntime, asked: Moment) -> Result<Timing, Failure>
        ensures { IfOk result (λ timing. timing.asked ≡ asked) }
    {
        let timing = Timing { asked, last: None };
        timing.judged(rt)?;
        Ok(timing)
    }

    /// The moment that is asked for, judged by what the clock shows and by the last day.
    fn judged_at(&self, rt: &HostRuntime, clock: u64) -> Result<u64, Failure>
        ensures { IfOk result (IsMoment self.now.asked clock self.now.last) }
    {
        judge_moment(self.asked, clock, self.last).map_err(|fault| moment_failure(
            rt.alloc(),
            self.asked,
            fault,
        ))
    }

    /// The same, where the clock is read first.
    fn judged(&self, rt: &HostRuntime) -> Result<u64, Failure>
        ensures { IfOk result (λ moment. IsMomentNow self.now.asked self.now.last moment) }
    {
        let clock = now(rt)?;
        self.judged_at(rt, clock)
    }

    /// Whether the clock is to be judged by a day, and none is known.
    pub fn needs_day(&self) -> bool
        ensures { result ≡ needs_day_of self.now }
    {
        match (self.asked, self.last) {
            (Moment::Unnamed, None) => true,
            (Moment::Unnamed, Some(_)) => false,
            (Moment::Now, _) | (Moment::At(_), _) => false,
        }
    }

    /// Looks for the last day of a store, where no moment is named. A day that is known counts too. The failure is that of the store.
    pub fn look<R: Repository<Fault = StoreFault>>(
        &mut self,
        rt: &HostRuntime,
        archive: &mut R,
    ) -> Result<(), Failure>
        ensures asked { self.new.asked ≡ self.old.asked }
        ensures reads { OnlyReads R.clean R.stands archive.old archive.new }
        ensures last { OnOk result (IsReadOf R.clean R.stands archive.old archive.new
            (λ a. IsLookedFor self.old.asked self.old.last a self.new.last)) }
    {
        match self.asked {
            Moment::Unnamed => {
                let last = last_day(rt, archive, self.last)?;
                self.last = last;
                Ok(())
            }
            Moment::Now => Ok(()),
            Moment::At(_) => Ok(()),
        }
    }

    /// The moment of a capture that is made now. `TryAgain` where the clock is wrong, also where it has gone back by more
    /// than a day since the last capture.
    pub fn moment(&mut self, rt: &HostRuntime) -> Result<u64, Failure>
        ensures moment { IfOk result (λ moment. IsMomentNow self.old.asked self.old.last moment) }
        ensures asked { self.new.asked ≡ self.old.asked }
        ensures last { IfOk result (λ moment. day_of_moment moment < 2 ^ 32
            → self.new.last ≡ Some (later_of_days self.old.last (day_of_moment moment))) }
    {
        let moment = self.judged(rt)?;
        let day = capture_day(moment);
        let last = later_of(self.last, day);
        self.last = Some(last);
        Ok(moment)
    }
}

/// The moment of a capture that is made now in an archive, by the clock and by its last day, or one that is known and later.
/// `TryAgain` where the clock is wrong, also where it is before the days of the archive.
pub fn moment_in<R: Repository<Fault = StoreFault>>(
    rt: &HostRuntime,
    archive: &mut R,
    timing: Timing,
) -> Result<u64, Failure>
    ensures reads { OnlyReads R.clean R.stands archive.old archive.new }
    ensures moment { IfOk result
        (IsMomentBy R.clean R.stands timing archive.old archive.new) }
{
    let mut timing = timing;
    timing.look(rt, archive)?;
    timing.moment(rt)
}

/// The same; answers by what the next moments are judged.
pub(crate) fn timing_in<R: Repository<Fault = StoreFault>>(
    rt: &HostRuntime,
    archive: &mut R,
    timing: Timing,
) -> Result<Timing, Failure>
    ensures reads { OnlyReads R.clean R.stands archive.old archive.new }
    ensures judged { IfOk result (λ looked. (moment : ℕ)
        × IsMomentBy R.clean R.stands timing archive.old archive.new moment) }
{
    let mut looked = timing;
    looked.look(rt, archive)?;
    looked.moment(rt)?;
    Ok(looked)
}
