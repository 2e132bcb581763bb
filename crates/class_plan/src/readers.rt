//! Reads of a plan: its root's schedule, its classes, and the schedule of a path.
ghost use Rattle.std.specs.Prelude.{◌≡◌, ◌<◌, length, map, Option, option_map, IfOk, IfSome};
ghost use Rattle.std.specs.List.{HoldsAt};
ghost use Rattle.class_paths.specs.Path.{ancestors};
ghost use Rattle.class_plan.specs.Schedules.{IsInRange};
ghost use Rattle.class_plan.specs.Plans.{has, own_at, first_own, schedule_at, IsPlan, IsScheduleOf};
ghost use Rattle.class_plan.specs.Fields.{rows_in};
ghost use Rattle.class_plan.specs.Parts.{answer_row};
ghost use Rattle.class_plan.specs.Calendar.{number_of_day, due_on};
ghost use Rattle.class_plan.specs.Dates.{IsCaptureDay, IsDueOf, IsLater, IsSameDay};
ghost use Rattle.jiff_core.specs.declared.civil.date.Date.{Date};

use crate::dates::due_date;
use crate::plans::{Class, Plan, class_at};
use crate::schedules::Schedule;
use class_paths::SLASH;
use jiff::civil::Date;
use std::alloc::{AllocError, Global};
use std::collections::BTreeMap;

fn own_schedule_at(classes: &BTreeMap<Vec<u8>, Class>, path: &[u8]) -> Option<Schedule>
    ensures { result ≡ own_at (rows_in classes.now) path.now }
{
    match class_at(classes, path) {
        Some(class) => class.schedule,
        None => None,
    }
}

/// The schedule of the nearest ancestor of a path that has one, or else the root's.
fn inherited_schedule(root: Schedule, classes: &BTreeMap<Vec<u8>, Class>, path: &[u8]) -> Schedule
    ensures { result
        ≡ first_own (record { root = root; rows = rows_in classes.now }) (ancestors path.now) }
{
    for end in (0..path.len()).rev() {
        if path[end] == SLASH {
            if let Some(schedule) = own_schedule_at(classes, &path[..end]) {
                return schedule;
            }
        }
    }
    root
}

impl Plan {
    /// The schedule of a class: its own, or else that of its nearest ancestor that has one, or else
    /// the root's. `None` where the path is no class. An ancestor of a path is a class whose path
    /// ends before a `/` of it: `a` is one of `a/b`, and not of `ab`.
    pub fn schedule_of(&self, path: &[u8]) -> Option<Schedule>
        ensures schedule { result ≡ schedule_at self.now path.now }
        ensures nearest { IfSome result (λ s. IsScheduleOf self.now path.now s) }
        ensures range { IfSome result (λ s. IsInRange s) }
    {
        let Plan { root, classes, .. } = self;
        let class = class_at(classes, path)?;
        Some(match class.schedule {
            Some(schedule) => schedule,
            None => inherited_schedule(*root, classes, path),
        })
    }

    /// The date on which a record that was captured in a class on a day falls due, by the class's
    /// schedule. `None` where that is permanent, and where the path is no class.
    ///
    /// The caller gives a day of 1970 to 2199.
    pub fn due_of(&self, path: &[u8], day: Date) -> Option<Date>
        requires { IsCaptureDay day }
        ensures due { IsDueOf self.now path.now day result }
        ensures number { option_map number_of_day result
            ≡ due_on self.now path.now (number_of_day day) }
        ensures only { (r : Option Date) → IsDueOf self.now path.now day r → IsSameDay r result }
        ensures later { IfSome result (λ e. IsLater day e) }
    {
        match self.schedule_of(path) {
            Some(schedule) => due_date(day, schedule),
            None => None,
        }
    }

    /// The root's schedule, which a class has where neither it nor an ancestor states one.
    pub fn root(&self) -> Schedule
        ensures root { result ≡ self.now.root }
        ensures range { IsInRange result }
    {
        self.root
    }

    /// Whether the path is, octet for octet, a class of the plan, open or not.
    pub fn contains(&self, path: &[u8]) -> bool
        ensures { result ≡ has self.now.rows path.now }
    {
        class_at(&self.classes, path).is_some()
    }

    /// The number of classes, `unfiled` among them: 1 to 4,096.
    pub fn class_count(&self) -> usize
        ensures count { result ≡ length self.now.rows }
        ensures plan { IsPlan self.now }
    {
        self.classes.len()
    }

    /// All classes in byte order of their paths, each as [`Plan::class`] answers it. The map is
    /// walked once.
    ///
    /// The only refusal is no memory (99).
    pub fn classes(&self, alloc: Global) -> Result<Vec<(&[u8], bool, Option<Schedule>)>, AllocError>
        ensures { IfOk result (λ v. map answer_row v.items ≡ self.now.rows) }
    {
        let mut told = Vec::with_capacity(alloc, self.class_count())?;
        for (path, class) in &self.classes {
            told.push((path.as_slice(), class.is_open, class.schedule))?;
        }
        Ok(told)
    }

    /// The class at an index, from 0 on in byte order of the paths: its path, whether it is open,
    /// and its own schedule, if it has one. Each call walks from the first class, so
    /// [`Plan::classes`] is the call that reads all.
    ///
    /// The caller gives an index below [`Plan::class_count`].
    pub fn class(&self, i: usize) -> (&[u8], bool, Option<Schedule>)
        requires { i < length self.now.rows }
        ensures { HoldsAt
            (λ r. r ≡ record { path = result.0.now; is_open = result.1; schedule = result.2 })
            self.now.rows i }
    {
        let (path, class) = self.classes.iter().nth(i).unwrap();
        (path.as_slice(), class.is_open, class.schedule)
    }
}
