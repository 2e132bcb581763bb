//! How many records of a class there are, live, held, destroyed and due.

ghost use Rattle.std.specs.Prelude.{◌≡◌, ◌++◌, ◌∷◌, [], ◌+◌, ◌-◌, ◌^◌, ℕ, List, IfSome, IfNone};
ghost use Rattle.cli_page.specs.Counting.{is_due as is_due_by_day, is_dated as is_dated_of, one_if, counted, no_records, IsCountOf};

use crate::dates::DueDay;

/// What a report counts of a record.
#[derive(Clone, Copy)]
pub struct Seen {
    pub is_destroyed: bool,
    /// Whether a hold keeps it.
    pub is_held: bool,
    /// When it falls due, if it does.
    pub due: Option<DueDay>,
}

impl Seen {
    /// Whether the record is live and has a due date.
    pub fn is_dated(&self) -> bool
        ensures { result ≡ is_dated_of self.now }
    {
        !self.is_destroyed && self.due.is_some()
    }

    /// Whether the record is live, and due by a day, counted from 1970-01-01.
    pub fn is_due(&self, day: u32) -> bool
        ensures { result ≡ is_due_by_day day self.now }
    {
        match self.due {
            Some(due) => !self.is_destroyed && due.day <= day,
            None => false,
        }
    }
}

/// How many records there are.
#[derive(Clone, Copy)]
pub struct Counts {
    pub records: u64,
    /// Those that are not destroyed.
    pub live: u64,
    /// Live ones that a hold keeps.
    pub held: u64,
    pub destroyed: u64,
    /// Live ones that have a due date.
    pub dated: u64,
    /// Live ones that are due by the day, held or not.
    pub due: u64,
}

/// One more, where that is so; none above 2^64 - 1.
fn more(count: u64, is_so: bool) -> Option<u64>
    ensures some { IfSome result (λ n. n ≡ count + one_if is_so) }
    ensures none { IfNone result (count ≡ 2 ^ 64 - 1) }
{
    if is_so {
        count.checked_add(1)
    } else {
        Some(count)
    }
}

impl Counts {
    /// No records.
    pub fn new() -> Counts
        ensures value { result ≡ no_records }
        ensures none { (day : ℕ) → IsCountOf day [] result }
    {
        Counts {
            records: 0,
            live: 0,
            held: 0,
            destroyed: 0,
            dated: 0,
            due: 0,
        }
    }

    /// The counts with one record more, of which those due by a day count as due. None where one would be greater than
    /// 2^64 - 1.
    pub fn with(self, day: u32, seen: &Seen) -> Option<Counts>
        ensures value { IfSome result (λ c. c ≡ counted day self seen.now) }
        ensures law { IfSome result (λ c. (before : List Seen) →
            IsCountOf day before self → IsCountOf day (before ++ seen.now ∷ []) c) }
    {
        let is_live = !seen.is_destroyed;
        Some(Counts {
            records: more(self.records, true)?,
            live: more(self.live, is_live)?,
            held: more(self.held, is_live && seen.is_held)?,
            destroyed: more(self.destroyed, seen.is_destroyed)?,
            dated: more(self.dated, seen.is_dated())?,
            due: more(self.due, seen.is_due(day))?,
        })
    }
}
