//! Which records a command is about.

ghost use Rattle.std.specs.Prelude.{◌≡◌, ◌&&◌, int_le, option_map, map, true, Some, None};
ghost use Rattle.std.specs.List.{list_any};
ghost use Rattle.std.specs.Str.{bytes_eq};
ghost use Rattle.jiff.specs.Words.{epoch_day};
ghost use Rattle.record_archive.specs.Archive.{Archive, Record};
ghost use Rattle.record_choice.specs.Choices.{every_record, every_live_record, where_asked, is_in, is_within, meets};
ghost use Rattle.record_choice.specs.Entries.{entry_of, entry_view, name_list};
ghost use Rattle.record_choice.specs.Views.{span_view, holder_view, choice_view, shows_hold, shows_due, shows_where, shows_as, shows_when, shows, goes_on};

use crate::entry::RecordEntry;
use class_plan::{Date, day_number};

/// The numbers from one to another, both included.
#[derive(Clone, Copy)]
pub struct Span {
    pub first: u32,
    pub last: u32,
}

/// Who keeps a record.
#[derive(Drop)]
pub enum Holder {
    /// A hold of any name.
    Anyone,
    /// A hold of this name.
    Named(Vec<u8>),
}

/// Which records a command is about: those for which all that is asked holds.
pub struct Choice {
    /// With one of these numbers.
    pub numbers: Option<Vec<Span>>,
    /// In this class or below it.
    pub class: Option<Vec<u8>>,
    /// Not destroyed.
    pub is_live: bool,
    /// Destroyed.
    pub is_destroyed: bool,
    /// Kept by a hold.
    pub held: Option<Holder>,
    /// Captured on this day or later.
    pub since: Option<Date>,
    /// Captured on this day or before.
    pub until: Option<Date>,
    /// Live, and due on this day or before.
    pub due: Option<Date>,
}

impl Drop for Choice {
    fn drop(self) {
        let Choice {
            numbers: _,
            class: _,
            is_live: _,
            is_destroyed: _,
            held: _,
            since: _,
            until: _,
            due: _,
        } = self;
    }
}

/// Whether what stands after a class in a path is nothing, or begins with a "/".
fn goes_on(rest: &[u8]) -> bool
    ensures { result ≡ goes_on rest.now }
{
    match rest {
        [] => true,
        [next, ..] => *next == b'/',
    }
}

/// Whether a path is that of a class, or of one below it.
pub fn is_within(class: &[u8], path: &[u8]) -> bool
    ensures { result ≡ is_within class.now path.now }
{
    match path.strip_prefix(class) {
        Some(rest) => goes_on(rest),
        None => false,
    }
}

fn is_in_some(spans: &[Span], number: u32) -> bool
    ensures { result ≡ list_any (λ s. is_in number (span_view s)) spans.now }
{
    spans
        .iter()
        .any(|span| span.first <= number && number <= span.last)
}

fn is_numbered(numbers: &Option<Vec<Span>>, number: u32) -> bool
    ensures { result ≡ where_asked (list_any (is_in number))
        (option_map (λ v. map span_view v.items) numbers.now) }
{
    match numbers {
        None => true,
        Some(spans) => is_in_some(spans.as_slice(), number),
    }
}

fn is_in_class(class: &Option<Vec<u8>>, path: &[u8]) -> bool
    ensures { result ≡ where_asked (λ class. is_within class path.now)
        (option_map (λ v. v.items) class.now) }
{
    match class {
        None => true,
        Some(class) => is_within(class.as_slice(), path),
    }
}

fn has_name(names: &[Vec<u8>], name: &[u8]) -> bool
    ensures { result ≡ list_any (λ n. bytes_eq n.items name.now) names.now }
{
    names.iter().any(|known| known.as_slice() == name)
}

pub(crate) fn has_any(names: &[Vec<u8>]) -> bool
    ensures { result ≡ list_any (λ name. true) (name_list names.now) }
{
    names.len() > 0
}

fn is_kept(holder: &Holder, names: &[Vec<u8>]) -> bool
    ensures { result ≡ shows_hold (name_list names.now) (holder_view holder.now) }
{
    match holder {
        Holder::Anyone => has_any(names),
        Holder::Named(name) => has_name(names, name.as_slice()),
    }
}

fn is_held(held: &Option<Holder>, names: &[Vec<u8>]) -> bool
    ensures { result ≡
        where_asked (shows_hold (name_list names.now)) (option_map holder_view held.now) }
{
    match held {
        None => true,
        Some(holder) => is_kept(holder, names),
    }
}

/// Whether a day is that of a bound, if there is one, or later.
fn is_since(bound: Option<Date>, day: Date) -> bool
    ensures { result ≡
        where_asked (λ first. int_le first (epoch_day day)) (option_map epoch_day bound) }
{
    match bound {
        None => true,
        Some(first) => day_number(first) <= day_number(day),
    }
}

/// Whether a day is that of a bound, if there is one, or before.
fn is_until(bound: Option<Date>, day: Date) -> bool
    ensures { result ≡
        where_asked (λ last. int_le (epoch_day day) last) (option_map epoch_day bound) }
{
    match bound {
        None => true,
        Some(last) => day_number(day) <= day_number(last),
    }
}

/// Whether there is a due day, and it is that of a bound, if there is one, or before.
pub(crate) fn is_due(bound: Option<Date>, due: Option<Date>) -> bool
    ensures { result ≡
        where_asked (shows_due (option_map epoch_day due)) (option_map epoch_day bound) }
{
    match (bound, due) {
        (None, _) => true,
        (Some(_), None) => false,
        (Some(last), Some(due)) => day_number(due) <= day_number(last),
    }
}

impl Choice {
    /// Every record.
    pub fn every() -> Choice
        ensures { choice_view result ≡ every_record }
    {
        Choice {
            numbers: None,
            class: None,
            is_live: false,
            is_destroyed: false,
            held: None,
            since: None,
            until: None,
            due: None,
        }
    }

    /// Every live record.
    pub fn live() -> Choice
        ensures { choice_view result ≡ every_live_record }
    {
        Choice {
            numbers: None,
            class: None,
            is_live: true,
            is_destroyed: false,
            held: None,
            since: None,
            until: None,
            due: None,
        }
    }

    fn is_where(&self, entry: &RecordEntry) -> bool
        ensures { result ≡ shows_where (choice_view self.now) (entry_view entry.now) }
    {
        is_numbered(&self.numbers, entry.number) && is_in_class(&self.class, entry.path.as_slice())
    }

    fn is_as(&self, entry: &RecordEntry) -> bool
        ensures { result ≡ shows_as (choice_view self.now) (entry_view entry.now) }
    {
        let is_held = is_held(&self.held, entry.holds.as_slice());
        (!self.is_live || !entry.destroyed) && (!self.is_destroyed || entry.destroyed) && is_held
    }

    fn is_when(&self, entry: &RecordEntry) -> bool
        ensures { result ≡ shows_when (choice_view self.now) (entry_view entry.now) }
    {
        is_since(self.since, entry.day)
            && is_until(self.until, entry.day)
            && is_due(self.due, entry.due)
    }

    fn is_shown(&self, entry: &RecordEntry) -> bool
        ensures { result ≡ shows (choice_view self.now) (entry_view entry.now) }
    {
        self.is_where(entry) && self.is_as(entry) && self.is_when(entry)
    }

    /// Whether a record is one of these, as its entry shows.
    pub fn meets(&self, entry: &RecordEntry) -> bool
        ensures shown { result ≡ shows (choice_view self.now) (entry_view entry.now) }
        ensures meets { (a : Archive) (r : Record) → entry_view entry.now ≡ entry_of a r
            → result ≡ meets (choice_view self.now) a r }
    {
        self.is_shown(entry)
    }
}
