//! Lines that look like separators, and have no date. They belong to messages, though some may have been meant to begin one.

ghost use Rattle.std.specs.Prelude.{◌≡◌, ◌&&◌, ◌+◌, ◌<◌, ◌^◌, ◌++◌, ◌∷◌, [], List, ℕ, length};
ghost use Rattle.mail_boxes.specs.Undated.{HasRead, is_undated, noted};

use crate::marks::{begins_with_from, is_empty_line, is_separator};

/// Whether a line begins with "From ", and is no separator since it has no date.
fn is_undated(line: &[u8]) -> bool
    ensures { result ≡ is_undated line.now }
{
    begins_with_from(line) && !is_separator(line)
}

/// The lines of an mbox that begin with "From " after an empty line and have no date, as its lines come.
#[derive(Clone, Copy)]
pub struct UndatedLines {
    /// The number of the first one; lines are counted from 1.
    pub first: Option<u64>,
    /// How many there are.
    pub count: u64,
    /// The number of the line that comes next.
    next: u64,
    /// Whether the last line is empty, or there is none.
    after_empty: bool,
}

impl UndatedLines {
    /// Those of no lines.
    pub fn none() -> UndatedLines
        ensures { HasRead [] result }
    {
        UndatedLines {
            first: None,
            count: 0,
            next: 1,
            after_empty: true,
        }
    }

    /// Whether the next line is undated, and stands after an empty one.
    fn has_next(&self, line: &[u8]) -> bool
        ensures { result ≡ (self.now.after_empty && is_undated line.now) }
    {
        self.after_empty && is_undated(line)
    }

    /// Notes that the next line is one of them.
    fn note(&mut self)
        ensures { self.new ≡ noted self.old }
    {
        self.first = self.first.or(Some(self.next));
        self.count = self.count.saturating_add(1);
    }

    /// Takes the next line, with its end.
    pub fn take(&mut self, line: &[u8])
        ensures { (lines : List (List ℕ)) → length lines + 2 < 2 ^ 64 → HasRead lines self.old
            → HasRead (lines ++ line.now ∷ []) self.new }
    {
        if self.has_next(line) {
            self.note();
        }
        self.next = self.next.saturating_add(1);
        self.after_empty = is_empty_line(line);
    }
}
