//! The judge of a history.

ghost use Rattle.std.specs.Prelude.{◌≡◌, ℕ, List, [], length, IfOk, IfErr, OnOk};
ghost use Rattle.record_history.specs.Chain.{mark_after};
ghost use Rattle.record_history.specs.Lines.{line_of};
ghost use Rattle.record_history.specs.Views.{event_view};
ghost use Rattle.record_judge.specs.declared.judge.Judge.{Judge};
ghost use Rattle.record_judge.specs.Judging.{IsFlaw, IsUndone, JudgedIsTold, Judges, Takes};

use crate::faults::Misdeed;
use crate::sealed::SealedArchive;
use record_history::{Event, LineFault, next_mark, read_line};
use std::alloc::{AllocError, Global};

/// What stands against a row of a history.
#[derive(Clone, Copy)]
pub enum Flaw {
    /// The row's number is not the next one.
    OutOfTurn,
    /// The octets are no line of an event.
    NotALine,
    /// The line begins with another number than the next one.
    OtherNumber,
    /// The row's mark is not the one that the chain gives to the line.
    OtherMark,
    /// The deed destroys a record, and tells another schedule than that of the record's class at that point.
    OtherSchedule,
    /// The archive refuses the deed at that point, or gives its record another number.
    Refused,
    /// The deed's plan is none.
    NoPlan,
    /// The deed destroys a record that was captured after 2199-12-31.
    LateDay,
    /// 99: no memory. Then nothing stands against the row.
    NoMemory,
}

/// The judge of a history, which takes its rows one by one. It takes memory for each record, message and hold.
pub struct Judge {
    pub(crate) alloc: Global,
    pub(crate) archive: SealedArchive,
    pub(crate) next: u64,
    pub(crate) mark: Vec<u8>,
}

impl Drop for Judge {
    fn drop(self) {
        let Judge {
            alloc: _,
            archive: _,
            next: _,
            mark: _,
        } = self;
    }
}

fn flaw_of(misdeed: Misdeed) -> Flaw
    ensures { (j : Judge) (number : ℕ) (line mark : List ℕ) → IsUndone j line misdeed →
        IsFlaw j number line mark result }
{
    match misdeed {
        Misdeed::Refused => Flaw::Refused,
        Misdeed::NoPlan => Flaw::NoPlan,
        Misdeed::LateDay => Flaw::LateDay,
        Misdeed::NoMemory => Flaw::NoMemory,
    }
}

impl Judge {
    /// A judge who has seen nothing. The only refusal is no memory (99).
    pub fn new(alloc: Global) -> Result<Judge, AllocError>
        ensures { IfOk result (λ j. Judges j []) }
    {
        Ok(Judge {
            alloc,
            archive: SealedArchive::new(alloc)?,
            next: 1,
            mark: Vec::new(alloc),
        })
    }

    /// Finds that a row has the next number and the chain's mark.
    fn check_row(&self, number: u32, line: &[u8], mark: &[u8]) -> Result<(), Flaw>
        ensures number { OnOk result (number ≡ self.now.next) }
        ensures mark { OnOk result (mark.now ≡ mark_after self.now.mark.items line.now) }
        ensures err { IfErr result (IsFlaw self.now number line.now mark.now) }
    {
        if u64::from(number) != self.next {
            return Err(Flaw::OutOfTurn);
        }
        let Ok(marked) = next_mark(self.alloc, self.mark.as_slice(), line) else {
            return Err(Flaw::NoMemory);
        };
        if marked.as_bytes() != mark {
            return Err(Flaw::OtherMark);
        }
        Ok(())
    }

    /// The event of the next line.
    #[tactic(auto, using(crate::proofs::JudgeLemmas::other_number))]
    fn read_next<'a>(&self, line: &'a [u8]) -> Result<Event<'a>, Flaw>
        ensures ok { IfOk result (λ e. line.now ≡ line_of self.now.next (event_view e)) }
        ensures err { (number : ℕ) (mark : List ℕ) →
            IfErr result (IsFlaw self.now number line.now mark) }
    {
        let (number, event) = match read_line(self.alloc, line) {
            Ok(read) => read,
            Err(LineFault::NotALine) => return Err(Flaw::NotALine),
            Err(LineFault::NoMemory) => return Err(Flaw::NoMemory),
        };
        if number != self.next {
            return Err(Flaw::OtherNumber);
        }
        Ok(event)
    }

    /// Takes the next row: its number, its line and its mark.
    ///
    /// Refused with what stands against it first, in the order of `OutOfTurn`, `OtherMark`, `NotALine`, `OtherNumber`,
    /// `OtherSchedule` and the others; a refused judge is of no more use.
    #[tactic(auto, using(crate::proofs::JudgeLemmas::taken))]
    pub fn take(&mut self, number: u32, line: &[u8], mark: &[u8]) -> Result<(), Flaw>
        ensures { (ls : List (List ℕ)) → Judges self.old ls →
            Takes self.old self.new ls number line.now mark.now result }
    {
        self.check_row(number, line, mark)?;
        let event = match self.read_next(line) {
            Ok(event) => event,
            Err(flaw) => return Err(flaw),
        };
        if !self.archive.is_told_truly(&event.deed) {
            return Err(Flaw::OtherSchedule);
        }
        if let Err(misdeed) = self.archive.do_again(event.deed) {
            return Err(flaw_of(misdeed));
        }
        let Ok(mark) = Vec::from_slice(self.alloc, mark) else {
            return Err(Flaw::NoMemory);
        };
        self.next += 1;
        self.mark = mark;
        Ok(())
    }

    /// How many rows the judge has taken.
    pub fn count(&self) -> u64
        ensures { (ls : List (List ℕ)) → Judges self.now ls → result ≡ length ls }
    {
        self.next.saturating_sub(1)
    }

    /// The mark of the last row; empty before the first one.
    pub fn mark(&self) -> &[u8]
        ensures { result.now ≡ self.now.mark.items }
    {
        self.mark.as_slice()
    }

    /// What the rows make of an archive.
    pub fn archive(&self) -> &SealedArchive
        ensures { result.now ≡ self.now.archive }
    {
        &self.archive
    }
}

/// The law `JudgedIsTold` of the definitions: the lines that a judge has seen explain each archive that is the judge's when it
/// is sealed. The function does nothing.
pub fn judged_is_told()
    ensures { JudgedIsTold }
{}
