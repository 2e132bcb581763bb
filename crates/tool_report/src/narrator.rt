//! Writes down what a run comes to.

use crate::book::{Book, Mark};
use class_paths::Paths;
use sieve_evaluator::{Act, BorrowedCase, Inclusion, Observer};
use sieve_meaning::reading::first_string;
use sieve_meaning::{CommandWord, Include};
use sieve_syntax::{Argument, Command, Test};
use std::alloc::{AllocError, Global};
use std::collections::BTreeMap;

/// What is known of a command or a test.
#[derive(Clone, Copy)]
pub enum Told {
    /// The run came to it.
    Reached,
    /// A command did this.
    Did(Act),
    /// This became of an include.
    Included(Inclusion),
    /// An include entered a script whose run was reported before.
    EnteredAgain,
    /// A test has this answer.
    Answered(bool),
}

/// A command or a test that a run came to.
#[derive(Clone, Copy)]
pub struct Row {
    pub mark: Mark,
    /// How many commands, tests and includes it is inside of.
    pub depth: usize,
    pub told: Told,
}

/// What a run came to, in its order. What a script does when it is entered again is not kept again.
pub struct Narration {
    pub rows: Vec<Row>,
    /// For each path the command that filed first into it.
    pub filers: BTreeMap<Vec<u8>, Mark>,
    /// The first command that kept the message.
    pub keeper: Option<Mark>,
    /// The first command that cancelled the implicit keep.
    pub canceller: Option<Mark>,
    /// The command with which the run ended in a fault.
    pub culprit: Option<Mark>,
    /// The includes that the faulty command was run by, the outermost first.
    pub by_way_of: Vec<Mark>,
}

impl Drop for Narration {
    fn drop(self) {
        let Narration {
            rows: _,
            filers: _,
            keeper: _,
            canceller: _,
            culprit: _,
            by_way_of: _,
        } = self;
    }
}

impl Narration {
    /// The narration of no run.
    pub fn new(alloc: Global) -> Narration {
        Narration {
            rows: Vec::new(alloc),
            filers: BTreeMap::new(alloc),
            keeper: None,
            canceller: None,
            culprit: None,
            by_way_of: Vec::new(alloc),
        }
    }
}

/// A command or a test that was entered and not left, with its row, if it has one.
#[derive(Clone, Copy)]
struct Open {
    mark: Mark,
    row: Option<usize>,
}

/// Writes a narration.
#[derive(Drop)]
pub struct Narrator<'n, 'a> {
    alloc: Global,
    book: &'n Book<'a>,
    narration: Narration,
    /// The page that is run, and the number of the next command or test there.
    next: Mark,
    /// What was entered, the innermost last.
    open: Vec<Open>,
    /// Where the runs of including scripts go on.
    returns: Vec<Mark>,
    /// Which pages were reported.
    told: Vec<bool>,
    /// How many of the active scripts are not reported, the innermost of them all.
    untold: usize,
    /// Whether memory ran out.
    has_failed: bool,
}

impl<'n, 'a> Narrator<'n, 'a> {
    /// A narrator of the run of a book's first script. The only error is out of memory.
    pub fn new(alloc: Global, book: &'n Book<'a>) -> Result<Narrator<'n, 'a>, AllocError> {
        let mut told = Vec::with_capacity(alloc, book.pages.len())?;
        for page in 0..book.pages.len() {
            told.push(page == 0)?;
        }
        Ok(Narrator {
            alloc,
            book,
            narration: Narration::new(alloc),
            next: Mark { page: 0, number: 0 },
            open: Vec::new(alloc),
            returns: Vec::new(alloc),
            told,
            untold: 0,
            has_failed: false,
        })
    }

    /// What was reported. The only error is that memory ran out while it was.
    pub fn finish(self) -> Result<Narration, AllocError> {
        if self.has_failed {
            return Err(AllocError);
        }
        Ok(self.narration)
    }

    /// Enters the next command or test.
    fn enter(&mut self) -> Result<(), AllocError> {
        let mark = self.next;
        let mut row = None;
        if self.untold == 0 {
            row = Some(self.narration.rows.len());
            self.narration.rows.push(Row {
                mark,
                depth: self.open.len(),
                told: Told::Reached,
            })?;
        }
        self.open.push(Open { mark, row })?;
        self.next.number = mark.number.saturating_add(1);
        Ok(())
    }

    /// Leaves the command or test that was entered last, with all that is inside it.
    fn leave(&mut self) {
        if let Some(last) = self.open.pop() {
            self.next = Mark {
                page: last.mark.page,
                number: self.book.end(last.mark),
            };
        }
    }

    /// Keeps what became of the command or test that was entered last.
    fn tell(&mut self, told: Told) {
        let Some(Open { row: Some(row), .. }) = self.open.last().copied() else {
            return;
        };
        if let Some(row) = self.narration.rows.get_mut(row) {
            row.told = told;
        }
    }

    /// The command that was entered last.
    fn here(&self) -> Mark {
        match self.open.last() {
            Some(open) => open.mark,
            None => self.next,
        }
    }

    /// Notes the command that filed into a path, unless one did before.
    fn note_filer(&mut self, path: &[u8]) -> Result<(), AllocError> {
        let here = self.here();
        if self.narration.filers.get(path).is_none() {
            let path = Vec::from_slice(self.alloc, path)?;
            self.narration.filers.insert(path, here)?;
        }
        Ok(())
    }

    /// Notes that a command cancelled the implicit keep, unless one did before.
    fn note_canceller(&mut self) {
        let here = self.here();
        if self.narration.canceller.is_none() {
            self.narration.canceller = Some(here);
        }
    }

    /// Notes that the run ends here with a fault.
    fn note_culprit(&mut self) -> Result<(), AllocError> {
        let here = self.here();
        self.narration.culprit = Some(here);
        for mark in self.returns.as_slice() {
            self.narration.by_way_of.push(*mark)?;
        }
        Ok(())
    }

    /// Notes what an act leaves.
    fn note(&mut self, arguments: &[Argument], act: Act) -> Result<(), AllocError> {
        match act {
            Act::Files => {
                self.note_canceller();
                self.note_filer(first_string(arguments))
            }
            Act::Copies => self.note_filer(first_string(arguments)),
            Act::Discards => {
                self.note_canceller();
                Ok(())
            }
            Act::Keeps => {
                let here = self.here();
                if self.narration.keeper.is_none() {
                    self.narration.keeper = Some(here);
                }
                Ok(())
            }
            Act::Refuses => self.note_culprit(),
            Act::Nothing | Act::Passes | Act::Stops | Act::Returns => Ok(()),
        }
    }

    /// Enters a script, which is reported unless it was before, or is run by one that is not reported.
    fn enter_script(&mut self, page: usize) -> Result<(), AllocError> {
        let was_told = self.told.get(page).copied().unwrap_or(true);
        if self.untold > 0 || was_told {
            self.tell(Told::EnteredAgain);
            self.untold = self.untold.saturating_add(1);
        } else {
            self.tell(Told::Included(Inclusion::Enters));
        }
        if let Some(told) = self.told.get_mut(page) {
            *told = true;
        }
        let here = self.here();
        self.returns.push(here)?;
        self.next = Mark { page, number: 0 };
        Ok(())
    }

    /// Keeps an include, and enters its script.
    fn take_include(
        &mut self,
        include: &Include<'_>,
        inclusion: Inclusion,
    ) -> Result<(), AllocError> {
        match inclusion {
            Inclusion::Enters => self.enter_script(self.book.page_named(&include.script)),
            Inclusion::EnteredBefore => {
                self.tell(Told::Included(inclusion));
                Ok(())
            }
            Inclusion::Missing if include.is_optional => {
                self.tell(Told::Included(inclusion));
                Ok(())
            }
            Inclusion::Missing | Inclusion::Active | Inclusion::TooDeep => {
                self.tell(Told::Included(inclusion));
                self.note_culprit()
            }
        }
    }

    /// Keeps in mind that memory ran out.
    fn keep(&mut self, done: Result<(), AllocError>) {
        if done.is_err() {
            self.has_failed = true;
        }
    }
}

impl Observer for Narrator<'_, '_> {
    fn enter_command(&mut self, _command: &Command) {
        let done = self.enter();
        self.keep(done);
    }

    fn leave_command(&mut self) {
        self.leave();
    }

    fn enter_test(&mut self, _test: &Test) {
        let done = self.enter();
        self.keep(done);
    }

    fn leave_test(&mut self, _case: &BorrowedCase<'_, Paths>, _test: &Test, answer: bool) {
        self.tell(Told::Answered(answer));
        self.leave();
    }

    fn act(
        &mut self,
        _case: &BorrowedCase<'_, Paths>,
        _word: CommandWord,
        arguments: &[Argument],
        act: Act,
    ) {
        self.tell(Told::Did(act));
        let done = self.note(arguments, act);
        self.keep(done);
    }

    fn include(&mut self, include: &Include<'_>, inclusion: Inclusion) {
        let done = self.take_include(include, inclusion);
        self.keep(done);
    }

    fn leave_script(&mut self) {
        self.untold = self.untold.saturating_sub(1);
        let _ = self.returns.pop();
    }
}
