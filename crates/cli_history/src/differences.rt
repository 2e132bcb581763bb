//! What a program that keeps no history has done, in words that fit into reasons.

use std::alloc::{AllocError, Global};
use std::mem::swap;

/// What such a program has done.
#[derive(Drop)]
pub enum Change {
    PlanReplaced,
    /// The hold of this name on a record has ended.
    HoldEnded(Vec<u8>, u32),
    Destroyed(u32),
    /// The store has the record no more.
    Gone(u32),
    /// The record's class, day or message is another one, or it is destroyed no more.
    Changed(u32),
    /// A hold of this name is on a record.
    HoldPlaced(Vec<u8>, u32),
    /// The record is new.
    Captured(u32),
}

/// The words of a change.
fn words_of(alloc: Global, change: &Change) -> Result<String, AllocError> {
    match change {
        Change::PlanReplaced => String::from_str(alloc, "replaced: the plan"),
        Change::HoldEnded(name, number) => {
            let name = name.as_slice().escape_ascii();
            format!(in alloc; "ended: hold {name} on {number}")
        }
        Change::Destroyed(number) => format!(in alloc; "destroyed: record {number}"),
        Change::Gone(number) => format!(in alloc; "gone: record {number}"),
        Change::Changed(number) => format!(in alloc; "changed: record {number}"),
        Change::HoldPlaced(name, number) => {
            let name = name.as_slice().escape_ascii();
            format!(in alloc; "placed: hold {name} on {number}")
        }
        Change::Captured(number) => format!(in alloc; "captured: record {number}"),
    }
}

/// Where a change stands in a summary.
#[derive(Clone, Copy)]
enum Rank {
    /// It ends a hold.
    EndsHold,
    /// It can end the keeping of a record in another way.
    EndsKeeping,
    /// It can not.
    Keeps,
}

/// Where a change stands in a summary.
fn rank_of(change: &Change) -> Rank {
    match change {
        Change::HoldEnded(..) => Rank::EndsHold,
        Change::PlanReplaced | Change::Destroyed(_) | Change::Gone(_) | Change::Changed(_) => {
            Rank::EndsKeeping
        }
        Change::HoldPlaced(..) | Change::Captured(_) => Rank::Keeps,
    }
}

/// The greatest number of changes that are kept of those that cannot end the keeping of records. Each of these is told by an
/// event of its own.
const MAX_KEPT: usize = 32;

/// The greatest length of a reason, in octets.
const LONGEST: usize = 500;

/// How many octets the words take that stand at the end of a reason which has no room for more.
const ROOM: usize = 32;

/// The end of a reason whose summary goes on in that of the next event.
pub const GOES_ON: &str = "; more in the next event";

/// What a program that keeps no history has done. The holds that it has ended come first, then what else can end the keeping of
/// records.
pub struct Changes {
    alloc: Global,
    ended: Vec<Change>,
    ends: Vec<Change>,
    others: Vec<Change>,
    /// How many more of the others there are.
    more: u64,
}

impl Drop for Changes {
    fn drop(self) {
        let Changes {
            alloc: _,
            ended: _,
            ends: _,
            others: _,
            more: _,
        } = self;
    }
}

/// Texts that have no more octets than a reason, with the number of what the last one has no room for.
struct Fitted {
    alloc: Global,
    /// How each begins.
    beginning: String,
    texts: Vec<String>,
    /// The last text.
    text: String,
    more: u64,
}

impl Drop for Fitted {
    fn drop(self) {
        let Fitted {
            alloc: _,
            beginning: _,
            texts: _,
            text: _,
            more: _,
        } = self;
    }
}

/// Whether a reason has room for a change in these words, and for what may stand behind it.
fn has_room(text: &str, words: &str) -> bool {
    let length = text.len().saturating_add(words.len());
    length.saturating_add(2 + ROOM) <= LONGEST
}

impl Fitted {
    fn new(alloc: Global, who: &str, more: u64) -> Result<Fitted, AllocError> {
        let beginning = noted_by(alloc, who)?;
        Ok(Fitted {
            alloc,
            text: beginning.clone()?,
            beginning,
            texts: Vec::new(alloc),
            more,
        })
    }

    /// Adds words to the last text.
    fn push(&mut self, words: &str) -> Result<(), AllocError> {
        self.text.push_str("; ")?;
        self.text.push_str(words)
    }

    /// Begins another text.
    fn go_on(&mut self) -> Result<(), AllocError> {
        let mut full = self.beginning.clone()?;
        swap(&mut full, &mut self.text);
        full.push_str(GOES_ON)?;
        Ok(self.texts.push(full)?)
    }

    /// Adds the words of changes, in as many texts as they take.
    fn add_all(&mut self, changes: &[Change]) -> Result<(), AllocError> {
        for change in changes {
            let words = words_of(self.alloc, change)?;
            if !has_room(self.text.as_str(), words.as_str()) {
                self.go_on()?;
            }
            self.push(words.as_str())?;
        }
        Ok(())
    }

    /// Adds the words of changes, each where the last text has room for them.
    fn add_fitting(&mut self, changes: &[Change]) -> Result<(), AllocError> {
        for change in changes {
            let words = words_of(self.alloc, change)?;
            if has_room(self.text.as_str(), words.as_str()) {
                self.push(words.as_str())?;
            } else {
                self.more = self.more.saturating_add(1);
            }
        }
        Ok(())
    }

    /// The texts. The last one says how many changes are not among them.
    fn into_texts(self) -> Result<Vec<String>, AllocError> {
        let Fitted {
            alloc: _,
            beginning: _,
            mut texts,
            mut text,
            more,
        } = self;
        if more > 0 {
            write!(text, "; and {more} more")?;
        }
        texts.push(text)?;
        Ok(texts)
    }
}

impl Changes {
    pub fn none(alloc: Global) -> Changes {
        Changes {
            alloc,
            ended: Vec::new(alloc),
            ends: Vec::new(alloc),
            others: Vec::new(alloc),
            more: 0,
        }
    }

    /// Adds a change.
    pub fn add(&mut self, change: Change) -> Result<(), AllocError> {
        match rank_of(&change) {
            Rank::EndsHold => Ok(self.ended.push(change)?),
            Rank::EndsKeeping => Ok(self.ends.push(change)?),
            Rank::Keeps if self.others.len() < MAX_KEPT => Ok(self.others.push(change)?),
            Rank::Keeps => {
                self.more = self.more.saturating_add(1);
                Ok(())
            }
        }
    }

    /// Adds that the hold of a name on a record has ended.
    pub fn add_ended_hold(&mut self, name: &[u8], number: u32) -> Result<(), AllocError> {
        let name = Vec::from_slice(self.alloc, name)?;
        self.add(Change::HoldEnded(name, number))
    }

    /// Adds that a hold of a name is on a record.
    pub fn add_placed_hold(&mut self, name: &[u8], number: u32) -> Result<(), AllocError> {
        let name = Vec::from_slice(self.alloc, name)?;
        self.add(Change::HoldPlaced(name, number))
    }

    /// The reasons for which the first findings are noted: who notes them, and what was done. There is one at least, and as many
    /// as it takes to tell all that can end the keeping of records.
    pub fn reasons(&self, who: &str) -> Result<Vec<String>, AllocError> {
        let mut fitted = Fitted::new(self.alloc, who, self.more)?;
        fitted.add_all(self.ended.as_slice())?;
        fitted.add_all(self.ends.as_slice())?;
        fitted.add_fitting(self.others.as_slice())?;
        fitted.into_texts()
    }
}

/// Who notes what was found.
fn noted_by(alloc: Global, who: &str) -> Result<String, AllocError> {
    format!(in alloc; "noted by {who}")
}

/// The reason for which what stands behind these findings is noted: who notes it.
pub fn plain_reason(alloc: Global, who: &str) -> Result<String, AllocError> {
    format!(in alloc; "noted by {who}; left by a program without a history")
}
