//! The rounds of an intake, and of an import: one for each volume into which it captures.

ghost use Rattle.std.specs.Prelude.{◌≡◌};
ghost use Rattle.cli_changes.specs.Rounds.{
  IsBeginning,
  from_on,
  is_before as comes_before,
  left_names,
  together,
};

use mail_intake::{Tally, Told};
use std::alloc::Global;
use std::cmp::Ordering;

/// How a round of an intake or an import ended.
#[derive(Drop)]
pub enum Round<J, R> {
    /// Each message is taken, or stays.
    Done,
    /// The volume is full, and what is left of a job is for a round in the next one, by what the rounds came to so far.
    NextVolume(J, R),
}

/// What the rounds of an intake came to so far.
#[derive(Drop)]
pub struct Rounds {
    /// The moment at which the first one began, in seconds since 1970; none before that.
    pub(crate) begun: Option<u64>,
    /// What became of the messages.
    pub(crate) tally: Tally,
    /// The name of the message at which the last one ended, since its volume was full: those before it are taken, or stay.
    pub(crate) next: Option<String>,
    /// Which messages stay, and the words for it.
    pub(crate) told: Vec<Told>,
    /// Whether anything was said of a message.
    pub(crate) has_spoken: bool,
    /// Whether it was told that it cannot be remembered what was told.
    pub(crate) has_complained: bool,
}

impl Rounds {
    /// None was made.
    pub fn none(alloc: Global) -> Rounds
        ensures { IsBeginning result }
    {
        Rounds {
            begun: None,
            tally: Tally {
                taken: 0,
                unfit: 0,
                given_up: 0,
            },
            next: None,
            told: Vec::new(alloc),
            has_spoken: false,
            has_complained: false,
        }
    }
}

/// What became of the messages of two rounds.
pub(crate) fn together(one: &Tally, other: &Tally) -> Tally
    ensures { result ≡ together one.now other.now }
{
    Tally {
        taken: one.taken.saturating_add(other.taken),
        unfit: one.unfit.saturating_add(other.unfit),
        given_up: one.given_up.saturating_add(other.given_up),
    }
}

/// Whether a name comes before another one, in byte order.
fn is_before(name: &str, next: &str) -> bool
    ensures { result ≡ comes_before name.now next.now }
{
    match name.as_bytes().cmp(next.as_bytes()) {
        Ordering::Less => true,
        Ordering::Equal | Ordering::Greater => false,
    }
}

/// Leaves out the names that come before this one.
fn leave_out(names: &mut Vec<String>, next: &str)
    ensures { names.new.items ≡ from_on next.now names.old.items }
{
    names.retain(|name| !is_before(name.as_str(), next));
}

/// The names of messages that are left for a round, of all that are listed.
pub(crate) fn left_of(names: Vec<String>, rounds: &Rounds) -> Vec<String>
    ensures { result.items ≡ left_names rounds.now.next names.items }
{
    let mut names = names;
    if let Some(next) = &rounds.next {
        leave_out(&mut names, next.as_str());
    }
    names
}
