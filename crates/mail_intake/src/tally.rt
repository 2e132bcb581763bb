//! How many messages were taken, and how many stay.

ghost use Rattle.std.specs.Prelude.{◌≡◌, ◌+◌, ◌<◌, ◌^◌, ◌++◌, ◌∷◌, [], List};
ghost use Rattle.mail_intake.specs.Fates.{Fate, IsTally, outcome_of};

/// What became of a message.
#[derive(Clone, Copy)]
pub(crate) enum Outcome {
    /// It is captured or discarded, and moved.
    Filed,
    /// It stays for a reason of its own.
    Unfit,
    /// It is given up.
    GivenUp,
}

/// What became of the messages of an intake.
#[derive(Clone, Copy)]
pub struct Tally {
    /// How many are captured or discarded, and moved.
    pub taken: usize,
    /// How many stay for reasons of their own.
    pub unfit: usize,
    /// How many are given up: another intake may take them.
    pub given_up: usize,
}

impl Tally {
    /// That of no message.
    pub(crate) fn none() -> Tally
        ensures tally { IsTally [] result }
        ensures sum { result.taken + result.unfit + result.given_up ≡ 0 }
    {
        Tally {
            taken: 0,
            unfit: 0,
            given_up: 0,
        }
    }

    /// Counts one more message.
    pub(crate) fn add(&mut self, outcome: Outcome)
        requires { self.old.taken + self.old.unfit + self.old.given_up + 1 < 2 ^ 64 }
        ensures tally { (fates : List Fate) (x : Fate) → outcome_of x ≡ outcome
            → IsTally fates self.old → IsTally (fates ++ x ∷ []) self.new }
        ensures sum { self.new.taken + self.new.unfit + self.new.given_up
            ≡ self.old.taken + self.old.unfit + self.old.given_up + 1 }
    {
        match outcome {
            Outcome::Filed => self.taken += 1,
            Outcome::Unfit => self.unfit += 1,
            Outcome::GivenUp => self.given_up += 1,
        }
    }

    /// How many messages stay, with those that have no name.
    pub fn staying(&self, nameless: usize) -> u64
        ensures { self.now.unfit + self.now.given_up + nameless < 2 ^ 64
            → result ≡ self.now.unfit + self.now.given_up + nameless }
    {
        (self.unfit as u64)
            .saturating_add(self.given_up as u64)
            .saturating_add(nameless as u64)
    }
}
