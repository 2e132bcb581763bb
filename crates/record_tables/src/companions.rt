//! What is done in the transaction of a change, beside the change.

ghost use Rattle.std.specs.Prelude.{OnOk};
ghost use Rattle.sqlite.specs.Effect.{Database};
ghost use Rattle.record_tables.specs.Changes.{Always, TurnsAlone};
ghost use Rattle.record_tables.specs.Companions.{Accompanies, MakesBoth};
ghost use Rattle.record_tables.specs.Layouts.{GoesOnIn};
ghost use Rattle.record_tables.specs.Steps.{MakesIn, StaysInside};

use crate::transact::Change;
use sqlite::{Alter, Error, Transaction};

/// What is done in a transaction after a change that leaves tables of other names alone, and itself leaves the archive's
/// tables alone.
pub trait Companion {
    /// What the database must have before the change.
    ghost needs: { Self → Database → Type 0 };

    /// What is brought about between the database before the change and that after both.
    ghost brings: { Self → Database → Database → Type 0 };

    /// Does it in a transaction of the caller's, which continues.
    ///
    /// A refusal is the error of `sqlite`; on a clean disk it keeps what was committed. A crash leaves nothing of it.
    fn make<S: Alter>(self, tx: &mut Transaction<'_, S>) -> Result<(), Error>
        ensures ok { OnOk result (MakesIn S.Store tx.old.conn.now tx.new.conn.now
            (Accompanies (needs self) (brings self))) }
        ensures goes_on { GoesOnIn S.Store tx.old.conn.now tx.new.conn.now result }
        ensures frame { StaysInside S.Store tx.old.conn tx.new.conn result };
}

/// The companion of a change that has none.
#[derive(Drop)]
pub struct Alone;

impl Companion for Alone {
    ghost needs = { λ c db. Unit {0} };

    ghost brings = { λ c old new. Unit {0} };

    fn make<S: Alter>(self, _tx: &mut Transaction<'_, S>) -> Result<(), Error> {
        Ok(())
    }
}

/// A change, and after it its companion.
#[derive(Drop)]
pub struct Accompanied<C: Change, D: Companion + Drop> {
    pub change: C,
    pub companion: D,
}

impl<C: Change, D: Companion + Drop> Change for Accompanied<C, D> {
    ghost may_be_made = { λ c db. C.may_be_made c.change db };

    ghost makes = { λ c. MakesBoth (C.makes c.change) (D.needs c.companion)
        (D.brings c.companion) };

    fn make<S: Alter>(self, tx: &mut Transaction<'_, S>) -> Result<(), Error> {
        self.change.make(tx)?;
        self.companion.make(tx)?;
        Ok(())
    }
}

/// The change that changes nothing, of a companion that comes without one.
#[derive(Drop)]
pub struct Unchanged;

impl Change for Unchanged {
    ghost may_be_made = { λ c db. Unit {0} };

    ghost makes = { λ c old new. TurnsAlone old new Always (λ t. t) };

    fn make<S: Alter>(self, _tx: &mut Transaction<'_, S>) -> Result<(), Error> {
        Ok(())
    }
}
