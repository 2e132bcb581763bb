//! The desk: what it keeps, and how it is made and taken apart.

ghost use Rattle.std.specs.Prelude.{◌≡◌, [], IfOk, IfErr};
ghost use Rattle.record_archive.specs.Archive.{Archive};

use desk_flights::{Flights, PinnedPaths};
use desk_officers::Officers;
use record_archive::Records;
use std::alloc::Global;

/// The office that a session talks to. It keeps records in an archive, the scripts and programs of officers, and captures
/// in flight. Its commands are the calls of `Registry`. Contracts say which states it represents. Besides its own
/// refusals, a call may be refused with 89 where the database refuses, and with 99 where there is no memory.
#[derive(Drop)]
pub struct Desk<A> {
    pub(crate) alloc: Global,
    pub(crate) store: A,
    pub(crate) officers: Officers,
    pub(crate) flights: Flights,
    /// The last ticket that was given.
    pub(crate) last: u32,
    /// The open paths of the plan, once a capture has begun under it.
    pub(crate) open_paths: Option<PinnedPaths>,
}

impl<A: Records> Desk<A> {
    ghost use Rattle.desk_commands.specs.Standing.{Standing, opening};
    ghost use Rattle.filing_desk.specs.Standing.{StandsFor};

    /// A desk over an archive that is kept, with no script, no program of an officer and no capture in flight. The only error is no
    /// memory (99), and it hands the archive back.
    pub fn new(alloc: Global, store: A) -> Result<Desk<A>, A>
        ensures opens { IfOk result (λ d. (a : Archive) → A.keeper.stands store a →
            StandsFor A.keeper d (opening a)) }
        ensures over { IfOk result (λ d. d.store ≡ store) }
        ensures handed_back { IfErr result (λ s. s ≡ store) }
    {
        Ok(Desk {
            alloc,
            store,
            officers: Officers::new(alloc),
            flights: Flights::new(alloc),
            last: 0,
            open_paths: None,
        })
    }

    /// Drops the captures in flight. The archive, the scripts and the programs stay as they are, and no ticket is given again.
    pub fn drop_flights(&mut self)
        ensures { (s : Standing) → StandsFor A.keeper self.old s
            → StandsFor A.keeper self.new (record s { flights = [] }) }
    {
        self.flights = Flights::new(self.alloc);
    }

    /// Gives the archive back. Scripts, programs and captures in flight are dropped.
    pub fn into_store(self) -> A
        ensures store { result ≡ self.store }
        ensures stands { (s : Standing) → StandsFor A.keeper self s
            → A.keeper.stands result s.office.archive }
    {
        let Desk { store, .. } = self;
        store
    }
}
