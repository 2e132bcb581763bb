//! Events: what was done to an archive, when, by whom and for what reason.

ghost use Rattle.std.specs.Prelude.{◌≡◌, IfOk};
ghost use Rattle.record_history.specs.Spelled.{HasSchedules};
ghost use Rattle.record_history.specs.Views.{listing_view};

use class_plan::{Plan, Schedule};
use std::alloc::{AllocError, Global};

/// What stands for a message: how many octets it has, and their SHA-256 in 64 hexadecimal digits.
#[derive(Drop)]
pub struct Seal {
    pub octets: u64,
    pub sum: Vec<u8>,
}

/// The officer whose rules filed a message, and the SHA-256 of the rules in 64 hexadecimal digits.
#[derive(Clone, Copy)]
pub struct Filing<'a> {
    pub officer: &'a [u8],
    pub rules: &'a [u8],
}

/// A plan as it is written: the root's schedule, and for each class its path, whether it is open, and its own schedule, if
/// it has one.
pub struct Listing<'a> {
    pub root: Schedule,
    pub classes: Vec<(&'a [u8], bool, Option<Schedule>)>,
}

impl Drop for Listing<'_> {
    fn drop(self) {
        let Listing {
            root: _,
            classes: _,
        } = self;
    }
}

impl<'a> Listing<'a> {
    /// The listing of a plan. The only refusal is no memory (99).
    pub fn of(alloc: Global, plan: &'a Plan) -> Result<Listing<'a>, AllocError>
        ensures view { IfOk result (λ l. listing_view l ≡ plan.now) }
        ensures spelled { IfOk result (λ l. HasSchedules (listing_view l)) }
    {
        let _classes = plan.class_count();
        Ok(Listing {
            root: plan.root(),
            classes: plan.classes(alloc)?,
        })
    }
}

/// A deed. Days are counted from 1970-01-01.
#[derive(Drop)]
pub enum Deed<'a> {
    /// A message is captured on a day in the classes of these paths, and its first record has the number `first`. Rules
    /// filed it, or its classes were given.
    Captured {
        first: u32,
        seal: Seal,
        day: u32,
        filing: Option<Filing<'a>>,
        paths: Vec<&'a [u8]>,
    },
    /// A hold of this name is placed on a record.
    Held {
        name: &'a [u8],
        number: u32,
    },
    /// The hold of this name on a record ends.
    Released {
        name: &'a [u8],
        number: u32,
    },
    /// A record is destroyed as due by the day, under this schedule.
    Destroyed {
        number: u32,
        day: u32,
        schedule: Schedule,
    },
    /// A live record gets another class, the one of this path.
    Refiled {
        number: u32,
        path: &'a [u8],
    },
    /// A class is added, open and without a schedule of its own.
    ClassAdded {
        path: &'a [u8],
    },
    /// The plan is replaced by this one.
    PlanReplaced(Listing<'a>),
    /// The class of this path gets a title for people, and the legal basis of its schedule. Each is at most 500 octets
    /// without a control.
    Titled {
        path: &'a [u8],
        title: &'a [u8],
        basis: &'a [u8],
    },
    /// From now on a reason is to be given for a hold, a release, a new plan and a destruction.
    ReasonsRequired,
    /// A reason need not be given any more.
    ReasonsOptional,
    /// A person has looked at what a program that keeps no history left, and lets it stand.
    FindingsAccepted,
    /// This plan was there. It begins the history, or a finding of what a program that keeps none has left.
    FoundPlan(Listing<'a>),
    /// This message was there.
    FoundMessage {
        number: u32,
        seal: Seal,
    },
    /// This record was there.
    FoundRecord {
        number: u32,
        message: u32,
        path: &'a [u8],
        day: u32,
        destroyed: bool,
    },
    /// This hold was there.
    FoundHold {
        name: &'a [u8],
        number: u32,
    },
}

/// A deed at a moment, in seconds since 1970-01-01T00:00:00Z. Who did it, and for what reason, is told by the caller; no
/// reason is an empty one. The notes are more that is told of the deed, as `message=altered`: `key=value` joined by `;`, or
/// empty where nothing more is told.
#[derive(Drop)]
pub struct Event<'a> {
    pub moment: u64,
    pub who: &'a [u8],
    pub deed: Deed<'a>,
    pub notes: &'a [u8],
    pub reason: &'a [u8],
}
