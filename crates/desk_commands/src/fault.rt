//! Why the desk refuses a call.

ghost use Rattle.std.specs.Prelude.{◌≡◌};
ghost use Rattle.desk_commands.specs.Faults.{refusal_of, has_place as has_place_of};

use class_plan::PlanFault;
use filing_image::FormFault;
use filing_verify::VerifyFault;
use record_archive::{ArchiveFault, ArchiveRefusal};
use sieve_check::CheckFault;
use sieve_library::LibraryFault;
use sieve_text::{TextFault, TextRefusal};
use std::alloc::{AllocError, AllocFailed};

/// A refusal as a session shows it: its number, and for some numbers the offset in octets in a script.
#[derive(Clone, Copy)]
pub struct Refusal {
    pub number: u8,
    pub offset: Option<usize>,
}

/// Why a call is refused.
#[derive(Clone, Copy)]
pub enum DeskFault {
    /// 99: out of memory.
    NoMemory,
    /// 10 to 16, 20, 21: the text is no script, and the offset in octets at which that shows.
    Text(TextRefusal, usize),
    /// 30 to 41: the script is not well made.
    Check(CheckFault),
    /// 50 to 57: the plan is refused.
    Plan(PlanFault),
    /// 58: the text of a plan has more than 1,048,576 octets.
    PlanTooLong,
    /// 61: an image has more than 16,777,216 octets.
    ImageTooLong,
    /// 60: the octets are no image.
    ImageForm,
    /// 62 to 66: the image may not run.
    Image(VerifyFault),
    /// 95: the message has more than 8,388,608 octets.
    MessageTooLong,
    /// 96: thirty-two scripts of the location have other names.
    LibraryFull,
    /// 80 to 88: the archive refuses the command.
    Archive(ArchiveRefusal),
    /// 89: the database of the archive refuses the command.
    Database,
    /// 90: sixty-four captures are in flight.
    TooManyInFlight,
    /// 91: no capture in flight has the ticket.
    NoTicket,
    /// 92: the capture has not come to its end.
    NotEnded,
    /// 93: the officer has no script of that name.
    NoScript,
    /// 94: the moment is after 2199.
    BadMoment,
    /// 97: the last ticket, 4,294,967,295, was given.
    TicketsUsedUp,
}

impl From<AllocError> for DeskFault {
    ghost use Rattle.std.specs.Prelude.{◌≡◌};
    ghost use Rattle.desk_commands.specs.declared.fault.DeskFault.TheVariants.{NoMemory};

    ghost from_gives = { λ _ f. f ≡ NoMemory };

    fn from(_error: AllocError) -> DeskFault {
        DeskFault::NoMemory
    }
}

impl<T: Drop> From<AllocFailed<T>> for DeskFault {
    ghost use Rattle.std.specs.Prelude.{◌≡◌};
    ghost use Rattle.desk_commands.specs.declared.fault.DeskFault.TheVariants.{NoMemory};

    ghost from_gives = { λ _ f. f ≡ NoMemory };

    fn from(_error: AllocFailed<T>) -> DeskFault {
        DeskFault::NoMemory
    }
}

impl From<TextFault> for DeskFault {
    ghost use Rattle.std.specs.Prelude.{◌≡◌};
    ghost use Rattle.desk_commands.specs.Faults.{text_fault};

    ghost from_gives = { λ e f. f ≡ text_fault e };

    fn from(fault: TextFault) -> DeskFault {
        match fault {
            TextFault::NoMemory => DeskFault::NoMemory,
            TextFault::Refused(refusal, at) => DeskFault::Text(refusal, at),
        }
    }
}

impl From<CheckFault> for DeskFault {
    ghost use Rattle.std.specs.Prelude.{◌≡◌};
    ghost use Rattle.desk_commands.specs.declared.fault.DeskFault.TheVariants.{Check};

    ghost from_gives = { λ e f. f ≡ Check e };

    fn from(fault: CheckFault) -> DeskFault {
        DeskFault::Check(fault)
    }
}

impl From<PlanFault> for DeskFault {
    ghost use Rattle.std.specs.Prelude.{◌≡◌};
    ghost use Rattle.desk_commands.specs.Faults.{plan_fault};

    ghost from_gives = { λ e f. f ≡ plan_fault e };

    fn from(fault: PlanFault) -> DeskFault {
        match fault {
            PlanFault::NoMemory => DeskFault::NoMemory,
            fault => DeskFault::Plan(fault),
        }
    }
}

impl From<LibraryFault> for DeskFault {
    ghost use Rattle.std.specs.Prelude.{◌≡◌};
    ghost use Rattle.desk_commands.specs.Faults.{library_fault};

    ghost from_gives = { λ e f. f ≡ library_fault e };

    fn from(fault: LibraryFault) -> DeskFault {
        match fault {
            LibraryFault::NoMemory => DeskFault::NoMemory,
            LibraryFault::Full => DeskFault::LibraryFull,
        }
    }
}

impl From<FormFault> for DeskFault {
    ghost use Rattle.std.specs.Prelude.{◌≡◌};
    ghost use Rattle.desk_commands.specs.Faults.{form_fault};

    ghost from_gives = { λ e f. f ≡ form_fault e };

    fn from(fault: FormFault) -> DeskFault {
        match fault {
            FormFault::NoMemory => DeskFault::NoMemory,
            FormFault::BadForm => DeskFault::ImageForm,
        }
    }
}

impl From<VerifyFault> for DeskFault {
    ghost use Rattle.std.specs.Prelude.{◌≡◌};
    ghost use Rattle.desk_commands.specs.Faults.{verify_fault};

    ghost from_gives = { λ e f. f ≡ verify_fault e };

    fn from(fault: VerifyFault) -> DeskFault {
        match fault {
            VerifyFault::NoMemory => DeskFault::NoMemory,
            fault => DeskFault::Image(fault),
        }
    }
}

impl From<ArchiveRefusal> for DeskFault {
    ghost use Rattle.std.specs.Prelude.{◌≡◌};
    ghost use Rattle.desk_commands.specs.Faults.{refusal_fault};

    ghost from_gives = { λ e f. f ≡ refusal_fault e };

    fn from(refusal: ArchiveRefusal) -> DeskFault {
        match refusal {
            ArchiveRefusal::Plan(fault) => DeskFault::from(fault),
            refusal => DeskFault::Archive(refusal),
        }
    }
}

impl<E: Copy> From<ArchiveFault<E>> for DeskFault {
    ghost use Rattle.std.specs.Prelude.{◌≡◌};
    ghost use Rattle.desk_commands.specs.Faults.{archive_fault};

    ghost from_gives = { λ e f. f ≡ archive_fault e };

    fn from(fault: ArchiveFault<E>) -> DeskFault {
        match fault {
            ArchiveFault::NoMemory => DeskFault::NoMemory,
            ArchiveFault::Refused(refusal) => DeskFault::from(refusal),
            ArchiveFault::Database(_) => DeskFault::Database,
        }
    }
}

/// Whether a refusal with this number is shown with its offset: 11 to 14, 16, 20 and 21.
fn has_place(number: u8) -> bool
    ensures { result ≡ has_place_of number }
{
    matches!(number, 11..=14 | 16 | 20 | 21)
}

impl DeskFault {
    /// The number of the refusal, and the offset in octets where it is shown with one: 11 to 14, 16, 20 and 21.
    pub fn refusal(&self) -> Refusal
        ensures { result ≡ refusal_of self.now }
    {
        Refusal {
            number: self.number(),
            offset: self.offset(),
        }
    }

    fn number(&self) -> u8
        ensures { result ≡ (refusal_of self.now).number }
    {
        match self {
            DeskFault::NoMemory => 99,
            DeskFault::Text(refusal, _) => refusal.number(),
            DeskFault::Check(fault) => fault.number(),
            DeskFault::Plan(fault) => fault.number(),
            DeskFault::PlanTooLong => 58,
            DeskFault::ImageTooLong => 61,
            DeskFault::ImageForm => 60,
            DeskFault::Image(fault) => fault.number(),
            DeskFault::MessageTooLong => 95,
            DeskFault::LibraryFull => 96,
            DeskFault::Archive(refusal) => refusal.number(),
            DeskFault::Database => 89,
            DeskFault::TooManyInFlight => 90,
            DeskFault::NoTicket => 91,
            DeskFault::NotEnded => 92,
            DeskFault::NoScript => 93,
            DeskFault::BadMoment => 94,
            DeskFault::TicketsUsedUp => 97,
        }
    }

    /// The offset of the refusal, where it is shown with one.
    fn offset(&self) -> Option<usize>
        ensures { result ≡ (refusal_of self.now).offset }
    {
        match self {
            DeskFault::Text(refusal, at) if has_place(refusal.number()) => Some(*at),
            _ => None,
        }
    }
}
