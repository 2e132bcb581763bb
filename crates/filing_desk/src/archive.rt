//! What a desk asks of its archive: a record by its number, and the records of a capture.

ghost use Rattle.std.specs.Prelude.{◌≡◌, ◌≤◌, ◌^◌, IfErr, MatchResult};
ghost use Rattle.class_plan.specs.Calendar.{number_of_day};
ghost use Rattle.record_archive.specs.declared.fault.ArchiveRefusal.TheVariants.{NoRecord};
ghost use Rattle.filing_desk.specs.Filing.{MakesRecords, FilesSafely, IsArchiveFault};

use class_paths::Paths;
use desk_commands::DeskFault;
use desk_flights::Flight;
use record_archive::{ArchiveRefusal, Line, Records, are_classes};

/// A record's number in 32 bits; no record has a greater one (80).
pub(crate) fn record_number(number: u64) -> Result<u32, ArchiveRefusal>
    ensures { MatchResult result (λ n. n ≡ number) (λ f. (f ≡ NoRecord) × (2 ^ 32 ≤ number)) }
{
    match u32::try_from(number) {
        Ok(number) => Ok(number),
        Err(_) => Err(ArchiveRefusal::NoRecord),
    }
}

/// Makes the records of a capture in an archive, all or none. Refused with 87 (numbers used up), 89 or 99. A path that is
/// no class of the plan gives 88; no capture of a desk that represents a state files into such a path.
pub(crate) fn file_outcome<A: Records>(
    store: &mut A,
    flight: &Flight,
    classes: &Paths,
) -> Result<Vec<Line>, DeskFault>
    ensures files { MakesRecords A.keeper store.old store.new flight.now.message
        (number_of_day flight.now.day) classes.now result }
    ensures safe { FilesSafely A.keeper store.old store.new flight.now.message
        (number_of_day flight.now.day) classes.now result }
    ensures fault { IfErr result IsArchiveFault }
    ensures was_clean { A.keeper.clean store.new → A.keeper.clean store.old }
{
    if !are_classes(store.plan(), classes) {
        return Err(DeskFault::Archive(ArchiveRefusal::NoArchive));
    }
    let lines = store.capture(flight.message(), flight.day(), classes)?;
    Ok(lines)
}
