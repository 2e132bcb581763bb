//! `history`, `certificates` and `holds` over an archive of volumes: what each volume tells, one after another.

use crate::archives::{Archives, Work};
use crate::histories::ReadHistory;
use crate::volume_numbers::judge_typed;
use crate::volume_row::Volumes;
use cli_console::{Failure, Joined, StandardOutput, told_now};
use cli_history::{AllCases, HistoryText};
use command_lines::archives::{Numbers, TypedHistory};
use record_store::Store;
use sqlite::{Alter, Connection};

/// Prints the events of a volume that are asked for. One of which none is asked for is not opened.
fn print_history<A: Archives>(
    rt: &HostRuntime,
    archives: &A,
    volumes: Volumes<'_>,
    volume: u32,
    typed: &TypedHistory<'_>,
    text: &mut HistoryText<StandardOutput<'_>>,
) -> Result<(), Failure> {
    let Some(asked) = typed.in_volume(rt.alloc(), volume)? else {
        return Ok(());
    };
    let work = ReadHistory::Add {
        volume,
        asked,
        text,
    };
    volumes.lend(rt, archives, volume, work)
}

/// Prints the events that are asked for, volume by volume. What is bad data in one of them is told, and the others are printed all the
/// same. `Usage` where a number is typed without its volume, and `BadData` where there is no such volume.
pub fn print_histories<A: Archives>(
    rt: &HostRuntime,
    archives: &A,
    volumes: Volumes<'_>,
    typed: &TypedHistory<'_>,
) -> Result<(), Failure> {
    let alone = typed.alone.numbers.as_slice();
    judge_typed(rt, volumes.last, alone, typed.of_volumes.as_slice())?;
    let mut text = HistoryText::new(typed.alone.is_json, StandardOutput::new(rt));
    let mut joined = Joined::new();
    for volume in 1..=volumes.last {
        let printed = print_history(rt, archives, volumes, volume, typed, &mut text);
        joined.add(told_now(rt, printed))?;
    }
    let _output = text.end()?;
    joined.end()
}

/// Prints the certificates of the records of a volume that are asked for. One of which none is asked for is not opened.
fn print_certificates_in<A: Archives>(
    rt: &HostRuntime,
    archives: &A,
    volumes: Volumes<'_>,
    volume: u32,
    typed: &Numbers,
) -> Result<(), Failure> {
    let Some(numbers) = typed.in_volume(rt.alloc(), volume)? else {
        return Ok(());
    };
    let work = ReadHistory::Certificates {
        volume: Some(volume),
        numbers,
    };
    volumes.lend(rt, archives, volume, work)
}

/// Prints the certificates of the records that are asked for, volume by volume. What is bad data in one of them is told, and the others
/// are printed all the same. `Usage` where a number is typed without its volume, and `BadData` where there is no such volume.
pub fn print_certificates<A: Archives>(
    rt: &HostRuntime,
    archives: &A,
    volumes: Volumes<'_>,
    typed: &Numbers,
) -> Result<(), Failure> {
    judge_typed(
        rt,
        volumes.last,
        typed.alone.as_slice(),
        typed.of_volumes.as_slice(),
    )?;
    let mut joined = Joined::new();
    for volume in 1..=volumes.last {
        let printed = print_certificates_in(rt, archives, volumes, volume, typed);
        joined.add(told_now(rt, printed))?;
    }
    joined.end()
}

/// Adds the cases of a volume to those of the volumes before it.
#[derive(Drop)]
struct AddCases<'c> {
    volume: u32,
    cases: &'c mut AllCases,
}

impl Work for AddCases<'_> {
    type Answer = ();

    fn work<S: Alter>(
        self,
        rt: &HostRuntime,
        archive: Store<S>,
    ) -> (Connection<S>, Result<(), Failure>) {
        let mut archive = archive;
        let AddCases { volume, cases } = self;
        let added = cases.add_store(rt, &mut archive, Some(volume));
        (archive.into_connection(), added)
    }
}

/// Writes the cases of all volumes: how many records each has in all of them, and how it began first. Nothing is written where a volume
/// cannot be read.
pub fn write_holds<A: Archives>(
    rt: &HostRuntime,
    archives: &A,
    volumes: Volumes<'_>,
    is_json: bool,
) -> Result<(), Failure> {
    let mut cases = AllCases::none(rt.alloc());
    for volume in 1..=volumes.last {
        let work = AddCases {
            volume,
            cases: &mut cases,
        };
        volumes.lend(rt, archives, volume, work)?;
    }
    cases.write(rt, is_json)
}
