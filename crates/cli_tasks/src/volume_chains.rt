//! That each volume of an archive goes on from the one before, which is judged before records of any can be destroyed.

use crate::archives::{Archives, Work};
use crate::volume_beginnings::mark_of;
use crate::volume_checks::{Marks, Met, alone_words, broken_words};
use crate::volume_row::Volumes;
use cli_console::{Failure, Status};
use cli_history::{Beginning, beginning_in, open_history};
use record_noted::Opened;
use record_store::Store;
use sqlite::{Alter, Connection};

/// What the history of a volume says of the volumes beside it.
#[derive(Drop)]
struct Link {
    /// How it begins.
    beginning: Beginning,
    /// Whether no event of it has the mark after which the next volume began.
    lacks_next: bool,
}

/// Reads how the history of a volume begins, and whether it has the mark after which the next volume began, where that names one.
#[derive(Drop)]
struct ReadLink<'m>(Marks<'m>);

impl Work for ReadLink<'_> {
    type Answer = Link;

    fn work<S: Alter>(
        self,
        rt: &HostRuntime,
        archive: Store<S>,
    ) -> (Connection<S>, Result<Link, Failure>) {
        let mut archive = archive;
        let beginning = match beginning_in(rt, &mut archive) {
            Ok(beginning) => beginning,
            Err(failure) => return (archive.into_connection(), Err(failure)),
        };
        match open_history(rt, archive) {
            Ok(Opened::Noted(noted)) => {
                let mut noted = noted;
                let met = self.0.look_in(rt, &mut noted);
                let connection = noted.into_store().into_connection();
                match met {
                    Ok(Met { lacks_next, .. }) => {
                        let link = Link {
                            beginning,
                            lacks_next,
                        };
                        (connection, Ok(link))
                    }
                    Err(failure) => (connection, Err(failure)),
                }
            }
            Ok(Opened::Plain(archive)) => {
                let link = Link {
                    beginning,
                    lacks_next: self.0.nowhere().lacks_next,
                };
                (archive.into_connection(), Ok(link))
            }
            Err((archive, failure)) => (archive.into_connection(), Err(failure)),
        }
    }
}

/// Finds that each volume goes on from the one before, as `check` does, from the last one down: of each that has a history. `BadData` where
/// one of the volumes beside another may be of another archive: where it lacks the mark after which the next one began, or is not the first
/// and names no mark.
pub fn judge_chain<A: Archives>(
    rt: &HostRuntime,
    archives: &A,
    volumes: Volumes<'_>,
) -> Result<(), Failure> {
    let mut next: Option<Vec<u8>> = None;
    for later in 0..volumes.last {
        let volume = volumes.last - later;
        let marks = Marks {
            head: None,
            next: mark_of(&next),
        };
        let Link {
            beginning,
            lacks_next,
        } = volumes.lend(rt, archives, volume, ReadLink(marks))?;
        if lacks_next {
            return Err(Failure::shown(Status::BadData, broken_words(rt.alloc(), volume)));
        }
        next = match beginning {
            Beginning::After(mark) => Some(mark),
            Beginning::Alone if volume > 1 => {
                return Err(Failure::shown(Status::BadData, alone_words(rt.alloc(), volume)));
            }
            Beginning::Nowhere | Beginning::Alone => None,
        };
    }
    Ok(())
}
