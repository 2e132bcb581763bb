//! Titles of classes, which the history of an archive keeps.

ghost use Rattle.std.specs.Prelude.{OnOk};
ghost use Rattle.cli_tasks.specs.Works.{IsLent};

use crate::archives::{Archives, Work, lend};
use cli_changes::{read_titles, set_titles};
use cli_console::{Failure, tell_words, write_text};
use cli_history::Author;
use record_store::Store;
use sqlite::{Alter, Connection};
use tool_texts::Shown;

/// Gives classes the titles of a file. Answers a line for each that has another one now.
#[derive(Drop)]
pub struct SetTitles<'a, 't> {
    pub author: Author<'a>,
    /// The path of the file, and what it has.
    pub path: &'t str,
    pub text: &'t [u8],
}

impl Work for SetTitles<'_, '_> {
    type Answer = Shown;

    fn work<S: Alter>(
        self,
        rt: &HostRuntime,
        archive: Store<S>,
    ) -> (Connection<S>, Result<Shown, Failure>) {
        let (archive, done) = set_titles(rt, archive, &self.author, self.path, self.text);
        (archive.into_connection(), done)
    }
}

/// Says that no class has another title now, where that is so.
pub fn tell_none(rt: &HostRuntime, is_any: bool) {
    if !is_any {
        tell_words(
            rt,
            "each of these classes has this title and this basis already",
        );
    }
}

/// Gives classes the titles of the file at a path, and writes which have another one now. `BadData` where the file gives no
/// titles, and where the store has no history.
pub fn give_titles<A: Archives>(
    rt: &HostRuntime,
    archives: &A,
    store: &str,
    path: &str,
    author: Author<'_>,
) -> Result<(), Failure>
    ensures { OnOk result (IsLent (A.is_at archives.now store.now)) }
{
    author.named(rt)?;
    let text = read_titles(rt, path)?;
    let work = SetTitles {
        author,
        path,
        text: text.as_slice(),
    };
    let lines = lend(rt, archives, store, work)?;
    tell_none(rt, !lines.as_str().is_empty());
    write_text(rt, &lines)
}
