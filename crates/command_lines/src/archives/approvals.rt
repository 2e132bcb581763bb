//! What a command line says of the records that were approved for destruction.

ghost use Rattle.std.specs.Prelude.{◌≡◌, IfOk};
ghost use Rattle.clap.specs.Matches.{found_of};
ghost use Rattle.command_lines.specs.Changes.{is_of_all, IsApproved};

use super::{Disposal, names};
use crate::reading::{NoCommand, value_of};
use crate::table::{OPTION, Stray, StrayKind, Word};
use choice_words::VolumeNumbers;
use clap::ArgMatches;
use std::alloc::Global;

/// The file of the numbers that were approved for destruction.
pub const APPROVED: Word = Word {
    name: names::APPROVED,
    value: "FILE",
    help: Some(
        "The records whose numbers stand in this file, as list --numbers prints them, in place of numbers here; - for standard input; a file without any number is refused",
    ),
    ..OPTION
};

/// What is said of arguments that are none of a subcommand's.
pub const STRAYS: &[Stray] = &[
    Stray {
        subcommand: "dispose",
        kind: StrayKind::Shared,
        said: "dispose takes numbers; list finds them, and --approved takes them from a file",
    },
    Stray {
        subcommand: "deliver",
        kind: StrayKind::Place,
        said: "the message comes on standard input; type < before the name of its file",
    },
];

/// The destruction of what is due, as it is typed. Numbers of an archive in one file have no volume, and those of an archive of
/// volumes have one; which of the two is right, the archive says.
#[derive(Drop)]
pub struct TypedDisposal {
    /// What is typed, and the numbers without a volume.
    pub alone: Disposal,
    /// The numbers with a volume.
    pub of_volumes: Vec<VolumeNumbers>,
}

impl TypedDisposal {
    /// Whether no number is typed, with a volume or without.
    fn is_of_all(&self) -> bool
        ensures { result ≡ is_of_all self.now }
    {
        self.alone.numbers.is_empty() && self.of_volumes.is_empty()
    }
}

/// What is asked of the destruction of what is due.
#[derive(Drop)]
pub struct DisposalAsked<'a> {
    pub typed: TypedDisposal,
    /// The path of the file of the numbers that are meant, `-` for standard input. Where there is one, no number is typed.
    pub approved: Option<&'a str>,
}

/// What is to be destroyed, as it is typed, with the file of what was approved. Numbers beside that are refused.
pub(super) fn approved_asked<'a>(
    alloc: Global,
    asked: &ArgMatches<'a>,
    typed: TypedDisposal,
) -> Result<DisposalAsked<'a>, NoCommand>
    ensures typed { IfOk result (λ a. a.typed ≡ typed) }
    ensures approved { IfOk result (IsApproved (found_of asked.now)) }
{
    let approved = value_of(asked, names::APPROVED);
    if approved.is_some() && !typed.is_of_all() {
        let reason = "--approved takes the numbers from its file; type none beside it";
        return Err(NoCommand::refused(alloc, reason));
    }
    Ok(DisposalAsked { typed, approved })
}
