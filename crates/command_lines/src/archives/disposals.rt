//! What a command line asks of a disposal beside its records.

ghost use Rattle.std.specs.Prelude.{IfOk};
ghost use Rattle.clap.specs.Matches.{found_of};
ghost use Rattle.command_lines.specs.Changes.{IsDamage};

use super::names;
use crate::reading::{NoCommand, has_flag};
use clap::ArgMatches;
use std::alloc::Global;

/// Whether records are destroyed too whose messages are not the ones that were captured. Refused where none is destroyed.
pub(super) fn damage_asked(alloc: Global, asked: &ArgMatches<'_>) -> Result<bool, NoCommand>
    ensures { IfOk result (IsDamage (found_of asked.now)) }
{
    let is_damaged = has_flag(asked, names::DAMAGED);
    if is_damaged && !has_flag(asked, names::YES) {
        let reason = "--damaged needs --yes; without it records are only listed";
        return Err(NoCommand::refused(alloc, reason));
    }
    Ok(is_damaged)
}
