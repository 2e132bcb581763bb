//! The names of the scripts that a script includes, each once, in the order in which the script names them.

ghost use Rattle.std.specs.Prelude.{◌≡◌, map, IfOk, OnOk};
ghost use Rattle.std.specs.List.{list_any};
ghost use Rattle.sieve_syntax.specs.View.{command_of, ending_of};
ghost use Rattle.sieve_meaning.specs.Reading.{block_in};
ghost use Rattle.sieve_meaning.specs.Meaning.{same_script, script_named};
ghost use Rattle.sieve_meaning.specs.Scripts.{include_view, script_of};
ghost use Rattle.filing_procedures.specs.IncludedScripts.{with_name, with_part, with_included, names_there};
ghost use Rattle.sieve_library.specs.BorrowedShelves.{library_on};
ghost use Rattle.sieve_library.specs.Libraries.{program_in, listed_program};

use crate::slots::find_script;
use sieve_library::Shelves;
use sieve_meaning::branches::{BranchPart, is_branch, part_in};
use sieve_meaning::reading::include;
use sieve_meaning::{CommandWord, Include, ScriptName, command_word};
use sieve_syntax::{Command, Ending, Script};
use std::alloc::{AllocError, Global};

/// Whether a name is among these.
fn is_listed(names: &[ScriptName<'_>], name: &ScriptName<'_>) -> bool
    ensures { result
        ≡ list_any (λ t. same_script t (script_of name.now)) (map script_of names.now) }
{
    names.iter().any(|other| other.is_same(name))
}

/// Adds the name of an include, if its script is there and it is none of these.
fn add_include<'a>(
    shelves: Shelves<'_>,
    include: Include<'a>,
    names: &mut Vec<ScriptName<'a>>,
) -> Result<(), AllocError>
    ensures { OnOk result (map script_of names.new.items ≡ with_name (library_on shelves.entry)
        (map script_of names.old.items) (script_named (include_view include.entry))) }
{
    if find_script(shelves, &include.script).is_some() && !is_listed(names, &include.script) {
        names.push(include.script)?;
    }
    Ok(())
}

/// Adds the names that a block includes.
#[cycle(inclusion)]
fn add_block<'a>(
    shelves: Shelves<'_>,
    ending: &'a Ending,
    names: &mut Vec<ScriptName<'a>>,
) -> Result<(), AllocError>
    ensures { OnOk result (map script_of names.new.items ≡ with_included (library_on shelves.entry)
        (block_in (ending_of ending.now)) (map script_of names.old.items)) }
{
    match ending {
        Ending::Semicolon => Ok(()),
        Ending::Block(commands) => add_commands(shelves, commands, names),
    }
}

/// Adds the names that a command includes, by its part.
#[cycle(inclusion)]
fn add_part<'a>(
    shelves: Shelves<'_>,
    command: &'a Command,
    part: BranchPart,
    names: &mut Vec<ScriptName<'a>>,
) -> Result<(), AllocError>
    ensures { OnOk result (map script_of names.new.items ≡ with_part (library_on shelves.entry) part
        (command_of command.now) (map script_of names.old.items)) }
{
    match part {
        BranchPart::Branch | BranchPart::Otherwise => add_block(shelves, &command.ending, names),
        BranchPart::Plain => match command_word(command.name.as_slice()) {
            CommandWord::Include => {
                add_include(shelves, include(command.arguments.as_slice()), names)
            }
            _ => Ok(()),
        },
    }
}

/// Adds the names that commands include.
#[cycle(inclusion)]
fn add_commands<'a>(
    shelves: Shelves<'_>,
    commands: &'a Vec<Command>,
    names: &mut Vec<ScriptName<'a>>,
) -> Result<(), AllocError>
    ensures { OnOk result (map script_of names.new.items ≡ with_included (library_on shelves.entry)
        (listed_program commands.now.items) (map script_of names.old.items)) }
{
    let mut is_open = false;
    for command in commands {
        let part = part_in(command_word(command.name.as_slice()), is_open);
        add_part(shelves, command, part, names)?;
        is_open = is_branch(part);
    }
    Ok(())
}

/// The names of the scripts that a script includes and that are there. There are at most sixty-four. The only error is a
/// refused allocation.
pub fn included_scripts<'a>(
    alloc: Global,
    shelves: Shelves<'_>,
    script: &'a Script,
) -> Result<Vec<ScriptName<'a>>, AllocError>
    ensures { IfOk result (λ names. map script_of names.items
        ≡ names_there (library_on shelves.entry) (program_in script.now)) }
{
    let mut names = Vec::new(alloc);
    add_commands(shelves, &script.commands, &mut names)?;
    Ok(names)
}
