//! Goes over the commands of a script in text order, up to the first faulty one.

ghost use Rattle.std.specs.Prelude.{◌≡◌, IfOk};
ghost use Rattle.sieve_syntax.specs.View.{command_of, ending_of, tree_of};
ghost use Rattle.sieve_check.specs.Rules.{command_in_order, ending_in_order, role_of, is_branch, command_name, refusal_of};
ghost use Rattle.sieve_check.specs.Lookup.{command_named};
ghost use Rattle.sieve_check.specs.Walk.{walk, context_view, passed_view, refusal_view};

use crate::command_faults::command_fault;
use crate::context::Context;
use crate::fault::CheckFault;
use crate::lookup::find_command;
use sieve_syntax::{Command, Ending, Script};

/// What is known after a command and its block, and whether another branch may follow.
#[cycle(walking)]
fn pass_command(
    command: &Command,
    context: Context,
    follows_branch: bool,
) -> Result<(Context, bool), CheckFault>
    ensures value { passed_view result
        ≡ walk context (command_in_order follows_branch (command_of command.now)) }
    ensures branch { IfOk result (λ x. x.1 ≡
        is_branch (role_of (command_named (command_name (command_of command.now))))) }
{
    let Some(row) = find_command(command.name.as_slice()) else {
        return Err(CheckFault::UnknownCommand);
    };
    if let Some(fault) = command_fault(context, row, command, follows_branch) {
        return Err(fault);
    }
    let following = context.after(row.role.is_require(), &command.arguments);
    let context = pass_ending(&command.ending, following)?;
    Ok((context, row.role.is_branch()))
}

/// What is known after the block of a command, if it has one.
#[cycle(walking)]
fn pass_ending(ending: &Ending, context: Context) -> Result<Context, CheckFault>
    ensures { context_view result ≡ walk context (ending_in_order (ending_of ending.now)) }
{
    match ending {
        Ending::Semicolon => Ok(context),
        Ending::Block(commands) => {
            let mut known = context;
            let mut follows_branch = false;
            for command in commands.as_slice() {
                let (following, is_branch) = pass_command(command, known, follows_branch)?;
                known = following;
                follows_branch = is_branch;
            }
            Ok(known)
        }
    }
}

/// The refusal of a script, if it has one.
pub fn pass_script(script: &Script) -> Result<(), CheckFault>
    ensures { refusal_view result ≡ refusal_of (tree_of script.now) }
{
    let mut known = Context::start();
    let mut follows_branch = false;
    for command in &script.commands {
        let (following, is_branch) = pass_command(command, known, follows_branch)?;
        known = following;
        follows_branch = is_branch;
    }
    Ok(())
}
