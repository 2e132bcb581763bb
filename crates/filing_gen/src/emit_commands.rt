//! Writes the code of commands, one after the other.

ghost use Rattle.std.specs.Prelude.{◌≡◌, ◌<◌, ◌^◌, [], length, OnOk, false, if◌then◌else◌};
ghost use Rattle.std.specs.List.{All};
ghost use Rattle.sieve_syntax.specs.View.{command_of, ending_of};
ghost use Rattle.sieve_meaning.specs.Reading.{block_in};
ghost use Rattle.filing_flow.specs.Structure.{size, FileInto};
ghost use Rattle.filing_gen.specs.BlockCode.{flow, copy_number};
ghost use Rattle.filing_gen.specs.Adds.{HasRoom, EmitsAnywhere, EmitsReturning};
ghost use Rattle.filing_gen.specs.Emission.{commands_long, plain_long, part_long, plain_flow, is_apart, EmitsOpen, file_flow};
ghost use Rattle.filing_gen.specs.Ends.{with_jumps};
ghost use Rattle.sieve_meaning.specs.declared.branches.BranchPart.TheVariants as parts;
ghost use Rattle.sieve_library.specs.Libraries.{listed_program};

use crate::emit_tests::emit_only;
use crate::ends::{NO_PLACE, end_branches};
use crate::linker::Linker;
use crate::output::{Output, put, put_at, text_operand};
use filing_image::Operation;
use sieve_meaning::branches::{BranchPart, is_branch, part_in};
use sieve_meaning::reading::{first_string, has_tag, include};
use sieve_meaning::{CommandWord, command_word};
use sieve_syntax::{Argument, Command, Ending};
use std::alloc::{AllocError, Global};

/// The first operand of `File`: 1 for a copy, and 0 to cancel the implicit keep (RFC 3894, section 3).
fn copy_code(is_copy: bool) -> u8
    ensures { result ≡ copy_number is_copy }
{
    if is_copy { 1 } else { 0 }
}

/// Writes `fileinto`: one operation, which names the path by its place among the texts.
fn emit_file(out: &mut Output, arguments: &[Argument]) -> Result<(), AllocError>
    requires { HasRoom out.old 1 }
    ensures adds { OnOk result (EmitsAnywhere out.old out.new (file_flow arguments.now)) }
{
    let place = text_operand(out, first_string(arguments))?;
    let how = copy_code(has_tag(arguments, b"copy"));
    put(out, Operation::File(how, place))
}

/// Writes a command that has no block. `keep`, `discard`, `stop` and `fileinto` are one operation each, `return` is a
/// jump to the place `back`, and for an `include` the linker writes the code. `require` has no code, nor has an `elsif`
/// or `else` that continues no `if`.
fn emit_plain<L: Linker>(
    alloc: Global,
    linker: &L,
    out: &mut Output,
    word: CommandWord,
    arguments: &[Argument],
    back: u16,
) -> Result<(), AllocError>
    requires { HasRoom out.old
        (plain_long (λ i. size (L.flow_of linker.now i)) word arguments.now) }
    ensures adds { OnOk result (EmitsReturning out.old out.new back
        (λ n. plain_flow (L.flow_of linker.now) n word arguments.now)) }
{
    match word {
        CommandWord::Keep => put(out, Operation::Keep),
        CommandWord::Discard => put(out, Operation::Discard),
        CommandWord::Stop => put(out, Operation::Stop),
        CommandWord::Return => put(out, Operation::Jump(back)),
        CommandWord::FileInto => emit_file(out, arguments),
        CommandWord::Include => linker.emit(alloc, out, &include(arguments)),
        CommandWord::Require
        | CommandWord::If
        | CommandWord::ElsIf
        | CommandWord::Else
        | CommandWord::Other => Ok(()),
    }
}

/// Writes the commands of a block.
#[cycle(emission)]
fn emit_block<L: Linker>(
    alloc: Global,
    linker: &L,
    out: &mut Output,
    ending: &Ending,
    back: u16,
) -> Result<(), AllocError>
    requires { HasRoom out.old
        (commands_long (λ i. size (L.flow_of linker.now i)) (block_in (ending_of ending.now))) }
    ensures adds { OnOk result (EmitsReturning out.old out.new back
        (λ n. flow (L.flow_of linker.now) n (block_in (ending_of ending.now)))) }
{
    match ending {
        Ending::Semicolon => Ok(()),
        Ending::Block(commands) => emit_commands(alloc, linker, out, commands, back),
    }
}

/// Writes a branch: its test, a jump past it where the test is false, its block, and a jump to the end of all branches.
/// The place of this last jump is added to `jumps`, which has those of the branches before it.
#[cycle(emission)]
fn emit_branch<L: Linker>(
    alloc: Global,
    linker: &L,
    out: &mut Output,
    command: &Command,
    jumps: &mut Vec<usize>,
    back: u16,
) -> Result<(), AllocError>
    requires room { HasRoom out.old
        (part_long (λ i. size (L.flow_of linker.now i)) parts.Branch (command_of command.now)) }
    requires places { All (λ p. p < length out.old.code.items) jumps.old.items }
    ensures adds { OnOk result
        (EmitsOpen (L.flow_of linker.now) back parts.Branch
        (command_of command.now) out.old jumps.old.items out.new jumps.new.items) }
    ensures places { OnOk result (All (λ p. p < length out.new.code.items) jumps.new.items) }
{
    emit_only(alloc, out, &command.tests)?;
    let past = out.code.len();
    put(out, Operation::JumpUnless(NO_PLACE))?;
    emit_block(alloc, linker, out, &command.ending, back)?;
    let last = out.code.len();
    put_at(out, past, Operation::JumpUnless((last + 1) as u16));
    jumps.push(last)?;
    put(out, Operation::Jump(NO_PLACE))
}

/// Writes a command by its part: a branch, the block of an `else`, or a command that has no block.
#[cycle(emission)]
fn emit_part<L: Linker>(
    alloc: Global,
    linker: &L,
    out: &mut Output,
    command: &Command,
    part: BranchPart,
    jumps: &mut Vec<usize>,
    back: u16,
) -> Result<(), AllocError>
    requires room { HasRoom out.old
        (part_long (λ i. size (L.flow_of linker.now i)) part (command_of command.now)) }
    requires places { All (λ p. p < length out.old.code.items) jumps.old.items }
    ensures adds { OnOk result
        (EmitsOpen (L.flow_of linker.now) back part
        (command_of command.now) out.old jumps.old.items out.new jumps.new.items) }
    ensures places { OnOk result (All (λ p. p < length out.new.code.items) jumps.new.items) }
{
    match part {
        BranchPart::Branch => emit_branch(alloc, linker, out, command, jumps, back),
        BranchPart::Otherwise => emit_block(alloc, linker, out, &command.ending, back),
        BranchPart::Plain => {
            let word = command_word(command.name.as_slice());
            emit_plain(alloc, linker, out, word, command.arguments.as_slice(), back)
        }
    }
}

/// Ends the open branches where the next command does not continue them: an `if`, or a plain command.
fn end_before(out: &mut Output, jumps: &mut Vec<usize>, word: CommandWord, part: BranchPart)
    requires room { length out.old.code.items < 2 ^ 16 }
    requires places { All (λ p. p < length out.old.code.items) jumps.old.items }
    ensures out { out.new ≡ (if is_apart word part then with_jumps
        (length out.old.code.items) jumps.old.items out.old else out.old) }
    ensures jumps { jumps.new.items ≡ (if is_apart word part then [] else jumps.old.items) }
{
    match (word, part) {
        (CommandWord::If, _) | (_, BranchPart::Plain) => end_branches(out, jumps),
        (_, BranchPart::Branch | BranchPart::Otherwise) => {}
    }
}

/// Writes commands, one after the other; `return` jumps to the place `back`. The jumps at the ends of branches get
/// their target once the last branch is written. The only error is a refused allocation.
#[cycle(emission)]
pub fn emit_commands<L: Linker>(
    alloc: Global,
    linker: &L,
    out: &mut Output,
    commands: &Vec<Command>,
    back: u16,
) -> Result<(), AllocError>
    requires { HasRoom out.old
        (commands_long (λ i. size (L.flow_of linker.now i)) (listed_program commands.now.items)) }
    ensures adds { OnOk result (EmitsReturning out.old out.new back
        (λ n. flow (L.flow_of linker.now) n (listed_program commands.now.items))) }
{
    let mut jumps = Vec::new(alloc);
    // Whether an `elsif` or `else` would continue the commands before it.
    let mut is_open = false;
    for command in commands {
        let word = command_word(command.name.as_slice());
        let part = part_in(word, is_open);
        end_before(out, &mut jumps, word, part);
        emit_part(alloc, linker, out, command, part, &mut jumps, back)?;
        is_open = is_branch(part);
    }
    end_branches(out, &mut jumps);
    Ok(())
}
