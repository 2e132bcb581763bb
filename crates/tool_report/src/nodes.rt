//! The commands and tests of a script in one list: a command, then its tests, then its block. Its order is that of
//! `tool_places::heads`.

ghost use Rattle.std.specs.Prelude.{◌≡◌, ℕ, ◌<◌, List, ◌++◌, ◌∷◌, [], length, map, OnOk, IfOk};
ghost use Rattle.sieve_syntax.specs.View.{test_of, inner_of, command_of, ending_of, commands_of, tree_of};
ghost use Rattle.tool_places.specs.Heads.{commands_names};
ghost use Rattle.tool_report.specs.Nodes.{node_names, node_entries, Part, PartWithEnd, part_of, with_inside, test_entries, inner_entries, command_entries, ending_entries, commands_entries};

use sieve_syntax::{Command, Ending, Script, Test, Tests};
use std::alloc::{AllocError, Global};

/// A command or a test.
#[derive(Clone, Copy, Drop)]
pub enum Thing<'a> {
    Command(&'a Command),
    Test(&'a Test),
}

/// A command or a test, and where the list goes on after all that is inside it.
#[derive(Clone, Copy, Drop)]
pub struct Node<'a> {
    pub thing: Thing<'a>,
    /// The number of the first node after those that are inside this one.
    pub end: usize,
}

/// Adds a node, whose end is not known yet. Answers its number.
fn begin<'a>(nodes: &mut Vec<Node<'a>>, thing: Thing<'a>) -> Result<usize, AllocError>
    ensures entries { OnOk result (node_entries nodes.new.items
        ≡ node_entries nodes.old.items ++ (part_of thing.entry, length nodes.old.items) ∷ []) }
    ensures number { IfOk result (λ n. n ≡ length nodes.old.items) }
{
    let number = nodes.len();
    nodes.push(Node { thing, end: number })?;
    Ok(number)
}

/// Sets the end of a node to the end of the list.
fn end(nodes: &mut Vec<Node<'_>>, number: usize)
    ensures { (before inside : List PartWithEnd) (part : Part) (n : ℕ)
        → node_entries nodes.old.items ≡ before ++ (part, n) ∷ inside
        → number ≡ length before
        → node_entries nodes.new.items ≡ before ++ with_inside part number inside }
{
    let count = nodes.len();
    if number < count {
        let thing = nodes[number].thing;
        nodes[number] = Node { thing, end: count };
    }
}

/// Adds a test and all that is inside it.
#[cycle(tests)]
fn add_test<'a>(nodes: &mut Vec<Node<'a>>, test: &'a Test) -> Result<(), AllocError>
    ensures { OnOk result (node_entries nodes.new.items ≡ node_entries nodes.old.items
        ++ test_entries (test_of test.now) (length nodes.old.items)) }
{
    let number = begin(nodes, Thing::Test(test))?;
    add_tests(nodes, &test.tests)?;
    end(nodes, number);
    Ok(())
}

/// Adds the tests of a command or of a test.
#[cycle(tests)]
fn add_tests<'a>(nodes: &mut Vec<Node<'a>>, tests: &'a Tests) -> Result<(), AllocError>
    ensures { OnOk result (node_entries nodes.new.items ≡ node_entries nodes.old.items
        ++ inner_entries (inner_of tests.now) (length nodes.old.items)) }
{
    match tests {
        Tests::None => Ok(()),
        Tests::One(test) => add_test(nodes, test),
        Tests::Listed(list) => {
            add_test(nodes, &list.first)?;
            for test in list.others.as_slice() {
                add_test(nodes, test)?;
            }
            Ok(())
        }
    }
}

/// Adds a command and all that is inside it.
#[cycle(commands)]
fn add_command<'a>(nodes: &mut Vec<Node<'a>>, command: &'a Command) -> Result<(), AllocError>
    ensures { OnOk result (node_entries nodes.new.items ≡ node_entries nodes.old.items
        ++ command_entries (command_of command.now) (length nodes.old.items)) }
{
    let number = begin(nodes, Thing::Command(command))?;
    add_tests(nodes, &command.tests)?;
    add_ending(nodes, &command.ending)?;
    end(nodes, number);
    Ok(())
}

/// Adds the block that a command ends with, if there is one.
#[cycle(commands)]
fn add_ending<'a>(nodes: &mut Vec<Node<'a>>, ending: &'a Ending) -> Result<(), AllocError>
    ensures { OnOk result (node_entries nodes.new.items ≡ node_entries nodes.old.items
        ++ ending_entries (ending_of ending.now) (length nodes.old.items)) }
{
    match ending {
        Ending::Semicolon => Ok(()),
        Ending::Block(commands) => add_commands(nodes, commands),
    }
}

/// Adds commands in order.
#[cycle(commands)]
fn add_commands<'a>(nodes: &mut Vec<Node<'a>>, commands: &'a Vec<Command>) -> Result<(), AllocError>
    ensures { OnOk result (node_entries nodes.new.items ≡ node_entries nodes.old.items
        ++ commands_entries (commands_of (map command_of commands.now.items))
        (length nodes.old.items)) }
{
    for command in commands {
        add_command(nodes, command)?;
    }
    Ok(())
}

/// The commands and tests of a script, in the order of the text, each with the number of the first one after those that
/// are inside it. The only error is out of memory.
pub fn nodes_of(alloc: Global, script: &Script) -> Result<Vec<Node<'_>>, AllocError>
    ensures entries { IfOk result
        (λ v. node_entries v.items ≡ commands_entries (tree_of script.now) 0) }
    ensures names { IfOk result (λ v. node_names v.items ≡ commands_names (tree_of script.now)) }
{
    let mut nodes = Vec::new(alloc);
    add_commands(&mut nodes, &script.commands)?;
    Ok(nodes)
}
