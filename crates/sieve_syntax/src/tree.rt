//! The tree of a script (RFC 5228, section 8.2). It records what strings were written in brackets, and what tests in
//! parentheses.

ghost use Rattle.std.specs.Prelude.{◌≡◌, [], IfOk};
ghost use Rattle.sieve_syntax.specs.Arguments.{strings_of, others_of, first_of};

use crate::string_text::{StringText, StringTexts};
use crate::text::Text;
use std::alloc::{AllocError, Global};
use std::marker::Model;
use std::slice;

/// One string, or a list in brackets, which has a first string and perhaps others.
#[derive(Drop)]
pub enum StringList {
    One(StringText),
    Listed(StringText, StringTexts),
}

impl StringList {
    /// The only string, or the first one of the list.
    pub fn first(&self) -> &StringText
        ensures { result.now ≡ first_of self.now }
    {
        match self {
            StringList::One(first) | StringList::Listed(first, _) => first,
        }
    }

    /// The strings after the first one.
    pub fn others(&self) -> &[StringText]
        ensures { result.now ≡ others_of self.now }
    {
        match self {
            StringList::One(_) => &[],
            StringList::Listed(_, others) => others.as_slice(),
        }
    }
}

/// An argument, which comes between a name and its tests (RFC 5228, section 2.6).
#[derive(Drop)]
pub enum Argument {
    Strings(StringList),
    /// A number with its factor multiplied in: at most 2^63 - 1.
    Number(u64),
    /// The name after the colon, as written.
    Tag(Text),
}

/// How arguments are stored.
#[derive(Drop)]
enum ArgumentList {
    None,
    One(Box<Argument>),
    Many(Box<Vec<Argument>>),
}

/// Arguments in order. No arguments need no allocation. Contracts see a list.
#[derive(Drop)]
pub struct Arguments {
    items: ArgumentList,
}

impl Model for Arguments {
    ghost use Rattle.std.specs.Prelude.{List};
    ghost use Rattle.sieve_syntax.specs.declared.tree.Argument.{Argument};

    ghost Value = { List Argument };

    ghost use Rattle.sieve_syntax.specs.ArgumentItems.{arguments_in};

    ghost view = { λ a. arguments_in a.items };
}

impl Arguments {
    /// No arguments; needs no allocation.
    pub fn none() -> Arguments
        ensures { result ≡ [] }
    {
        Arguments {
            items: ArgumentList::None,
        }
    }

    /// These arguments, in order, without spare capacity. Fails only if memory runs out.
    pub fn from_vec(alloc: Global, mut items: Vec<Argument>) -> Result<Arguments, AllocError>
        ensures { IfOk result (λ a. a ≡ items.items) }
    {
        if items.len() > 1 {
            items.shrink_to_fit();
            return Ok(Arguments {
                items: ArgumentList::Many(Box::new(alloc, items)?),
            });
        }
        let Some(only) = items.pop() else {
            return Ok(Arguments::none());
        };
        Ok(Arguments {
            items: ArgumentList::One(Box::new(alloc, only)?),
        })
    }

    /// The arguments, in order.
    pub fn as_slice(&self) -> &[Argument]
        ensures { result.now ≡ self.now }
    {
        match &self.items {
            ArgumentList::None => &[],
            ArgumentList::One(only) => slice::from_ref(only),
            ArgumentList::Many(items) => items.as_slice(),
        }
    }
}

/// A test: its name as written, its arguments, and its inner tests.
#[cycle(tests)]
#[derive(Drop)]
pub struct Test {
    pub name: Text,
    pub arguments: Arguments,
    pub tests: Tests,
}

/// The tests of a command or of a test.
#[cycle(tests)]
#[derive(Drop)]
pub enum Tests {
    None,
    /// One test outside parentheses.
    One(Box<Test>),
    /// Tests in parentheses.
    Listed(Box<TestList>),
}

/// The tests of a list in parentheses, which has a first test and perhaps others.
#[cycle(tests)]
#[derive(Drop)]
pub struct TestList {
    pub first: Test,
    pub others: Vec<Test>,
}

/// A command: its name as written, its arguments, its tests, and its ending.
#[cycle(commands)]
#[derive(Drop)]
pub struct Command {
    pub name: Text,
    pub arguments: Arguments,
    pub tests: Tests,
    pub ending: Ending,
}

/// How a command ends: with a semicolon, or with a block of commands.
#[cycle(commands)]
#[derive(Drop)]
pub enum Ending {
    Semicolon,
    Block(Box<Vec<Command>>),
}

/// A whole script: its commands, in order.
#[derive(Drop)]
pub struct Script {
    pub commands: Vec<Command>,
}
