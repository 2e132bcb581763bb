//! Command lines as data: a program's subcommands with their words, which `clap` reads.
//!
//! `clap` makes and drops many values for each argument that is added, so it is called by a few functions here, once for
//! all programs, each of which has a table.

ghost use Rattle.std.specs.Prelude.{◌≡◌, ◌++◌, [], IfOk, map, OnOk};
ghost use Rattle.clap.specs.Simple.{app_of, shape_of};
ghost use Rattle.clap.specs.Walk.{rule_of};
ghost use Rattle.command_lines.specs.declared.table.Values.TheVariants.{Plain};
ghost use Rattle.command_lines.specs.Tables.{action_by, app_alone, app_of_table, argument_of_word, described_in, formed as formed_as, shape_of_table, shared_by, with_conflict, with_need};

use clap::{Arg, ArgAction, Command};
use std::alloc::{AllocError, Global};

/// How a word stands on a command line.
#[derive(Clone, Copy)]
pub enum Form {
    /// A value, by its place.
    Place,
    /// One value or more, by their place.
    Places,
    /// A value after two hyphens and the word's name.
    Option,
    /// A value after a hyphen and this letter.
    Letter(char),
    /// Two hyphens and the word's name, without a value.
    Flag,
}

/// A word of a subcommand.
#[derive(Clone, Copy)]
pub struct Word {
    /// What the program asks for it by.
    pub name: &'static str,
    pub form: Form,
    /// What its value is called where it is shown; unused for a flag.
    pub value: &'static str,
    pub is_required: bool,
    /// The name of a word beside which a required one need not be given, if there is one.
    pub substitute: Option<&'static str>,
    /// What the word is for, if that is told.
    pub help: Option<&'static str>,
    /// The name of a word that may not stand beside it, if there is one.
    pub conflict: Option<&'static str>,
    /// Whether what follows an option is its value also where that begins with a hyphen.
    pub takes_hyphens: bool,
}

/// A word by its place, which must be given, and of which nothing is told.
pub const PLACE: Word = Word {
    name: "",
    form: Form::Place,
    value: "",
    is_required: true,
    substitute: None,
    help: None,
    conflict: None,
    takes_hyphens: false,
};

/// An option that can be left out.
pub const OPTION: Word = Word {
    form: Form::Option,
    is_required: false,
    ..PLACE
};

/// A flag.
pub const FLAG: Word = Word {
    form: Form::Flag,
    is_required: false,
    ..PLACE
};

/// A subcommand.
#[derive(Clone, Copy)]
pub struct Subcommand {
    pub name: &'static str,
    /// What it does.
    pub about: &'static str,
    /// What stands after its help.
    pub example: &'static str,
    /// Its words, in the order in which they are shown.
    pub words: &'static [Word],
    /// Whether the shared words of its program come after them.
    pub has_shared: bool,
}

/// The version of the programs.
pub const VERSION: &str = "0.1.0";

/// What may be typed for an option that has another name. Both are written with their hyphens.
#[derive(Clone, Copy)]
pub struct Hint {
    pub typed: &'static str,
    /// The option, where the subcommand has it.
    pub meant: &'static str,
}

/// Which arguments that are none of a subcommand's have something said of them.
#[derive(Clone, Copy)]
pub enum StrayKind {
    /// The options that other subcommands of the program share.
    Shared,
    /// A word that is no option.
    Place,
}

/// What is said of arguments that are none of a subcommand's.
#[derive(Clone, Copy)]
pub struct Stray {
    /// The name of the subcommand.
    pub subcommand: &'static str,
    pub kind: StrayKind,
    pub said: &'static str,
}

/// The command line of a program, which always has a subcommand.
///
/// Its subcommands are in groups, each of which a function hands over: a function that names a whole large table takes too
/// long to prove.
#[derive(Drop)]
pub struct Program {
    /// As it is started, and as its help names it.
    pub name: &'static str,
    /// What it does.
    pub about: &'static str,
    /// Its subcommands, in the order in which they are shown.
    pub groups: Vec<&'static [Subcommand]>,
    /// The words that several of them have.
    pub shared: &'static [Word],
    pub hints: &'static [Hint],
    pub strays: &'static [Stray],
}

/// Which words can be values.
#[derive(Clone, Copy)]
pub enum Values {
    /// Those that do not begin with a hyphen.
    Plain,
    /// A number with a sign too, which its own reason refuses, and what follows an option that takes hyphens.
    Signed,
}

/// An argument in the form of a word.
fn formed<'a>(alloc: Global, word: &Word) -> Arg<'a>
    ensures { rule_of result ≡ formed_as word.now.form word.now.name.now }
{
    let argument = Arg::new(alloc, word.name).action(action_of(word.form));
    match word.form {
        Form::Place => argument.value_name(word.value),
        Form::Places => argument.value_name(word.value).num_args(1..),
        Form::Option => argument.value_name(word.value).long(word.name),
        Form::Letter(letter) => argument.value_name(word.value).short(letter),
        Form::Flag => argument.long(word.name),
    }
}

/// What is done with each value of a word.
fn action_of(form: Form) -> ArgAction
    ensures { result ≡ action_by form }
{
    match form {
        Form::Place | Form::Option | Form::Letter(_) => ArgAction::Set,
        Form::Places => ArgAction::Append,
        Form::Flag => ArgAction::SetTrue,
    }
}

/// An argument with what is told of a word.
fn helped<'a>(argument: Arg<'a>, word: &Word) -> Arg<'a>
    ensures { rule_of result ≡ rule_of argument.entry }
{
    match word.help {
        Some(help) => argument.help(help),
        None => argument,
    }
}

/// An argument that has to be given where a word has to be.
fn needed<'a>(argument: Arg<'a>, word: &Word) -> Result<Arg<'a>, AllocError>
    ensures { IfOk result (λ r.
        rule_of r ≡ with_need word.now.substitute word.now.is_required (rule_of argument.entry)) }
{
    match word.substitute {
        Some(name) => argument.required_unless_present(name),
        None => Ok(argument.required(word.is_required)),
    }
}

/// An argument beside which the word may not stand that a word excludes.
fn excluding<'a>(argument: Arg<'a>, word: &Word) -> Result<Arg<'a>, AllocError>
    ensures { IfOk result (λ r.
        rule_of r ≡ with_conflict word.now.conflict (rule_of argument.entry)) }
{
    match word.conflict {
        Some(name) => argument.conflicts_with(name),
        None => Ok(argument),
    }
}

/// The argument that a word is.
fn argument_of<'a>(alloc: Global, word: &Word) -> Result<Arg<'a>, AllocError>
    ensures { IfOk result (λ r. rule_of r ≡ argument_of_word word.now) }
{
    let argument = needed(formed(alloc, word), word)?;
    excluding(helped(argument, word), word)
}

/// An argument that takes a word as its value which begins with a hyphen, where its own word does.
fn signed<'a>(argument: Arg<'a>, word: &Word) -> Arg<'a> {
    match word.form {
        Form::Place | Form::Places => argument.allow_negative_numbers(true),
        Form::Option => argument.allow_hyphen_values(word.takes_hyphens),
        Form::Letter(_) | Form::Flag => argument,
    }
}

/// An argument that takes these values.
fn taking<'a>(argument: Arg<'a>, word: &Word, values: Values) -> Arg<'a>
    ensures { values ≡ Plain → result ≡ argument.entry }
{
    match values {
        Values::Plain => argument,
        Values::Signed => signed(argument, word),
    }
}

/// Adds the arguments that words are to others.
fn add_arguments<'a>(
    alloc: Global,
    arguments: &mut Vec<Arg<'a>>,
    words: &[Word],
    values: Values,
) -> Result<(), AllocError>
    ensures { values ≡ Plain
        → OnOk result (map rule_of arguments.new.items
        ≡ map rule_of arguments.old.items ++ map argument_of_word words.now) }
{
    for word in words {
        let argument = argument_of(alloc, word)?;
        arguments.push(taking(argument, word, values))?;
    }
    Ok(())
}

/// The arguments that words are, and after them those that shared words are.
pub fn arguments_of<'a>(
    alloc: Global,
    words: &[Word],
    shared: &[Word],
    values: Values,
) -> Result<Vec<Arg<'a>>, AllocError>
    ensures { values ≡ Plain
        → IfOk result (λ r.
        map rule_of r.items ≡ map argument_of_word (words.now ++ shared.now)) }
{
    let mut arguments = Vec::new(alloc);
    add_arguments(alloc, &mut arguments, words, values)?;
    add_arguments(alloc, &mut arguments, shared, values)?;
    Ok(arguments)
}

/// The words that a subcommand shares with others, if it does.
fn shared_by<'w>(described: &Subcommand, shared: &'w [Word]) -> &'w [Word]
    ensures { result.now ≡ shared_by described.now.has_shared shared.now }
{
    if described.has_shared { shared } else { &[] }
}

/// A subcommand with its words.
fn subcommand_of<'a>(
    alloc: Global,
    described: &Subcommand,
    shared: &[Word],
    values: Values,
) -> Result<Command<'a>, AllocError>
    ensures { values ≡ Plain
        → IfOk result (λ r. shape_of r ≡ shape_of_table shared.now described.now) }
{
    let shared = shared_by(described, shared);
    let arguments = arguments_of(alloc, described.words, shared, values)?;
    Command::new(alloc, described.name)
        .about(described.about)
        .after_help(described.example)
        .args(arguments)
}

/// Adds the subcommands of a group to others.
fn add_subcommands<'a>(
    alloc: Global,
    subcommands: &mut Vec<Command<'a>>,
    group: &[Subcommand],
    shared: &[Word],
    values: Values,
) -> Result<(), AllocError>
    ensures { values ≡ Plain
        → OnOk result (map shape_of subcommands.new.items
        ≡ map shape_of subcommands.old.items ++ map (shape_of_table shared.now) group.now) }
{
    for described in group {
        subcommands.push(subcommand_of(alloc, described, shared, values)?)?;
    }
    Ok(())
}

/// The subcommands of a program.
fn subcommands_of<'a>(
    alloc: Global,
    program: &Program,
    values: Values,
) -> Result<Vec<Command<'a>>, AllocError>
    ensures { values ≡ Plain
        → IfOk result (λ r. map shape_of r.items
        ≡ map (shape_of_table program.now.shared.now) (described_in program.now)) }
{
    let mut subcommands = Vec::new(alloc);
    for group in &program.groups {
        add_subcommands(alloc, &mut subcommands, *group, program.shared, values)?;
    }
    Ok(subcommands)
}

/// A command line that has no words yet. `--help` names the program so, whatever the name of its file is.
pub fn bare_command<'a>(
    alloc: Global,
    name: &'a str,
    about: &'a str,
) -> Result<Command<'a>, AllocError>
    ensures { IfOk result (λ r. app_of r ≡ app_alone name.now []) }
{
    Command::new(alloc, name)
        .version(VERSION)
        .about(about)
        .bin_name(name)
}

/// The whole command line of a program, with arguments that take these values. The only error is out of memory.
pub fn command_of<'a>(
    alloc: Global,
    program: &Program,
    values: Values,
) -> Result<Command<'a>, AllocError>
    ensures { values ≡ Plain → IfOk result (λ r. app_of r ≡ app_of_table program.now) }
{
    let subcommands = subcommands_of(alloc, program, values)?;
    bare_command(alloc, program.name, program.about)?
        .subcommand_required(true)
        .subcommands(subcommands)
}
