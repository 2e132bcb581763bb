//! Hints: which option is meant by an argument that is none of a subcommand's, and what else is said of one.

use crate::table::{Hint, Program, StrayKind, Subcommand, Word};

/// What stands before and after such an argument where `clap` reports it.
const REPORTED: (&str, &str) = ("error: unexpected argument '", "' found");

/// The argument that a report of `clap` is about.
fn argument_of(report: &str) -> Option<&str> {
    let (argument, _) = report.strip_prefix(REPORTED.0)?.split_once(REPORTED.1)?;
    Some(argument)
}

/// Whether an option, written with its hyphens, is one of some words.
fn is_among(option: &str, words: &[Word]) -> bool {
    let Some(name) = option.strip_prefix("--") else {
        return false;
    };
    for word in words {
        if word.name == name {
            return true;
        }
    }
    false
}

/// Whether a subcommand of a program has an option.
fn has_option(program: &Program, described: &Subcommand, option: &str) -> bool {
    is_among(option, described.words) || described.has_shared && is_among(option, program.shared)
}

/// Whether the subcommand of a name is in a group of a program and has an option.
fn is_option_in(program: &Program, group: &[Subcommand], name: &str, option: &str) -> bool {
    for described in group {
        if described.name == name {
            return has_option(program, described, option);
        }
    }
    false
}

/// Whether the subcommand of a name has an option.
fn is_option(program: &Program, name: &str, option: &str) -> bool {
    for group in &program.groups {
        if is_option_in(program, *group, name, option) {
            return true;
        }
    }
    false
}

/// What a program has to say on the report of `clap` that a word is none of the subcommand of a name. Nothing is said of an
/// option that the subcommand does not have.
pub fn hint_on(program: &Program, name: &str, report: &str) -> Option<Hint> {
    let argument = argument_of(report)?;
    for hint in program.hints {
        if hint.typed == argument && is_option(program, name, hint.meant) {
            return Some(*hint);
        }
    }
    None
}

/// Whether a stray argument is of this kind.
fn is_of(program: &Program, argument: &str, kind: StrayKind) -> bool {
    match kind {
        StrayKind::Shared => is_among(argument, program.shared),
        StrayKind::Place => !argument.starts_with('-'),
    }
}

/// The argument that is none of the subcommand of a name, as `clap` reports it, and what a program has to say of it.
pub fn stray_on<'r>(
    program: &Program,
    name: &str,
    report: &'r str,
) -> Option<(&'r str, &'static str)> {
    let argument = argument_of(report)?;
    for stray in program.strays {
        if stray.subcommand == name && is_of(program, argument, stray.kind) {
            return Some((argument, stray.said));
        }
    }
    None
}
