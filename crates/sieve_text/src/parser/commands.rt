//! Commands and blocks.

ghost use Rattle.std.specs.Prelude.{◌≡◌, ◌≤◌, ◌<◌, length, map, IfOk, IfSome, option_map, Ok};
ghost use Rattle.sieve_syntax.specs.View.{command_of, ending_of, commands_of, inner_of};
ghost use Rattle.sieve_text.specs.Lexemes.{kinds_in, left_in};
ghost use Rattle.sieve_text.specs.Reading.{Gives, many_at, inside_at, inner_with, test_at, command_with, commands_with, ending_with, after_brace};

use crate::lexeme::Lexeme;
use crate::parser::arguments::arguments;
use crate::parser::lists;
use crate::parser::stop::{Misfit, Stop, left_from, syntax};
use crate::parser::test_lists::{has_no_test, inner_tests};
use crate::scanner::{first_mark, split_lexeme};
use sieve_syntax::{Command, Ending, Mark, Tests, Text};
use std::alloc::Global;

/// How many tests may be nested.
const TEST_DEPTH: u8 = 32;

/// Commands for as long as one follows, with at most `depth` nested blocks.
#[cycle(command_reader)]
pub fn commands(alloc: Global, depth: u8, text: &[u8]) -> Result<(Vec<Command>, &[u8]), Stop>
    ensures value { Gives (λ x. (map command_of x.0.items, kinds_in x.1.now)) result (many_at
        (command_with 32 (inside_at 32 depth)) (length (kinds_in text.now)) (kinds_in text.now)) }
    ensures fewer { IfOk result (λ x. length (kinds_in x.1.now) ≤ length (kinds_in text.now)) }
    ensures left { IfOk result (λ x. left_in x.1.now ≡ left_in text.now) }
{
    // Many blocks have one command, so `push` takes room for one first.
    let mut commands = Vec::new(alloc);
    let mut rest = text;
    while let Some((next, after)) = next_command(alloc, depth, rest)? {
        lists::push(&mut commands, next, 1)?;
        rest = after;
    }
    commands.shrink_to_fit();
    Ok((commands, rest))
}

/// The tests of a command, and the tokens after them; first it is checked whether the front shows that there are none.
#[inline(always)]
fn command_tests(alloc: Global, text: &[u8]) -> Result<(Tests, &[u8]), Stop>
    ensures value { Gives (λ x. (inner_of x.0, kinds_in x.1.now)) result
        (inner_with (test_at 32) (kinds_in text.now)) }
    ensures fewer { IfOk result (λ x. length (kinds_in x.1.now) ≤ length (kinds_in text.now)) }
    ensures left { IfOk result (λ x. left_in x.1.now ≡ left_in text.now) }
{
    if has_no_test(text) {
        return Ok((Tests::None, text));
    }
    inner_tests(alloc, TEST_DEPTH, text)
}

/// A command, where the tokens begin with one, with at most `depth` nested blocks.
#[cycle(command_reader)]
fn next_command(alloc: Global, depth: u8, text: &[u8]) -> Result<Option<(Command, &[u8])>, Stop>
    ensures value { Gives (option_map (λ x. (command_of x.0, kinds_in x.1.now))) result
        (command_with 32 (inside_at 32 depth) (kinds_in text.now)) }
    ensures fewer { IfOk result
        (λ o. IfSome o (λ x. length (kinds_in x.1.now) < length (kinds_in text.now))) }
    ensures left { IfOk result (λ o. IfSome o (λ x. left_in x.1.now ≡ left_in text.now)) }
{
    if first_mark(text).is_some() {
        return Ok(None);
    }
    let Some((Lexeme::Identifier(name), rest)) = split_lexeme(text) else {
        return Ok(None);
    };
    let (arguments, rest) = arguments(alloc, rest)?;
    let (tests, rest) = command_tests(alloc, rest)?;
    let (ending, rest) = read_ending(alloc, depth, rest)?;
    let name = Text::from_slice(alloc, name)?;
    Ok(Some((
        Command {
            name,
            arguments,
            tests,
            ending,
        },
        rest,
    )))
}

/// The ending of a command, with at most `depth` nested blocks.
#[cycle(command_reader)]
#[tactic(auto, unfolding(crate::specs::Reading::inside_at))]
fn read_ending(alloc: Global, depth: u8, text: &[u8]) -> Result<(Ending, &[u8]), Stop>
    ensures value { Gives (λ x. (ending_of x.0, kinds_in x.1.now)) result
        (ending_with (inside_at 32 depth) (kinds_in text.now)) }
    ensures fewer { IfOk result (λ x. length (kinds_in x.1.now) < length (kinds_in text.now)) }
    ensures left { IfOk result (λ x. left_in x.1.now ≡ left_in text.now) }
{
    match split_lexeme(text) {
        Some((Lexeme::Mark(Mark::Semicolon), rest)) => Ok((Ending::Semicolon, rest)),
        Some((Lexeme::Mark(Mark::OpenBrace), rest)) => {
            if depth == 0 {
                return Err(Stop::Refused(Misfit::Nesting, left_from(text)));
            }
            let (inside, rest) = commands(alloc, depth - 1, rest)?;
            let rest = after_brace(rest)?;
            Ok((Ending::Block(Box::new(alloc, inside)?), rest))
        }
        _ => Err(syntax(text)),
    }
}

/// The tokens after the brace that closes a block.
fn after_brace(text: &[u8]) -> Result<&[u8], Stop>
    ensures value { Gives (λ x. kinds_in x.now) result (after_brace (kinds_in text.now)) }
    ensures fewer { IfOk result (λ x. length (kinds_in x.now) < length (kinds_in text.now)) }
    ensures left { IfOk result (λ x. left_in x.now ≡ left_in text.now) }
{
    match split_lexeme(text) {
        Some((Lexeme::Mark(Mark::CloseBrace), rest)) => Ok(rest),
        _ => Err(syntax(text)),
    }
}
