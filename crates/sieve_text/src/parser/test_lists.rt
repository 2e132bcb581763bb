//! Tests and test-lists.

ghost use Rattle.std.specs.Prelude.{◌≡◌, ◌≤◌, ◌<◌, ◌∷◌, length, map, true, Ok, IfOk, IfSome, option_map};
ghost use Rattle.sieve_syntax.specs.declared.token.TokenKind.TheVariants as kinds;
ghost use Rattle.sieve_syntax.specs.Tree.{TestTree, no_tests};
ghost use Rattle.sieve_syntax.specs.View.{test_of, inner_of};
ghost use Rattle.sieve_text.specs.Lexemes.{kinds_in, left_in};
ghost use Rattle.sieve_text.specs.Reading.{Gives, Reads, after_paren, next_with, many_at, test_at, test_list_with, inner_with};

use crate::lexeme::Lexeme;
use crate::parser::arguments::arguments;
use crate::parser::lists;
use crate::parser::stop::{Misfit, Stop, left_from, syntax};
use crate::scanner::{first_mark, split_lexeme};
use sieve_syntax::{Mark, Test, TestList, Tests, Text};
use std::alloc::Global;

/// A test whose name comes first in a text, with at most `depth` nested tests, itself counted; `following` is the text
/// after the name.
#[cycle(test_reader)]
#[tactic(auto, unfolding(crate::specs::Reading::test_at))]
fn named_test<'a>(
    alloc: Global,
    depth: u8,
    text: &'a [u8],
    name: &'a [u8],
    following: &'a [u8],
) -> Result<(Test, &'a [u8]), Stop>
    requires first { kinds_in text.now ≡ kinds.Identifier name.now ∷ kinds_in following.now }
    requires left { left_in following.now ≡ left_in text.now }
    ensures value { Gives
        (λ x. (test_of x.0, kinds_in x.1.now)) result (test_at depth (kinds_in text.now)) }
    ensures fewer { IfOk result (λ x. length (kinds_in x.1.now) < length (kinds_in text.now)) }
    ensures left { IfOk result (λ x. left_in x.1.now ≡ left_in text.now) }
{
    if depth == 0 {
        return Err(Stop::Refused(Misfit::Nesting, left_from(text)));
    }
    let (arguments, rest) = arguments(alloc, following)?;
    let (tests, rest) = inner_tests(alloc, depth - 1, rest)?;
    let name = Text::from_slice(alloc, name)?;
    Ok((
        Test {
            name,
            arguments,
            tests,
        },
        rest,
    ))
}

/// A test, with at most `depth` nested tests, itself counted.
#[cycle(test_reader)]
#[tactic(auto, unfolding(crate::specs::Reading::test_at))]
pub fn read_test(alloc: Global, depth: u8, text: &[u8]) -> Result<(Test, &[u8]), Stop>
    ensures value { Gives
        (λ x. (test_of x.0, kinds_in x.1.now)) result (test_at depth (kinds_in text.now)) }
    ensures fewer { IfOk result (λ x. length (kinds_in x.1.now) < length (kinds_in text.now)) }
    ensures left { IfOk result (λ x. left_in x.1.now ≡ left_in text.now) }
{
    match split_lexeme(text) {
        Some((Lexeme::Identifier(name), following)) => named_test(
            alloc, depth, text, name, following,
        ),
        _ => Err(syntax(text)),
    }
}

/// Whether the front of the text shows at once that no test begins there: a mark other than an opening parenthesis,
/// with no gap before it.
#[inline(always)]
pub fn has_no_test(text: &[u8]) -> bool
    ensures { result ≡ true → (read : Reads TestTree) →
        inner_with read (kinds_in text.now) ≡ Ok (no_tests, kinds_in text.now) }
{
    match first_mark(text) {
        Some(Mark::OpenParen) | None => false,
        Some(_) => true,
    }
}

/// The tests of a command or of a test, at most `depth` of them nested.
#[cycle(test_reader)]
pub fn inner_tests(alloc: Global, depth: u8, text: &[u8]) -> Result<(Tests, &[u8]), Stop>
    ensures value { Gives (λ x. (inner_of x.0, kinds_in x.1.now)) result
        (inner_with (test_at depth) (kinds_in text.now)) }
    ensures fewer { IfOk result (λ x. length (kinds_in x.1.now) ≤ length (kinds_in text.now)) }
    ensures left { IfOk result (λ x. left_in x.1.now ≡ left_in text.now) }
{
    if has_no_test(text) {
        return Ok((Tests::None, text));
    }
    match split_lexeme(text) {
        Some((Lexeme::Identifier(name), following)) => {
            let (only, rest) = named_test(alloc, depth, text, name, following)?;
            Ok((Tests::One(Box::new(alloc, only)?), rest))
        }
        Some((Lexeme::Mark(Mark::OpenParen), rest)) => test_list(alloc, depth, rest),
        _ => Ok((Tests::None, text)),
    }
}

/// A list of tests, after its opening parenthesis.
#[cycle(test_reader)]
fn test_list(alloc: Global, depth: u8, text: &[u8]) -> Result<(Tests, &[u8]), Stop>
    ensures value { Gives (λ x. (inner_of x.0, kinds_in x.1.now)) result
        (test_list_with (test_at depth) (kinds_in text.now)) }
    ensures fewer { IfOk result (λ x. length (kinds_in x.1.now) < length (kinds_in text.now)) }
    ensures left { IfOk result (λ x. left_in x.1.now ≡ left_in text.now) }
{
    let (first, rest) = read_test(alloc, depth, text)?;
    let (others, rest) = other_tests(alloc, depth, rest)?;
    let rest = after_paren(rest)?;
    let list = Box::new(alloc, TestList { first, others })?;
    Ok((Tests::Listed(list), rest))
}

/// The tests of a list after its first one.
#[cycle(test_reader)]
fn other_tests(alloc: Global, depth: u8, text: &[u8]) -> Result<(Vec<Test>, &[u8]), Stop>
    ensures value { Gives (λ x. (map test_of x.0.items, kinds_in x.1.now)) result
        (many_at (next_with (test_at depth)) (length (kinds_in text.now)) (kinds_in text.now)) }
    ensures fewer { IfOk result (λ x. length (kinds_in x.1.now) ≤ length (kinds_in text.now)) }
    ensures left { IfOk result (λ x. left_in x.1.now ≡ left_in text.now) }
{
    let mut tests = Vec::new(alloc);
    let mut rest = text;
    while let Some((next, after)) = next_test(alloc, depth, rest)? {
        lists::push(&mut tests, next, lists::SEVERAL)?;
        rest = after;
    }
    tests.shrink_to_fit();
    Ok((tests, rest))
}

/// The next test of a list, where a comma follows.
#[cycle(test_reader)]
fn next_test(alloc: Global, depth: u8, text: &[u8]) -> Result<Option<(Test, &[u8])>, Stop>
    ensures value { Gives (option_map (λ x. (test_of x.0, kinds_in x.1.now))) result
        (next_with (test_at depth) (kinds_in text.now)) }
    ensures fewer { IfOk result
        (λ o. IfSome o (λ x. length (kinds_in x.1.now) < length (kinds_in text.now))) }
    ensures left { IfOk result (λ o. IfSome o (λ x. left_in x.1.now ≡ left_in text.now)) }
{
    match split_lexeme(text) {
        Some((Lexeme::Mark(Mark::Comma), rest)) => Ok(Some(read_test(alloc, depth, rest)?)),
        _ => Ok(None),
    }
}

/// The tokens after the parenthesis that closes a list of tests.
fn after_paren(text: &[u8]) -> Result<&[u8], Stop>
    ensures value { Gives (λ x. kinds_in x.now) result (after_paren (kinds_in text.now)) }
    ensures fewer { IfOk result (λ x. length (kinds_in x.now) < length (kinds_in text.now)) }
    ensures left { IfOk result (λ x. left_in x.now ≡ left_in text.now) }
{
    match split_lexeme(text) {
        Some((Lexeme::Mark(Mark::CloseParen), rest)) => Ok(rest),
        _ => Err(syntax(text)),
    }
}
