//! Strings and arguments.

ghost use Rattle.std.specs.Prelude.{◌≡◌, ◌≤◌, ◌<◌, length, true, Ok, None, IfOk, IfSome, option_map};
ghost use Rattle.sieve_text.specs.Lexemes.{kinds_in, left_in};
ghost use Rattle.sieve_text.specs.Reading.{Gives, string_at, after_bracket, next_with, other_strings_at, string_list_at, argument_at, arguments_at};

use crate::lexeme::Lexeme;
use crate::parser::lists;
use crate::parser::stop::{Stop, syntax};
use crate::scanner::{begins_with_name, first_mark, split_lexeme, string_text};
use sieve_syntax::{Argument, Arguments, Mark, StringList, StringText, StringTexts, Text};
use std::alloc::Global;

/// A string, and the tokens after it.
fn read_string(alloc: Global, text: &[u8]) -> Result<(StringText, &[u8]), Stop>
    ensures value { Gives (λ x. (x.0, kinds_in x.1.now)) result (string_at (kinds_in text.now)) }
    ensures fewer { IfOk result (λ x. length (kinds_in x.1.now) < length (kinds_in text.now)) }
    ensures left { IfOk result (λ x. left_in x.1.now ≡ left_in text.now) }
{
    match split_lexeme(text) {
        Some((Lexeme::StringValue(string), rest)) => Ok((string_text(alloc, string)?, rest)),
        _ => Err(syntax(text)),
    }
}

/// The next string of a list, where a comma follows.
fn next_string(alloc: Global, text: &[u8]) -> Result<Option<(StringText, &[u8])>, Stop>
    ensures value { Gives (option_map (λ x. (x.0, kinds_in x.1.now))) result
        (next_with string_at (kinds_in text.now)) }
    ensures fewer { IfOk result
        (λ o. IfSome o (λ x. length (kinds_in x.1.now) < length (kinds_in text.now))) }
    ensures left { IfOk result (λ o. IfSome o (λ x. left_in x.1.now ≡ left_in text.now)) }
{
    match split_lexeme(text) {
        Some((Lexeme::Mark(Mark::Comma), rest)) => Ok(Some(read_string(alloc, rest)?)),
        _ => Ok(None),
    }
}

/// The tokens after a closing bracket.
fn after_bracket(text: &[u8]) -> Result<&[u8], Stop>
    ensures value { Gives (λ x. kinds_in x.now) result (after_bracket (kinds_in text.now)) }
    ensures fewer { IfOk result (λ x. length (kinds_in x.now) < length (kinds_in text.now)) }
    ensures left { IfOk result (λ x. left_in x.now ≡ left_in text.now) }
{
    match split_lexeme(text) {
        Some((Lexeme::Mark(Mark::CloseBracket), rest)) => Ok(rest),
        _ => Err(syntax(text)),
    }
}

/// The strings of a list after its first one.
fn other_strings(alloc: Global, text: &[u8]) -> Result<(StringTexts, &[u8]), Stop>
    ensures value { Gives
        (λ x. (x.0, kinds_in x.1.now)) result (other_strings_at (kinds_in text.now)) }
    ensures fewer { IfOk result (λ x. length (kinds_in x.1.now) ≤ length (kinds_in text.now)) }
    ensures left { IfOk result (λ x. left_in x.1.now ≡ left_in text.now) }
{
    let mut others = Vec::new(alloc);
    let mut rest = text;
    while let Some((next, after)) = next_string(alloc, rest)? {
        lists::push(&mut others, next, lists::SEVERAL)?;
        rest = after;
    }
    Ok((StringTexts::from_vec(alloc, others)?, rest))
}

/// A list of strings, after its opening bracket.
#[tactic(auto, unfolding(crate::specs::Reading::string_list_at))]
fn string_list(alloc: Global, text: &[u8]) -> Result<(StringList, &[u8]), Stop>
    ensures value { Gives
        (λ x. (x.0, kinds_in x.1.now)) result (string_list_at (kinds_in text.now)) }
    ensures fewer { IfOk result (λ x. length (kinds_in x.1.now) < length (kinds_in text.now)) }
    ensures left { IfOk result (λ x. left_in x.1.now ≡ left_in text.now) }
{
    let (first, rest) = read_string(alloc, text)?;
    let (others, rest) = other_strings(alloc, rest)?;
    let rest = after_bracket(rest)?;
    Ok((StringList::Listed(first, others), rest))
}

/// Whether the front of the text shows at once that no argument begins there: an identifier or a mark other than an
/// opening bracket, with no gap before it.
#[inline(always)]
#[tactic(auto, unfolding(crate::specs::Reading::argument_at))]
fn has_no_argument(text: &[u8]) -> bool
    ensures { result ≡ true → argument_at (kinds_in text.now) ≡ Ok None }
{
    match first_mark(text) {
        Some(Mark::OpenBracket) => false,
        Some(_) => true,
        None => begins_with_name(text),
    }
}

/// An argument, where the tokens begin with one.
#[tactic(auto, unfolding(crate::specs::Reading::argument_at))]
fn next_argument(alloc: Global, text: &[u8]) -> Result<Option<(Argument, &[u8])>, Stop>
    ensures value { Gives (option_map (λ x. (x.0, kinds_in x.1.now))) result
        (argument_at (kinds_in text.now)) }
    ensures fewer { IfOk result
        (λ o. IfSome o (λ x. length (kinds_in x.1.now) < length (kinds_in text.now))) }
    ensures left { IfOk result (λ o. IfSome o (λ x. left_in x.1.now ≡ left_in text.now)) }
{
    if has_no_argument(text) {
        return Ok(None);
    }
    let Some((lexeme, rest)) = split_lexeme(text) else {
        return Ok(None);
    };
    match lexeme {
        Lexeme::Tag(name) => Ok(Some((Argument::Tag(Text::from_slice(alloc, name)?), rest))),
        Lexeme::Number(number) => Ok(Some((Argument::Number(number), rest))),
        Lexeme::StringValue(string) => {
            let one = StringList::One(string_text(alloc, string)?);
            Ok(Some((Argument::Strings(one), rest)))
        }
        Lexeme::Mark(Mark::OpenBracket) => {
            let (listed, rest) = string_list(alloc, rest)?;
            Ok(Some((Argument::Strings(listed), rest)))
        }
        _ => Ok(None),
    }
}

/// The arguments, and the tokens after them.
fn some_arguments(alloc: Global, text: &[u8]) -> Result<(Arguments, &[u8]), Stop>
    ensures value { Gives (λ x. (x.0, kinds_in x.1.now)) result (arguments_at (kinds_in text.now)) }
    ensures fewer { IfOk result (λ x. length (kinds_in x.1.now) ≤ length (kinds_in text.now)) }
    ensures left { IfOk result (λ x. left_in x.1.now ≡ left_in text.now) }
{
    let mut arguments = Vec::new(alloc);
    let mut rest = text;
    while let Some((next, after)) = next_argument(alloc, rest)? {
        lists::push(&mut arguments, next, lists::SEVERAL)?;
        rest = after;
    }
    Ok((Arguments::from_vec(alloc, arguments)?, rest))
}

/// The arguments, and the tokens after them; first it is checked whether the front shows that there are none.
#[inline(always)]
pub fn arguments(alloc: Global, text: &[u8]) -> Result<(Arguments, &[u8]), Stop>
    ensures value { Gives (λ x. (x.0, kinds_in x.1.now)) result (arguments_at (kinds_in text.now)) }
    ensures fewer { IfOk result (λ x. length (kinds_in x.1.now) ≤ length (kinds_in text.now)) }
    ensures left { IfOk result (λ x. left_in x.1.now ≡ left_in text.now) }
{
    if has_no_argument(text) {
        return Ok((Arguments::none(), text));
    }
    some_arguments(alloc, text)
}
