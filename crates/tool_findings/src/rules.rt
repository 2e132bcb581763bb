//! What a broken rule is about.

use crate::subjects::Subject;
use crate::usage::{lacks_string, wrong_arguments};
use crate::words::{BRANCHES, CAPABILITIES, COMMANDS, COMPARATORS, TAGS, TESTS, is_among, nearest};
use sieve_check::CheckFault;
use sieve_syntax::{Mark, Token, TokenKind};
use std::alloc::{AllocError, Global};

/// The octets of a name; none for any other token.
pub(crate) fn name_of(token: &Token) -> Option<&[u8]> {
    match &token.kind {
        TokenKind::Identifier(name) => Some(name.as_slice()),
        _ => None,
    }
}

/// A word, and what was meant by it, perhaps.
fn word(
    alloc: Global,
    token: &Token,
    spelling: &[u8],
    known: &[&'static str],
) -> Result<Subject, AllocError> {
    Ok(Subject::Word(
        token.start as usize,
        token.end as usize,
        nearest(alloc, spelling, known)?,
    ))
}

/// The name of a command that is unknown, which may be that of a test.
fn unknown_command(alloc: Global, tokens: &[Token]) -> Result<Subject, AllocError> {
    let Some((token, name)) = tokens
        .first()
        .and_then(|token| Some((token, name_of(token)?)))
    else {
        return Ok(Subject::Whole);
    };
    if is_among(name, TESTS) {
        return Ok(Subject::TestAlone(token.start as usize, token.end as usize));
    }
    word(alloc, token, name, COMMANDS)
}

/// The test that joins others in place of a word between them.
pub(crate) fn joining_test(name: &[u8]) -> Option<&'static str> {
    if is_among(name, &["and"]) {
        Some("allof")
    } else if is_among(name, &["or"]) {
        Some("anyof")
    } else {
        None
    }
}

/// Whether a command takes a string directly after its name, perhaps with tags between them.
fn takes_string(before: &[Token]) -> bool {
    let mut tokens = before.iter();
    let is_taking = tokens
        .next()
        .and_then(name_of)
        .is_some_and(|name| is_among(name, &["fileinto", "include", "require"]));
    is_taking && tokens.all(|token| matches!(token.kind, TokenKind::Tag(_)))
}

/// The name of a command where its test, or the branch before it, goes on: a mark is missing before it. That is the brace
/// of a branch, or else a semicolon. None after the name of a branch that takes a test.
fn mark_before(before: &[Token], last: &Token, start: usize) -> Option<Subject> {
    let branch = before.first().and_then(name_of).unwrap_or(b"");
    let last_name = name_of(last).unwrap_or(b"");
    if is_among(last_name, &["if", "elsif"]) {
        return None;
    }
    Some(if is_among(branch, BRANCHES) {
        Subject::Missing(start, "{")
    } else {
        Subject::Missing(last.end as usize, ";")
    })
}

/// What is wrong with a name of a test that is unknown, where it follows these tokens of its command.
fn unknown_name(
    alloc: Global,
    before: &[Token],
    token: &Token,
    name: &[u8],
) -> Result<Subject, AllocError> {
    let (start, end) = (token.start as usize, token.end as usize);
    let Some(last) = before.last() else {
        return Ok(Subject::Whole);
    };
    let last_name = name_of(last).unwrap_or(b"");
    if last_name.eq_ignore_ascii_case(name) {
        return Ok(Subject::Surplus(start, end));
    }
    if is_among(last_name, &["else"]) && is_among(name, &["if"]) {
        return Ok(Subject::Instead(last.start as usize, end, "elsif"));
    }
    if let Some(joining) = joining_test(name) {
        return Ok(Subject::Joined(start, end, joining));
    }
    if matches!(last.kind, TokenKind::Number(_)) && last.end as usize == start {
        return Ok(Subject::Unit(last.start as usize, end));
    }
    if is_among(name, COMMANDS) {
        if let Some(missing) = mark_before(before, last, start) {
            return Ok(missing);
        }
    }
    if takes_string(before) {
        return Ok(Subject::Unquoted(start, end));
    }
    if is_among(name, TAGS) {
        return Ok(Subject::Untagged(start, end));
    }
    if lacks_string(before) {
        return Ok(Subject::Unquoted(start, end));
    }
    word(alloc, token, name, TESTS)
}

/// The first name behind the name of a command that is that of no test, with the tokens before it and its octets.
fn other_name(tokens: &[Token]) -> Option<(&[Token], &Token, &[u8])> {
    for (number, token) in tokens.iter().enumerate().skip(1) {
        if let Some(name) = name_of(token) {
            if !is_among(name, TESTS) {
                return Some((&tokens[..number.min(tokens.len())], token, name));
            }
        }
    }
    None
}

/// The first name of a test that is unknown.
fn unknown_test(alloc: Global, tokens: &[Token]) -> Result<Subject, AllocError> {
    match other_name(tokens) {
        Some((before, token, name)) => unknown_name(alloc, before, token, name),
        None => Ok(Subject::Whole),
    }
}

/// Whether a token ends a test.
fn ends_test(token: &Token) -> bool {
    match &token.kind {
        TokenKind::StringValue(_) | TokenKind::Number(_) => true,
        TokenKind::Mark(mark) => matches!(mark, Mark::CloseBracket | Mark::CloseParen),
        TokenKind::Identifier(name) => is_among(name.as_slice(), &["true", "false"]),
        TokenKind::Tag(_) => false,
    }
}

/// Whether a list of tests is open after these tokens.
fn is_in_list(tokens: &[Token]) -> bool {
    let open = tokens
        .iter()
        .filter(|token| matches!(token.kind, TokenKind::Mark(Mark::OpenParen)))
        .count();
    let closed = tokens
        .iter()
        .filter(|token| matches!(token.kind, TokenKind::Mark(Mark::CloseParen)))
        .count();
    open > closed
}

/// The first test that directly follows another one: in a list a comma is missing between them, and elsewhere a test that
/// joins them.
fn wrong_tests(tokens: &[Token]) -> Subject {
    let following = tokens.iter().enumerate().skip(1);
    for (last, (number, token)) in tokens.iter().zip(following) {
        let is_test = name_of(token).is_some_and(|name| is_among(name, TESTS));
        if !is_test || !ends_test(last) {
            continue;
        }
        return if is_in_list(&tokens[..number.min(tokens.len())]) {
            Subject::Missing(last.end as usize, ",")
        } else {
            Subject::Unjoined(token.start as usize, token.end as usize)
        };
    }
    Subject::Whole
}

/// The first string that is not one of these words.
fn unknown_string(
    alloc: Global,
    tokens: &[Token],
    known: &[&'static str],
) -> Result<Subject, AllocError> {
    for token in tokens.iter() {
        if let TokenKind::StringValue(text) = &token.kind {
            if !known.iter().any(|name| text.as_slice() == name.as_bytes()) {
                return word(alloc, token, text.as_slice(), known);
            }
        }
    }
    Ok(Subject::Whole)
}

/// The comparator that is unknown: the first string after a tag `:comparator` that names none.
fn unknown_comparator(alloc: Global, tokens: &[Token]) -> Result<Subject, AllocError> {
    for (number, token) in tokens.iter().enumerate() {
        let TokenKind::Tag(name) = &token.kind else {
            continue;
        };
        if !name.as_slice().eq_ignore_ascii_case(b"comparator") {
            continue;
        }
        let after = number.saturating_add(1);
        let last = number.saturating_add(2).min(tokens.len());
        let found = unknown_string(alloc, &tokens[after.min(last)..last], COMPARATORS)?;
        if matches!(found, Subject::Word(_, _, _)) {
            return Ok(found);
        }
    }
    Ok(Subject::Whole)
}

/// The first tag that is no known one, or the last tag.
fn wrong_tag(alloc: Global, tokens: &[Token]) -> Result<Subject, AllocError> {
    let mut found = Subject::Whole;
    for token in tokens.iter() {
        if let TokenKind::Tag(name) = &token.kind {
            if !is_among(name.as_slice(), TAGS) {
                return word(alloc, token, name.as_slice(), TAGS);
            }
            found = Subject::Word(token.start as usize, token.end as usize, None);
        }
    }
    Ok(found)
}

/// The capability that a token needs.
fn needed_by(token: &Token) -> Option<&'static str> {
    match &token.kind {
        TokenKind::Identifier(name) if is_among(name.as_slice(), &["fileinto"]) => Some("fileinto"),
        TokenKind::Identifier(name) if is_among(name.as_slice(), &["include", "return"]) => {
            Some("include")
        }
        TokenKind::Tag(name) if is_among(name.as_slice(), &["copy"]) => Some("copy"),
        _ => None,
    }
}

/// Whether a string among these tokens names a capability.
pub(crate) fn is_named(tokens: &[Token], capability: &str) -> bool {
    tokens.iter().any(|token| match &token.kind {
        TokenKind::StringValue(text) => text.as_slice() == capability.as_bytes(),
        _ => false,
    })
}

/// The first capability that a command needs and none of these strings names.
fn missing_capability(tokens: &[Token], required: &[Token]) -> Subject {
    for token in tokens.iter() {
        if let Some(capability) = needed_by(token) {
            if !is_named(required, capability) {
                return Subject::Capability(token.start as usize, capability);
            }
        }
    }
    Subject::Whole
}

/// What a rule that a command breaks is about. The command has these tokens; those before it are `before`.
pub(crate) fn subject_of_rule(
    alloc: Global,
    fault: CheckFault,
    tokens: &[Token],
    before: &[Token],
) -> Result<Subject, AllocError> {
    match fault {
        CheckFault::UnknownCapability => unknown_string(alloc, tokens, CAPABILITIES),
        CheckFault::UnknownCommand => unknown_command(alloc, tokens),
        CheckFault::UnknownTest => unknown_test(alloc, tokens),
        CheckFault::CapabilityNotRequired => Ok(missing_capability(tokens, before)),
        CheckFault::TagNotAllowed | CheckFault::TagTwice => wrong_tag(alloc, tokens),
        CheckFault::WrongArguments => Ok(wrong_arguments(tokens)),
        CheckFault::UnknownComparator => unknown_comparator(alloc, tokens),
        CheckFault::Tests => Ok(wrong_tests(tokens)),
        _ => Ok(Subject::Whole),
    }
}
