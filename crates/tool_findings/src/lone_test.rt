//! A test that stands by itself, as a question has it.

ghost use Rattle.std.specs.Prelude.{IfOk};
ghost use Rattle.tool_findings.specs.LoneTests.{AreTokensFromIf, IsAtToken, IsFindingIn};

use crate::findings::Finding;
use crate::rules::{name_of, subject_of_rule};
use crate::spots::tokens_of;
use crate::subjects::Subject;
use sieve_check::CheckFault;
use sieve_syntax::{Text, Token, TokenKind};
use std::alloc::{AllocError, Global};

/// The tokens of a command `if` with a test, without its block. The `if` has no octets, and the other tokens are at their
/// places in the test.
fn tokens_from_if(alloc: Global, test: &[u8]) -> Result<Vec<Token>, AllocError>
    ensures { IfOk result (λ v. AreTokensFromIf test.now v.items) }
{
    let mut tokens = tokens_of(alloc, test)?;
    let name = Text::from_slice(alloc, b"if")?;
    tokens.insert(
        0,
        Token {
            kind: TokenKind::Identifier(name),
            start: 0,
            end: 0,
        },
    )?;
    Ok(tokens)
}

/// The first name from an offset on, as a word that is unknown.
fn name_from(tokens: &[Token], at: usize) -> Subject {
    let name = tokens.iter().find(|token| token.start as usize >= at && name_of(token).is_some());
    match name {
        Some(token) => Subject::Word(token.start as usize, token.end as usize, None),
        None => Subject::Whole,
    }
}

/// What a rule that a test breaks is about, with the tokens from its `if` on. The name of a command in a test is unknown:
/// no command follows a test, before which a mark could be missing.
fn subject_in_test(
    alloc: Global,
    fault: CheckFault,
    tokens: &[Token],
) -> Result<Subject, AllocError> {
    Ok(match subject_of_rule(alloc, fault, tokens, &[])? {
        Subject::Missing(at, _) => name_from(tokens, at),
        subject => subject,
    })
}

/// An offset at which one of these tokens begins; 0 for any other.
fn place_among(tokens: &[Token], at: usize) -> usize
    ensures { IsAtToken tokens.now result }
{
    if tokens.iter().any(|token| token.start as usize == at) {
        at
    } else {
        0
    }
}

/// What is wrong with a text that is one test (RFC 5228, section 5) and is refused by a rule of well made scripts, as the
/// test of an `if`. Its number is that of the refusal, 30 to 41. It is shown at an offset of the text, in octets, where a
/// token begins: the word that it is about, or else the first one. Fails only if memory runs out.
pub fn finding_in_test(alloc: Global, test: &[u8], fault: CheckFault) -> Result<Finding, AllocError>
    ensures { IfOk result (λ f. IsFindingIn test.now fault f) }
{
    let tokens = tokens_from_if(alloc, test)?;
    let subject = subject_in_test(alloc, fault, tokens.as_slice())?;
    let own = &tokens[1..];
    let at = own.first().map_or(0, |first| first.start as usize);
    Ok(Finding {
        number: fault.number(),
        at,
        place: place_among(own, subject.place().unwrap_or(at)),
        subject,
    })
}
