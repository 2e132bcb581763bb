//! The calls of the scanner.

use crate::told::{refused_at, word};
use anyhow::Result;
use sieve_syntax::{Mark, Token, TokenKind};
use sieve_text::{ScanFault, scan};
use std::alloc::{AllocError, Global};
use std::str;

fn mark_text(mark: Mark) -> &'static str {
    match mark {
        Mark::Semicolon => ";",
        Mark::OpenBrace => "{",
        Mark::CloseBrace => "}",
        Mark::OpenParen => "(",
        Mark::CloseParen => ")",
        Mark::OpenBracket => "[",
        Mark::CloseBracket => "]",
        Mark::Comma => ",",
    }
}

/// A token with the octets that it stands on, as `tag is 3..6`.
fn token_text(alloc: Global, token: &Token) -> Result<String, AllocError> {
    let (start, end) = (token.start, token.end);
    match &token.kind {
        TokenKind::Identifier(name) => {
            let name = str::from_utf8(name.as_slice()).unwrap_or("?");
            format!(in alloc; "name {name} {start}..{end}")
        }
        TokenKind::Tag(name) => {
            let name = str::from_utf8(name.as_slice()).unwrap_or("?");
            format!(in alloc; "tag {name} {start}..{end}")
        }
        TokenKind::Number(number) => format!(in alloc; "number {number} {start}..{end}"),
        TokenKind::StringValue(value) => {
            let value = str::from_utf8(value.as_slice()).unwrap_or("?");
            format!(in alloc; "string <{value}> {start}..{end}")
        }
        TokenKind::Mark(mark) => {
            let mark = mark_text(*mark);
            format!(in alloc; "{mark} {start}..{end}")
        }
    }
}

/// Tokens, one after the other.
fn tokens_text(alloc: Global, tokens: &[Token]) -> Result<Vec<u8>> {
    let mut text = Vec::new(alloc);
    for token in tokens {
        if !text.is_empty() {
            text.extend_from_slice(b" | ")?;
        }
        text.extend_from_slice(token_text(alloc, token)?.as_bytes())?;
    }
    Ok(text)
}

/// The tokens of a script, or its refusal.
pub fn tokens(alloc: Global, script: &[u8]) -> Result<Vec<u8>> {
    match scan(alloc, script) {
        Ok(tokens) => tokens_text(alloc, tokens.as_slice()),
        Err(ScanFault::NoMemory) => word(alloc, "no memory"),
        Err(ScanFault::Refused(refusal, at)) => refused_at(alloc, refusal.number(), at),
    }
}
