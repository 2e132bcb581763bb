//! What a command names.

ghost use Rattle.std.specs.Prelude.{◌≡◌, None, MatchOption};
ghost use Rattle.std.specs.List.{list_any};
ghost use Rattle.std.specs.Option.{option_map};
ghost use Rattle.tool_findings.specs.Commands.{first_string, include_by, include_named, is_tag};

use crate::words::is_among;
use sieve_syntax::{Mark, Token, TokenKind};
use std::alloc::{AllocError, Global};

/// What a command of a good script names.
#[derive(Clone, Copy)]
pub enum Named<'a> {
    /// The class into which a `fileinto` files, by its path.
    Class(&'a [u8]),
    /// The script that an `include` includes.
    Script {
        name: &'a [u8],
        /// Whether it is one that every officer can include.
        is_global: bool,
        /// Whether it need not be there.
        is_optional: bool,
        /// Whether nothing is done where the script was entered before.
        is_once: bool,
    },
}

/// Whether a token is a tag of this name.
fn is_tag(token: &Token, name: &str) -> bool
    ensures { result ≡ is_tag name.now token.now }
{
    match &token.kind {
        TokenKind::Tag(tag) => is_among(tag.as_slice(), &[name]),
        _ => false,
    }
}

/// Whether a tag of this name is among tokens.
fn has_tag(tokens: &[Token], name: &str) -> bool
    ensures { result ≡ list_any (is_tag name.now) tokens.now }
{
    tokens.iter().any(|token| is_tag(token, name))
}

/// The first string among tokens, and its offset in octets.
fn first_string(tokens: &[Token]) -> Option<(&[u8], usize)>
    ensures { option_map (λ s. (s.0.now, s.1)) result ≡ first_string tokens.now }
{
    for token in tokens.iter() {
        if let TokenKind::StringValue(text) = &token.kind {
            return Some((text.as_slice(), token.start as usize));
        }
    }
    None
}

/// What the command with these tokens names, and where, an offset in octets; none for a command that is no `fileinto`
/// and no `include`.
pub fn name_in(tokens: &[Token]) -> Option<(Named<'_>, usize)>
    ensures { MatchOption result (include_by tokens.now ≡ None)
        (λ x. include_by tokens.now ≡ include_named x.0 x.1) }
{
    let TokenKind::Identifier(command) = &tokens.first()?.kind else {
        return None;
    };
    let (name, at) = first_string(tokens)?;
    if is_among(command.as_slice(), &["include"]) {
        return Some((
            Named::Script {
                name,
                is_global: has_tag(tokens, "global"),
                is_optional: has_tag(tokens, "optional"),
                is_once: has_tag(tokens, "once"),
            },
            at,
        ));
    }
    if is_among(command.as_slice(), &["fileinto"]) {
        return Some((Named::Class(name), at));
    }
    None
}

/// Whether a field of a message can have a name: one octet or more of 33 to 126, and no colon (RFC 5322, section 2.2).
fn is_field_name(name: &[u8]) -> bool {
    !name.is_empty()
        && name
            .iter()
            .all(|octet| octet.is_ascii_graphic() && *octet != b':')
}

/// Where a reader of tests stands.
#[derive(Clone, Copy)]
enum Reading {
    /// No names of fields come next.
    Other,
    /// The name of a test was read that begins with names of fields.
    Test,
    /// A tag was read whose string belongs to it.
    Comparator,
    /// A list of names of fields is open.
    List,
}

/// Where a reader stands after a token.
fn after(reading: Reading, token: &Token) -> Reading {
    match (&token.kind, reading) {
        (TokenKind::Identifier(name), _) if is_among(name.as_slice(), &["header", "exists"]) => {
            Reading::Test
        }
        (TokenKind::Tag(tag), Reading::Test) if is_among(tag.as_slice(), &["comparator"]) => {
            Reading::Comparator
        }
        (TokenKind::Tag(_), Reading::Test) => Reading::Test,
        (TokenKind::StringValue(_), Reading::Comparator) => Reading::Test,
        (TokenKind::Mark(Mark::OpenBracket), Reading::Test) => Reading::List,
        (TokenKind::StringValue(_) | TokenKind::Mark(Mark::Comma), Reading::List) => Reading::List,
        _ => Reading::Other,
    }
}

/// The names of fields in the tests of a good command with these tokens that no field of a message can have, each with its
/// offset in octets.
pub fn impossible_fields(
    alloc: Global,
    tokens: &[Token],
) -> Result<Vec<(&[u8], usize)>, AllocError> {
    let mut found = Vec::new(alloc);
    let mut reading = Reading::Other;
    for token in tokens {
        if let (TokenKind::StringValue(text), Reading::Test | Reading::List) = (
            &token.kind,
            reading,
        ) {
            if !is_field_name(text.as_slice()) {
                found.push((text.as_slice(), token.start as usize))?;
            }
        }
        reading = after(reading, token);
    }
    Ok(found)
}
