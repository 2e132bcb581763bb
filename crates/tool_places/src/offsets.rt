//! The offsets at which commands and tests begin.

ghost use Rattle.std.specs.Prelude.{◌≡◌, IfOk, map, filter};
ghost use Rattle.tool_places.specs.Heads.{is_name as is_name_of, starts_of, AreHeads};

use sieve_syntax::{Token, TokenKind};
use sieve_text::{ScanFault, scan};
use std::alloc::{AllocError, Global};

/// Whether a token is the name of a command or of a test.
fn is_name(kind: &TokenKind) -> bool
    ensures { result ≡ is_name_of kind.now }
{
    match kind {
        TokenKind::Identifier(_) => true,
        TokenKind::Tag(_) | TokenKind::Number(_) | TokenKind::StringValue(_) | TokenKind::Mark(_) =>
            { false }
    }
}

/// The offsets of the tokens that are names.
fn name_starts(alloc: Global, tokens: &[Token]) -> Result<Vec<usize>, AllocError>
    ensures { IfOk result (λ v. v.items ≡ starts_of tokens.now) }
{
    let mut starts = Vec::new(alloc);
    for token in tokens {
        if is_name(&token.kind) {
            starts.push(token.start as usize)?;
        }
    }
    Ok(starts)
}

/// The offsets at which the commands and tests of a script begin, in octets and in the order of the text. That is the
/// order of its tree, in which a command comes before its tests, and these before its block. The refusals are those of
/// `scan`.
pub fn heads(alloc: Global, script: &[u8]) -> Result<Vec<usize>, ScanFault>
    ensures { IfOk result (λ v. AreHeads script.now v.items) }
{
    let tokens = scan(alloc, script)?;
    Ok(name_starts(alloc, tokens.as_slice())?)
}
