//! Repairs of commands that break a rule.

use crate::fronts::Front;
use crate::repaired::{Patch, Repaired};
use crate::rules::{is_named, name_of};
use crate::subjects::Subject;
use crate::words::{BRANCHES, NEEDED, is_among};
use sieve_check::CheckFault;
use sieve_syntax::{Mark, Token, TokenKind};
use std::alloc::AllocError;

/// A command that breaks a rule.
#[derive(Clone, Copy)]
pub(crate) struct Faulty<'t> {
    pub(crate) fault: CheckFault,
    pub(crate) subject: Subject,
    pub(crate) front: Front,
    /// The tokens of its script.
    pub(crate) tokens: &'t [Token],
}

/// The patch that writes another word within a token: behind its colon, or between its quotation marks. None within a
/// text of several lines.
fn respelt(token: &Token, word: &'static [u8]) -> Option<Patch> {
    let (start, end) = (token.start as usize, token.end as usize);
    match &token.kind {
        TokenKind::Identifier(_) => Some(Patch {
            start,
            end,
            with: word,
        }),
        TokenKind::Tag(_) => Some(Patch {
            start: start.saturating_add(1),
            end,
            with: word,
        }),
        TokenKind::StringValue(text)
            if text.as_slice().len().saturating_add(2) == end.saturating_sub(start) => {
            Some(Patch {
                start: start.saturating_add(1),
                end: end.saturating_sub(1),
                with: word,
            })
        }
        _ => None,
    }
}

/// Whether a token stands in a list of strings, by the one before it.
fn is_listed(before: Option<&Token>) -> bool {
    before.is_some_and(|token| matches!(
        token.kind,
        TokenKind::Mark(Mark::OpenBracket | Mark::Comma)
    ))
}

/// The patch that names all that can be needed in place of a capability that is unknown.
fn all_named(token: &Token, before: Option<&Token>) -> Patch {
    let with: &[u8] = if is_listed(before) {
        b"\"fileinto\",\"copy\",\"include\""
    } else {
        b"[\"fileinto\",\"copy\",\"include\"]"
    };
    Patch {
        start: token.start as usize,
        end: token.end as usize,
        with,
    }
}

/// The patch that writes what was meant in place of a word.
fn word_patch(faulty: &Faulty<'_>, at: usize, meant: Option<&'static str>) -> Option<Patch> {
    let own = faulty.front.own(faulty.tokens);
    let place = own.partition_point(|token| (token.start as usize) < at);
    let token = own.get(place)?;
    match (meant, faulty.fault) {
        (Some(word), _) => respelt(token, word.as_bytes()),
        (None, CheckFault::UnknownCapability) => {
            let before = place.checked_sub(1).and_then(|last| own.get(last));
            Some(all_named(token, before))
        }
        (None, _) => None,
    }
}

/// The patch that repairs what a command is faulted for; none where the command is to be replaced as a whole.
fn small_patch(faulty: &Faulty<'_>) -> Option<Patch> {
    match faulty.subject {
        Subject::Word(start, _, meant) => word_patch(faulty, start, meant),
        Subject::Missing(at, what) => Some(Patch::insertion(at, what.as_bytes())),
        Subject::Surplus(start, end) => Some(Patch {
            start,
            end,
            with: b" ",
        }),
        Subject::Instead(start, end, word) => Some(Patch {
            start,
            end,
            with: word.as_bytes(),
        }),
        Subject::Unquoted(start, end) => Some(Patch {
            start,
            end,
            with: b"\"\"",
        }),
        Subject::Untagged(start, _) => Some(Patch::insertion(start, b":")),
        Subject::TestAlone(start, _) => Some(Patch::insertion(start, b"if ")),
        Subject::Unit(start, end) => Some(Patch {
            start,
            end,
            with: b"1",
        }),
        _ => None,
    }
}

/// What stands for a command that is replaced as a whole: nothing, or a branch where it has a block or should have one.
fn stand_in(front: &Front, own: &[Token]) -> &'static [u8] {
    if front.has_block {
        return b"if true {";
    }
    match own.first().and_then(name_of) {
        Some(name) if is_among(name, BRANCHES) => b"if true{}",
        _ => b"",
    }
}

/// Replaces a command as a whole. What its strings name is required before the script begins.
pub(crate) fn replace_command(
    script: &mut Repaired,
    faulty: &Faulty<'_>,
) -> Result<(), AllocError> {
    let own = faulty.front.own(faulty.tokens);
    script.patch(Patch {
        start: faulty.front.start,
        end: faulty.front.end,
        with: stand_in(&faulty.front, own),
    })?;
    for capability in NEEDED {
        if is_named(own, *capability) {
            let _is_new = script.require(*capability)?;
        }
    }
    Ok(())
}

/// Puts the braces of a block around what follows an offset in a branch; one that has a block is replaced.
fn add_block(script: &mut Repaired, faulty: &Faulty<'_>, at: usize) -> Result<(), AllocError> {
    if faulty.front.has_block {
        return replace_command(script, faulty);
    }
    script.patch(Patch::insertion(faulty.front.end, b"}"))?;
    script.patch(Patch::insertion(at, b"{"))
}

/// Repairs a command that breaks a rule, so that what it was faulted for is not found again.
pub(crate) fn mend_command(script: &mut Repaired, faulty: &Faulty<'_>) -> Result<(), AllocError> {
    if let Subject::Capability(_, capability) = faulty.subject {
        if script.require(capability)? {
            return Ok(());
        }
    }
    if let Subject::Missing(at, "{") = faulty.subject {
        return add_block(script, faulty, at);
    }
    match small_patch(faulty) {
        Some(patch) => script.patch(patch),
        None => replace_command(script, faulty),
    }
}
