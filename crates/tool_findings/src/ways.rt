//! Ways on from a token after which nothing could make a text a script.

use crate::fronts::{Front, fronts_of};
use crate::repaired::Patch;
use crate::rules::{joining_test, name_of};
use crate::subjects::Subject;
use crate::words::{BRANCHES, CAPABILITIES, COMMANDS, is_among};
use sieve_syntax::{Mark, Token, TokenKind};
use std::alloc::{AllocError, Global};

/// A way on: a patch, and what is wrong if it is the right one.
#[derive(Clone, Copy)]
pub(crate) struct Way {
    pub(crate) patch: Patch,
    pub(crate) subject: Subject,
}

/// How many tokens before the place are looked at.
const LOOK_BACK: usize = 8;

/// How many of them may be wrong themselves.
const SUSPECTS: usize = 4;

/// Braces that close as many blocks as can be open, after a semicolon.
const CLOSING: &[u8] = b";}}}}}}}}}}}}}}}}}}}}}}}}}}}}}}}}}";

/// Marks, as they are written.
const MARKS: &[&str] = &[";", "{", "}", ",", ")", "]", "(", "["];

/// Marks that may be missing, the likeliest first: in a command, and in its brackets.
const MISSING: &[&str] = &[";", "{", ",", ")", "]", "}"];

const MISSING_IN_BRACKETS: &[&str] = &[",", ")", "]", ";", "{", "}"];

/// Where a text stops being a script: the tokens before the place, and the one there.
#[derive(Clone, Copy)]
pub(crate) struct Stop<'t> {
    pub(crate) before: &'t [Token],
    /// None at the end of the text.
    pub(crate) token: Option<&'t Token>,
    /// The offset of the place.
    pub(crate) at: usize,
}

/// Whether a token is a mark that ends a command, or one of the braces.
fn is_limit(token: &Token) -> bool {
    matches!(
        token.kind,
        TokenKind::Mark(Mark::Semicolon | Mark::OpenBrace | Mark::CloseBrace)
    )
}

/// Whether a token is this mark.
fn is_mark(token: &Token, mark: &str) -> bool {
    let TokenKind::Mark(found) = token.kind else {
        return false;
    };
    let spelling = match found {
        Mark::Semicolon => ";",
        Mark::OpenBrace => "{",
        Mark::CloseBrace => "}",
        Mark::OpenParen => "(",
        Mark::CloseParen => ")",
        Mark::OpenBracket => "[",
        Mark::CloseBracket => "]",
        Mark::Comma => ",",
    };
    spelling == mark
}

impl<'t> Stop<'t> {
    /// The tokens of the command that is not ended before the place.
    pub(crate) fn command(&self) -> &'t [Token] {
        let first = self
            .before
            .iter()
            .rposition(|token| is_limit(token))
            .map_or(0, |last| last.saturating_add(1));
        &self.before[first.min(self.before.len())..]
    }

    /// The mark before that command.
    fn limit(&self) -> Option<&'t Token> {
        self.before.iter().rev().find(|token| is_limit(*token))
    }

    /// Where the token before the place ends.
    fn last_end(&self) -> usize {
        self.before.last().map_or(0, |last| last.end as usize)
    }

    /// Whether the place is in brackets.
    fn is_in_brackets(&self) -> bool {
        let command = self.command();
        let open = command
            .iter()
            .filter(|token| is_mark(token, "(") || is_mark(token, "["))
            .count();
        let closed = command
            .iter()
            .filter(|token| is_mark(token, ")") || is_mark(token, "]"))
            .count();
        open > closed
    }
}

/// The ways on from a place, the likeliest first.
#[derive(Drop)]
struct Ways {
    list: Vec<Way>,
}

impl Ways {
    fn add(&mut self, patch: Patch, subject: Subject) -> Result<(), AllocError> {
        self.list.push(Way { patch, subject })?;
        Ok(())
    }

    /// Puts something in that is missing.
    fn insert(&mut self, at: usize, what: &'static str) -> Result<(), AllocError> {
        self.add(
            Patch::insertion(at, what.as_bytes()),
            Subject::Missing(at, what),
        )
    }

    /// Puts a word in, of which is told that it is missing.
    fn insert_word(
        &mut self,
        at: usize,
        word: &'static str,
        told: &'static str,
    ) -> Result<(), AllocError> {
        self.add(
            Patch::insertion(at, word.as_bytes()),
            Subject::Missing(at, told),
        )
    }

    /// Takes a token out.
    fn remove(&mut self, token: &Token) -> Result<(), AllocError> {
        let (start, end) = (token.start as usize, token.end as usize);
        let patch = Patch {
            start,
            end,
            with: b" ",
        };
        self.add(patch, Subject::Surplus(start, end))
    }

    /// Writes a mark in place of a token.
    fn replace(&mut self, token: &Token, mark: &'static str) -> Result<(), AllocError> {
        let (start, end) = (token.start as usize, token.end as usize);
        let patch = Patch {
            start,
            end,
            with: mark.as_bytes(),
        };
        self.add(patch, Subject::Instead(start, end, mark))
    }

    /// Writes each other mark in place of a mark.
    fn replace_mark(&mut self, token: &Token) -> Result<(), AllocError> {
        if !matches!(token.kind, TokenKind::Mark(_)) {
            return Ok(());
        }
        for mark in MARKS {
            if !is_mark(token, *mark) {
                self.replace(token, *mark)?;
            }
        }
        Ok(())
    }

    /// Puts in each mark that may be missing before the place.
    fn insert_marks(&mut self, stop: &Stop<'_>) -> Result<(), AllocError> {
        let marks = if stop.is_in_brackets() {
            MISSING_IN_BRACKETS
        } else {
            MISSING
        };
        for mark in marks {
            self.insert(stop.last_end(), *mark)?;
        }
        Ok(())
    }

    /// Takes the token at the place for another one.
    fn change_token(&mut self, stop: &Stop<'_>, token: &Token) -> Result<(), AllocError> {
        let (start, end) = (token.start as usize, token.end as usize);
        self.remove(token)?;
        self.replace_mark(token)?;
        if name_of(token).is_some() {
            let patch = Patch {
                start,
                end,
                with: b"\"\"",
            };
            self.add(patch, Subject::Unquoted(start, end))?;
        }
        self.insert_word(stop.at, "\"\"", "a string")?;
        if stop.command().is_empty() {
            self.insert_commands(stop.at, token)?;
        }
        Ok(())
    }

    /// Puts in each name of a command that may be missing before a token, the likeliest first.
    fn insert_commands(&mut self, at: usize, token: &Token) -> Result<(), AllocError> {
        for name in commands_before(token) {
            self.insert_word(at, *name, "the name of a command")?;
        }
        Ok(())
    }

    /// Takes tokens before the place for other ones, or out.
    fn change_before(&mut self, stop: &Stop<'_>) -> Result<(), AllocError> {
        for token in stop.before.iter().rev().take(SUSPECTS) {
            self.remove(token)?;
            self.replace_mark(token)?;
        }
        match stop.limit() {
            Some(limit) => self.replace_mark(limit),
            None => Ok(()),
        }
    }

    /// Puts in brackets that may be missing further before the place.
    fn open_before(&mut self, stop: &Stop<'_>) -> Result<(), AllocError> {
        for token in stop.command().iter().rev().take(LOOK_BACK) {
            match token.kind {
                TokenKind::Identifier(_) => self.insert(token.start as usize, "(")?,
                TokenKind::StringValue(_) => self.insert(token.start as usize, "[")?,
                _ => {}
            }
        }
        Ok(())
    }

    /// Leaves out the command at the place, up to what ends it.
    fn leave_out(&mut self, stop: &Stop<'_>, following: &[Token]) -> Result<(), AllocError> {
        let start = stop
            .command()
            .first()
            .map_or(stop.at, |first| first.start as usize);
        let Some(last) = following.iter().find(|token| is_limit(token)) else {
            return Ok(());
        };
        let (end, with) = left_out_to(last);
        let patch = Patch { start, end, with };
        let subject = match stop.token {
            Some(token) => joined(token),
            None => Subject::Whole,
        };
        self.add(patch, subject)
    }
}

/// Where a command ends that is left out up to this mark, and what stands in its place.
fn left_out_to(last: &Token) -> (usize, &'static [u8]) {
    if is_mark(last, "{") {
        (last.end as usize, b"if true {")
    } else if is_mark(last, "}") {
        (last.start as usize, b"")
    } else {
        (last.end as usize, b"")
    }
}

/// The names of commands that may be missing before a token, the likeliest first.
fn commands_before(token: &Token) -> &'static [&'static str] {
    match &token.kind {
        TokenKind::StringValue(text) if is_among(text.as_slice(), CAPABILITIES) => {
            &["require ", "fileinto ", "include "]
        }
        TokenKind::StringValue(_) => &["fileinto ", "include "],
        TokenKind::Tag(_) => &["include ", "fileinto "],
        TokenKind::Mark(Mark::OpenBracket) => &["require "],
        TokenKind::Mark(Mark::OpenBrace) => &["else ", "if true "],
        _ => &[],
    }
}

/// A word between tests where none may stand, or the place as a whole.
fn joined(token: &Token) -> Subject {
    match name_of(token).and_then(joining_test) {
        Some(name) => Subject::Joined(token.start as usize, token.end as usize, name),
        None => Subject::Whole,
    }
}

/// The ways on from a brace that closes no block: the last branch before it has a semicolon in place of its brace, or no
/// brace before its first command.
fn open_branch(ways: &mut Ways, stop: &Stop<'_>, fronts: &[Front]) -> Result<(), AllocError> {
    let branch = fronts
        .iter()
        .rev()
        .find(|front| is_blockless_branch(front, stop.before));
    let Some(branch) = branch else {
        return Ok(());
    };
    let own = branch.own(stop.before);
    let inner = own.iter().skip(1).find(|token| name_of(token).is_some_and(|name| is_among(
        name, COMMANDS,
    )));
    match (inner, own.last()) {
        (Some(inner), _) => ways.insert(inner.start as usize, "{"),
        (None, Some(last)) => ways.replace(last, "{"),
        (None, None) => Ok(()),
    }
}

/// Whether the name of a command is one of these.
fn has_name(front: &Front, tokens: &[Token], names: &[&str]) -> bool {
    front
        .own(tokens)
        .first()
        .and_then(name_of)
        .is_some_and(|name| is_among(name, names))
}

/// Whether a command that must have a block has none.
fn is_blockless_branch(front: &Front, tokens: &[Token]) -> bool {
    !front.has_block && has_name(front, tokens, BRANCHES)
}

/// Whether a command that may have no block has one.
fn is_blocked_command(front: &Front, tokens: &[Token]) -> bool {
    front.has_block && has_name(front, tokens, COMMANDS) && !has_name(front, tokens, BRANCHES)
}

/// Whether a branch goes on where no block was closed before it.
fn goes_on_inside(front: &Front, tokens: &[Token]) -> bool {
    let follows = front
        .before(tokens)
        .last()
        .is_some_and(|last| !is_mark(last, "}"));
    follows && has_name(front, tokens, &["elsif", "else"])
}

/// Writes a semicolon in place of each brace that opens a block where none may be.
fn end_commands(ways: &mut Ways, tokens: &[Token], fronts: &[Front]) -> Result<(), AllocError> {
    for front in fronts {
        if is_blocked_command(front, tokens) {
            if let Some(brace) = front.own(tokens).last() {
                ways.replace(brace, ";")?;
            }
        }
    }
    Ok(())
}

/// Closes a block before each branch that goes on where none was closed.
fn close_blocks(ways: &mut Ways, tokens: &[Token], fronts: &[Front]) -> Result<(), AllocError> {
    for front in fronts {
        if goes_on_inside(front, tokens) {
            ways.insert(front.start, "}")?;
        }
    }
    Ok(())
}

/// The last brace that is not closed, and how many there are.
fn open_braces(alloc: Global, tokens: &[Token]) -> Result<(Option<usize>, usize), AllocError> {
    let mut open = Vec::new(alloc);
    for token in tokens {
        if is_mark(token, "{") {
            open.push(token.start as usize)?;
        } else if is_mark(token, "}") {
            let _closed = open.pop();
        }
    }
    Ok((open.last().copied(), open.len()))
}

/// Braces that close this number of blocks, as far as so many can be open: after a semicolon, and alone.
fn closings(depth: usize) -> (&'static [u8], &'static [u8]) {
    let end = depth.saturating_add(1).min(CLOSING.len());
    (&CLOSING[..end], &CLOSING[1..end])
}

/// The ways on from the end of a text that is inside a command, which begins with this token, and in this number of blocks: the
/// command is ended, or taken out.
fn end_command(
    ways: &mut Ways,
    stop: &Stop<'_>,
    first: &Token,
    depth: usize,
) -> Result<(), AllocError> {
    let end = stop.last_end();
    let (ended, closing) = closings(depth);
    ways.add(Patch::insertion(end, ended), Subject::Missing(end, ";"))?;
    let patch = Patch {
        start: first.start as usize,
        end: stop.at,
        with: closing,
    };
    ways.add(patch, Subject::Whole)
}

/// The ways on from the end of a text.
fn ways_at_end(alloc: Global, ways: &mut Ways, stop: &Stop<'_>) -> Result<(), AllocError> {
    let fronts = fronts_of(alloc, stop.before)?;
    end_commands(ways, stop.before, &fronts)?;
    close_blocks(ways, stop.before, &fronts)?;
    let (brace, depth) = open_braces(alloc, stop.before)?;
    match (stop.command().first(), brace) {
        (None, Some(brace)) => {
            let (_, closing) = closings(depth);
            ways.add(
                Patch::insertion(stop.at, closing),
                Subject::OpenBlock(brace),
            )
        }
        (None, None) => Ok(()),
        (Some(first), _) => end_command(ways, stop, first, depth),
    }
}

/// The ways on from a token.
fn ways_at_token(
    alloc: Global,
    ways: &mut Ways,
    stop: &Stop<'_>,
    token: &Token,
    following: &[Token],
) -> Result<(), AllocError> {
    if !matches!(joined(token), Subject::Whole) {
        return ways.leave_out(stop, following);
    }
    if is_mark(token, "}") && stop.command().is_empty() {
        let fronts = fronts_of(alloc, stop.before)?;
        open_branch(ways, stop, &fronts)?;
    }
    ways.insert_marks(stop)?;
    ways.change_token(stop, token)?;
    ways.change_before(stop)?;
    ways.open_before(stop)?;
    ways.leave_out(stop, following)
}

/// The ways on from a place, from which these tokens come on.
fn add_ways(
    alloc: Global,
    ways: &mut Ways,
    stop: &Stop<'_>,
    following: &[Token],
) -> Result<(), AllocError> {
    match stop.token {
        Some(token) => ways_at_token(alloc, ways, stop, token, following),
        None => ways_at_end(alloc, ways, stop),
    }
}

/// The ways on from an offset of a text with these tokens, at which it stops being a script. The likeliest come first.
pub(crate) fn ways_from(
    alloc: Global,
    tokens: &[Token],
    at: usize,
) -> Result<Vec<Way>, AllocError> {
    let (before, following) = split_at(tokens, at);
    let stop = Stop {
        before,
        token: following.first(),
        at,
    };
    let mut ways = Ways {
        list: Vec::new(alloc),
    };
    add_ways(alloc, &mut ways, &stop, following)?;
    Ok(ways.list)
}

/// The tokens that begin before an offset, and the others.
pub(crate) fn split_at(tokens: &[Token], at: usize) -> (&[Token], &[Token]) {
    let place = tokens.partition_point(|token| (token.start as usize) < at);
    tokens.split_at(place.min(tokens.len()))
}

/// How many marks after a place are looked at in a long text.
const LOOK_AHEAD: usize = 12;

/// Where some commands end that follow a place, with these tokens from there on; none where they are few.
pub(crate) fn some_commands_end(following: &[Token]) -> Option<usize> {
    let last = following
        .iter()
        .filter(|token| is_limit(*token))
        .skip(LOOK_AHEAD)
        .next()?;
    Some(last.end as usize)
}
