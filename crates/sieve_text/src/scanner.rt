//! Tokens from octets (RFC 5228, section 8.1).
//!
//! A script is judged as a whole first. Then its tokens are read from the front, each after a gap of white space and
//! comments. Each octet is read a bounded number of times.

mod gap;
mod multi_line;
mod number;
mod octets;
mod quoted;
mod strings;

ghost use Rattle.std.specs.Prelude.{true, ◌≡◌, ◌≤◌, ◌<◌, ◌+◌, ◌^◌, [], ◌∷◌, length, drop, suc, IfOk, IfErr, IfSome, MatchOption, Ok, OnOk, ℕ, List, option_map, Some};
ghost use Rattle.sieve_syntax.specs.declared.token.Mark.TheVariants.{Semicolon};
ghost use Rattle.sieve_syntax.specs.declared.token.Token.{Token};
ghost use Rattle.sieve_syntax.specs.declared.token.TokenKind.{TokenKind};
ghost use Rattle.sieve_syntax.specs.declared.token.TokenKind.TheVariants as kinds;
ghost use Rattle.sieve_text.specs.Gaps.{gap_len};
ghost use Rattle.sieve_text.specs.Lexemes.{kind_of, read_of, token_of, kinds_in, left_in};
ghost use Rattle.sieve_text.specs.Tokens.{mark_of, kind_at, tag_at, identifier_at, token_at, Gives, IsSound, IsScan, FaultsBy, StandsAt, StandsIn, either_place, text_len, fault_place};

use crate::fault::{FaultyPlace, ScanFault, ScanRefusal};
use crate::lexeme::{Lexeme, PlacedLexeme};
pub use gap::gap_length;
use sieve_syntax::{Mark, Text, Token, TokenKind};
use std::alloc::{AllocError, Global};
use std::str;
pub use strings::string_text;

/// The greatest length of a script in octets; a longer one is refused (15).
pub const MAX_OCTETS: usize = 262_144;

#[inline(always)]
fn mark(b: u8) -> Option<Mark>
    ensures { result ≡ mark_of b }
{
    match b {
        b';' => Some(Mark::Semicolon),
        b'{' => Some(Mark::OpenBrace),
        b'}' => Some(Mark::CloseBrace),
        b'(' => Some(Mark::OpenParen),
        b')' => Some(Mark::CloseParen),
        b'[' => Some(Mark::OpenBracket),
        b']' => Some(Mark::CloseBracket),
        b',' => Some(Mark::Comma),
        _ => None,
    }
}

/// An identifier, and its length in octets.
#[inline(always)]
fn identifier(rest: &[u8]) -> (Lexeme<'_>, usize)
    ensures value { identifier_at rest.now ≡ Ok (read_of result) }
    ensures within { result.1 ≤ length rest.now }
{
    let n = octets::word_length(rest);
    (Lexeme::Identifier(&rest[..n]), n)
}

/// A tag: `following` is the text after its colon, which is at this offset.
#[tactic(auto, unfolding(crate::specs::Tokens::tag_at))]
#[inline(always)]
fn tag(following: &[u8], at: usize) -> Result<(Lexeme<'_>, usize), FaultyPlace>
    ensures value { Gives read_of result (tag_at following.now) }
    ensures within { IfOk result (λ x. x.1 ≤ suc (length following.now)) }
    ensures some { IfOk result (λ x. 0 < x.1) }
    ensures place { (first : ℕ) → IfErr result (λ e. StandsAt (either_place first at) e) }
{
    match following {
        [b, ..] if octets::starts_word(*b) => {
            let n = octets::word_length(following);
            Ok((Lexeme::Tag(&following[..n]), n + 1))
        }
        _ => Err(FaultyPlace::new(ScanRefusal::NoToken, at)),
    }
}

/// The token that begins here, at this offset, and its length in octets.
#[tactic(auto, unfolding(crate::specs::Tokens::kind_at))]
#[inline(always)]
fn lexeme(rest: &[u8], at: usize) -> Result<(Lexeme<'_>, usize), FaultyPlace>
    requires { at + length rest.now < 2 ^ 64 }
    ensures value { Gives read_of result (kind_at rest.now) }
    ensures within { IfOk result (λ x. x.1 ≤ length rest.now) }
    ensures some { IfOk result (λ x. 0 < x.1) }
    ensures place { IfErr result (λ e. StandsAt (either_place at (at + text_len rest.now)) e) }
{
    let Some((&b, following)) = rest.split_first() else {
        return Err(FaultyPlace::new(ScanRefusal::NoToken, at));
    };
    if multi_line::begins(rest) {
        let (_, following) = rest.split_at(5);
        multi_line::token(following, at)
    } else if octets::starts_word(b) {
        Ok(identifier(rest))
    } else if b.is_ascii_digit() {
        number::token(rest, at)
    } else if b == b':' {
        tag(following, at)
    } else if b == b'"' {
        quoted::token(following, at)
    } else if gap::opens_bracketed(rest) {
        Err(FaultyPlace::new(ScanRefusal::CommentNotClosed, at))
    } else {
        match mark(b) {
            Some(mark) => Ok((Lexeme::Mark(mark), 1)),
            None => Err(FaultyPlace::new(ScanRefusal::NoToken, at)),
        }
    }
}

/// The next token from an offset on; `None` where there is none.
#[tactic(auto, unfolding(crate::specs::Tokens::token_at))]
#[inline(always)]
fn placed_lexeme(script: &[u8], at: usize) -> Result<Option<PlacedLexeme<'_>>, FaultyPlace>
    requires length { length script.now ≤ MAX_OCTETS }
    requires within { at ≤ length script.now }
    ensures value { Gives (option_map token_of) result (token_at script.now at) }
    ensures within { IfOk result (λ x. IfSome x (λ t. (at < t.end) × (t.end ≤ length script.now))) }
    ensures place { IfErr result (λ e. StandsAt (fault_place script.now at) e) }
{
    let (_, following) = script.split_at(at);
    let start = at + gap::gap_length(following);
    if start == script.len() {
        return Ok(None);
    }
    let (_, rest) = script.split_at(start);
    let (lexeme, length) = lexeme(rest, start)?;
    Ok(Some(PlacedLexeme {
        lexeme,
        start: start as u32,
        end: (start + length) as u32,
    }))
}

/// Judges a script as a whole: its length (15), then that it is UTF-8 (10), then that it has no octet 0 and no CR
/// without LF (11).
pub fn check_text(script: &[u8]) -> Result<(), ScanFault>
    ensures sound { OnOk result (IsSound script.now) }
    ensures fault { IfErr result (λ e. FaultsBy script.now e) }
    ensures place { IfErr result (λ e. StandsIn script.now e) }
{
    if script.len() > MAX_OCTETS {
        return Err(ScanFault::Refused(ScanRefusal::ScriptTooLong, 0));
    }
    if str::from_utf8(script).is_err() {
        return Err(ScanFault::Refused(ScanRefusal::NotUtf8, 0));
    }
    let at = octets::stray_length(script);
    if at < script.len() {
        return Err(ScanFault::Refused(ScanRefusal::NoToken, at));
    }
    Ok(())
}

/// The mark at the front of a text, with no gap before it, and the text after it.
#[inline(always)]
fn split_mark(text: &[u8]) -> Option<(Mark, &[u8])>
    ensures { IfSome result
        (λ x. (octet : ℕ) × (text.now ≡ octet ∷ x.1.now) × (mark_of octet ≡ Some x.0)) }
{
    let (&first, following) = text.split_first()?;
    Some((mark(first)?, following))
}

/// The mark at the front of a text, with no gap before it.
#[inline(always)]
pub fn first_mark(text: &[u8]) -> Option<Mark>
    ensures { IfSome result
        (λ m. (rest : List TokenKind) × (kinds_in text.now ≡ kinds.Mark m ∷ rest)) }
{
    match text {
        [first, ..] => mark(*first),
        _ => None,
    }
}

/// Whether an identifier is at the front of a text, with no gap before it.
#[inline(always)]
pub fn begins_with_name(text: &[u8]) -> bool
    ensures { result ≡ true → (name : List ℕ) × (rest : List TokenKind) ×
        (kinds_in text.now ≡ kinds.Identifier name ∷ rest) }
{
    match text {
        [first, ..] => octets::starts_word(*first) && !multi_line::begins(text),
        _ => false,
    }
}

/// What `split_lexeme` gives, without looking for a mark first.
fn split_other(text: &[u8]) -> Option<(Lexeme<'_>, &[u8])>
    ensures cases { MatchOption result (kinds_in text.now ≡ [])
        (λ x. kinds_in text.now ≡ kind_of x.0 ∷ kinds_in x.1.now) }
    ensures fewer { IfSome result (λ x. length (kinds_in x.1.now) < length (kinds_in text.now)) }
    ensures left { MatchOption result (left_in text.now ≡ drop (gap_len 0 text.now) text.now)
        (λ x. left_in x.1.now ≡ left_in text.now) }
{
    let rest = gap::after_gap(text);
    let Ok((lexeme, length)) = lexeme(rest, 0) else {
        return None;
    };
    let (_, following) = rest.split_at(length);
    Some((lexeme, gap::after_gap(following)))
}

/// The first token of a text, as written, and the text after it and after the gap that follows it. As the gap is
/// skipped, the first octet of the rest shows the next token. `None` where no token comes first after white space and
/// comments.
#[inline(always)]
pub fn split_lexeme(text: &[u8]) -> Option<(Lexeme<'_>, &[u8])>
    ensures cases { MatchOption result (kinds_in text.now ≡ [])
        (λ x. kinds_in text.now ≡ kind_of x.0 ∷ kinds_in x.1.now) }
    ensures fewer { IfSome result (λ x. length (kinds_in x.1.now) < length (kinds_in text.now)) }
    ensures left { MatchOption result (left_in text.now ≡ drop (gap_len 0 text.now) text.now)
        (λ x. left_in x.1.now ≡ left_in text.now) }
{
    if let Some((mark, following)) = split_mark(text) {
        return Some((Lexeme::Mark(mark), gap::after_gap(following)));
    }
    split_other(text)
}

/// How many tokens a script has. A text that is no sequence of tokens is refused as by `scan`.
pub fn count_tokens(script: &[u8]) -> Result<usize, ScanFault>
    ensures tokens { IfOk result (λ n. (ts : List Token) × IsScan script.now ts × (length ts ≡ n)) }
    ensures fault { IfErr result (λ e. FaultsBy script.now e) }
    ensures place { IfErr result (λ e. StandsIn script.now e) }
{
    check_text(script)?;
    let mut count = 0;
    let mut at = 0;
    while let Some(next) = placed_lexeme(script, at)? {
        at = next.end as usize;
        count += 1;
    }
    Ok(count)
}

/// A token that owns its content.
fn token(alloc: Global, placed: PlacedLexeme<'_>) -> Result<Token, AllocError>
    ensures { IfOk result (λ t. t ≡ token_of placed.entry) }
{
    let kind = match placed.lexeme {
        Lexeme::Identifier(name) => TokenKind::Identifier(Text::from_slice(alloc, name)?),
        Lexeme::Tag(name) => TokenKind::Tag(Text::from_slice(alloc, name)?),
        Lexeme::Number(number) => TokenKind::Number(number),
        Lexeme::StringValue(string) => TokenKind::StringValue(string_text(alloc, string)?),
        Lexeme::Mark(mark) => TokenKind::Mark(mark),
    };
    Ok(Token {
        kind,
        start: placed.start,
        end: placed.end,
    })
}

/// The tokens of a script (RFC 5228, section 8.1), in order, each with its place in the script.
///
/// Tokens are identifiers, tags, numbers of at most 2^63 - 1, strings of at most 65,535 octets and marks. Each is the
/// longest that fits. Comments and white space may come between them. A bare LF counts as a line end, and in a string
/// it is read as CR LF.
///
/// A text that is no sequence of tokens is refused by the first of these that holds: it has more than 262,144 octets
/// (15); it is not UTF-8 (10); it has an octet 0, or a CR without LF (11). Otherwise its first faulty place decides: a
/// string (12) or bracketed comment (13) that is not closed, a number above 2^63 - 1 (14), a string that is closed and
/// too long (16), or an octet where no token begins (11). Any answer may be replaced by no memory (99).
pub fn scan(alloc: Global, script: &[u8]) -> Result<Vec<Token>, ScanFault>
    ensures tokens { IfOk result (λ v. IsScan script.now v.items) }
    ensures fault { IfErr result (λ e. FaultsBy script.now e) }
    ensures place { IfErr result (λ e. StandsIn script.now e) }
{
    let mut tokens = Vec::with_capacity(alloc, count_tokens(script)?)?;
    let mut at = 0;
    while let Some(next) = placed_lexeme(script, at)? {
        at = next.end as usize;
        tokens.push(token(alloc, next)?)?;
    }
    Ok(tokens)
}
