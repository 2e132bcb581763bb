//! Octets with which no token begins, and tokens that a text may not have.

use crate::fronts::fronts_of;
use crate::repaired::{Patch, Repaired};
use crate::subjects::Subject;
use sieve_text::{ScanFault, ScanRefusal, scan};
use std::alloc::{AllocError, Global};

/// What a text begins with that is saved with a byte order mark.
const BYTE_ORDER_MARK: &[u8] = b"\xEF\xBB\xBF";

/// What begins a comment elsewhere.
const BEGINS_NO_COMMENT: &[u8] = b"//";

/// Marks of typography, each with the one that a script has in its place.
const TYPOGRAPHIC: &[(&str, &str)] = &[
    ("\u{201C}", "\""),
    ("\u{201D}", "\""),
    ("\u{201E}", "\""),
    ("\u{201F}", "\""),
    ("\u{2033}", "\""),
    ("\u{00AB}", "\""),
    ("\u{00BB}", "\""),
    ("\u{2018}", "\""),
    ("\u{2019}", "\""),
    ("\u{201A}", "\""),
    ("'", "\""),
    ("`", "\""),
    ("\u{00A0}", " "),
    ("\u{FF1A}", ":"),
    ("\u{FF1B}", ";"),
];

/// The mark of typography at the front of a text, in octets, and what stands for it in a script.
fn typographic_mark(rest: &[u8]) -> Option<(usize, &'static str)> {
    TYPOGRAPHIC
        .iter()
        .find(|(mark, _)| rest.starts_with(mark.as_bytes()))
        .map(|(mark, plain)| (mark.len(), *plain))
}

/// How many octets the character at the front of a text has.
fn character_length(rest: &[u8]) -> usize {
    let following = rest
        .iter()
        .skip(1)
        .take(3)
        .take_while(|octet| matches!(**octet, 0x80..=0xBF))
        .count();
    following.saturating_add(1)
}

/// Whether an octet is a sign of ASCII that a script has in strings and comments alone.
fn is_sign(octet: u8) -> bool {
    octet.is_ascii_punctuation() && !b";{}()[],:\"#_'`".contains(&octet)
}

/// How many octets are taken out at the front of a text with which no token begins: some signs, or one character.
fn length_taken(rest: &[u8]) -> usize {
    if rest.starts_with(BEGINS_NO_COMMENT) {
        return rest.iter().take_while(|octet| **octet != b'\n').count();
    }
    let signs = rest.iter().take_while(|octet| is_sign(**octet)).count();
    if signs > 0 {
        signs
    } else {
        character_length(rest)
    }
}

/// What is wrong with an octet at which no token begins.
pub(crate) fn subject_of_octet(text: &[u8], at: usize) -> Subject {
    let rest = &text[at.min(text.len())..];
    if rest.starts_with(BYTE_ORDER_MARK) {
        return Subject::ByteOrderMark;
    }
    if rest.starts_with(BEGINS_NO_COMMENT) {
        let end = at.saturating_add(BEGINS_NO_COMMENT.len());
        return Subject::Instead(at, end, "#");
    }
    match typographic_mark(rest) {
        Some((length, plain)) => Subject::Typographic(at, at.saturating_add(length), plain),
        None => Subject::Whole,
    }
}

/// The next mark of typography in the line of an offset, by its offset and its length.
fn next_mark(text: &[u8], from: usize) -> Option<(usize, usize)> {
    let rest = &text[from.min(text.len())..];
    let line = rest.iter().take_while(|octet| **octet != b'\n').count();
    for (place, octet) in rest.iter().enumerate().take(line) {
        if matches!(*octet, 0x80..=0xBF) {
            continue;
        }
        if let Some((length, "\"")) = typographic_mark(&rest[place.min(rest.len())..]) {
            return Some((from.saturating_add(place), length));
        }
    }
    None
}

/// Writes quotation marks in place of two marks of typography, or one blank in place of one.
fn mend_typographic(script: &mut Repaired, at: usize, end: usize) -> Result<(), AllocError> {
    let Some((closing, length)) = next_mark(script.text(), end) else {
        return script.patch(Patch {
            start: at,
            end,
            with: b" ",
        });
    };
    script.patch(Patch {
        start: closing,
        end: closing.saturating_add(length),
        with: b"\"",
    })?;
    script.patch(Patch {
        start: at,
        end,
        with: b"\"",
    })
}

/// Repairs an octet at which no token begins.
fn mend_octet(script: &mut Repaired, at: usize, subject: Subject) -> Result<(), AllocError> {
    if let Subject::Typographic(_, _, plain) = subject {
        let text = script.text();
        let rest = &text[at.min(text.len())..];
        let length = typographic_mark(rest).map_or(1, |(length, _)| length);
        let end = at.saturating_add(length);
        if plain == "\"" {
            return mend_typographic(script, at, end);
        }
        return script.patch(Patch {
            start: at,
            end,
            with: plain.as_bytes(),
        });
    }
    let text = script.text();
    let length = length_taken(&text[at.min(text.len())..]);
    script.patch(Patch {
        start: at,
        end: at.saturating_add(length),
        with: b" ",
    })
}

/// Cuts a script off before a string or comment that is not closed: behind the last command that ends before it, with the
/// open blocks closed.
fn cut(alloc: Global, script: &mut Repaired, at: usize) -> Result<bool, AllocError> {
    let text = script.text();
    let tokens = match scan(alloc, &text[..at.min(text.len())]) {
        Ok(tokens) => tokens,
        Err(ScanFault::NoMemory) => return Err(AllocError),
        Err(ScanFault::Refused(_, _)) => return Ok(false),
    };
    let fronts = fronts_of(alloc, &tokens)?;
    let (end, depth) = fronts.last().map_or((0, 0), |last| (last.end, last.depth));
    script.patch(Patch {
        start: end,
        end: script.text().len(),
        with: b"",
    })?;
    for _ in 0..depth {
        script.patch(Patch::insertion(end, b"}"))?;
    }
    Ok(true)
}

/// The end of the number that begins at an offset.
fn number_end(text: &[u8], at: usize) -> usize {
    let rest = &text[at.min(text.len())..];
    let digits = rest
        .iter()
        .take_while(|octet| octet.is_ascii_digit())
        .count();
    let unit = rest
        .iter()
        .skip(digits)
        .take(1)
        .filter(|octet| matches!(octet.to_ascii_uppercase(), b'K' | b'M' | b'G'))
        .count();
    at.saturating_add(digits).saturating_add(unit)
}

/// The end of the quoted string that begins at an offset; none where it is no quoted string.
fn string_end(text: &[u8], at: usize) -> Option<usize> {
    let rest = &text[at.min(text.len())..];
    let mut is_escaped = false;
    for (place, octet) in rest.iter().enumerate() {
        match *octet {
            b'"' if place == 0 => {}
            _ if place == 0 => return None,
            b'"' if !is_escaped => return Some(at.saturating_add(place).saturating_add(1)),
            _ => {}
        }
        is_escaped = *octet == b'\\' && !is_escaped;
    }
    None
}

/// What became of a text that is no sequence of tokens.
#[derive(Clone, Copy)]
pub(crate) enum Mended {
    /// It goes on.
    Whole,
    /// What follows is cut off.
    Cut,
    /// It cannot be repaired.
    Not,
}

/// Repairs a text that is no sequence of tokens, for this reason at this offset.
pub(crate) fn mend_scan(
    alloc: Global,
    script: &mut Repaired,
    refusal: ScanRefusal,
    at: usize,
) -> Result<Mended, AllocError> {
    match refusal {
        ScanRefusal::NoToken => {
            let subject = subject_of_octet(script.text(), at);
            mend_octet(script, at, subject)?;
            Ok(Mended::Whole)
        }
        ScanRefusal::StringNotClosed | ScanRefusal::CommentNotClosed => {
            Ok(if cut(alloc, script, at)? {
                Mended::Cut
            } else {
                Mended::Not
            })
        }
        ScanRefusal::NumberTooLarge => {
            let end = number_end(script.text(), at);
            script.patch(Patch {
                start: at,
                end,
                with: b"1",
            })?;
            Ok(Mended::Whole)
        }
        ScanRefusal::StringTooLong => match string_end(script.text(), at) {
            Some(end) => {
                script.patch(Patch {
                    start: at,
                    end,
                    with: b"\"\"",
                })?;
                Ok(Mended::Whole)
            }
            None => Ok(Mended::Not),
        },
        ScanRefusal::NotUtf8 | ScanRefusal::ScriptTooLong => Ok(Mended::Not),
    }
}
