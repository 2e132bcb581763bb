//! Encoded words as they are written (RFC 2047, sections 2 and 5), in a folded text.

ghost use Rattle.std.specs.Prelude.{◌≡◌, ◌∷◌, ◌++◌, [], true, false, length, drop, IfSome, MatchOption};
ghost use Rattle.std.specs.List.{take_while};
ghost use Rattle.mail_words.specs.Unfolding.{without_line_ends};
ghost use Rattle.mail_words.specs.Spans.{may_stand_after};
ghost use Rattle.mail_words.specs.Words.{is_charset_octet, is_text_octet, is_encoding, is_part_octet, IsPartOctet, precedes, can_follow, begins_with_pair, names_encoding, word_at, followed_word_at, first_word, spelling};

use crate::unfolding::{first_octet, is_blank_octet, is_empty, last_octet};
use memchr::memchr;
use std::marker::Model;

/// The two parts of an encoded word that may be of any length.
#[derive(Clone, Copy)]
pub enum WordPart {
    Charset,
    Text,
}

/// The three parts of an encoded word (RFC 2047, section 2) as they are written, line ends included.
#[derive(Drop)]
pub struct EncodedWord<'a> {
    charset: &'a [u8],
    encoding: u8,
    text: &'a [u8],
}

impl<'a> Model for EncodedWord<'a> {
    ghost use Rattle.mail_words.specs.Unfolding.{without_line_ends};
    ghost use Rattle.mail_words.specs.Words.{Word};

    ghost Value = { Word };

    ghost view = { λ w. record {
      charset = without_line_ends w.charset.now;
      encoding = w.encoding;
      text = without_line_ends w.text.now;
    } };
}

impl<'a> EncodedWord<'a> {
    /// The charset's name, line ends included.
    pub fn charset(&self) -> &'a [u8]
        ensures { without_line_ends result.now ≡ self.now.charset }
    {
        self.charset
    }

    /// The letter of the encoding: B, b, Q or q.
    pub fn encoding(&self) -> u8
        ensures { result ≡ self.now.encoding }
    {
        self.encoding
    }

    /// The encoded text, line ends included.
    pub fn text(&self) -> &'a [u8]
        ensures { without_line_ends result.now ≡ self.now.text }
    {
        self.text
    }
}

/// A word at the front of a text, and the rest of the text.
#[derive(Drop)]
pub struct FrontWord<'a> {
    word: EncodedWord<'a>,
    following: &'a [u8],
}

impl<'a> Model for FrontWord<'a> {
    ghost use Rattle.std.specs.Prelude.{ℕ, List};
    ghost use Rattle.mail_words.specs.Unfolding.{without_line_ends};
    ghost use Rattle.mail_words.specs.Words.{Word};

    ghost Value = { Word × List ℕ };

    ghost view = { λ f. (f.word, without_line_ends f.following.now) };
}

impl<'a> FrontWord<'a> {
    /// The word with `gap` before it.
    fn with_gap(self, gap: &'a [u8]) -> StandingWord<'a>
        ensures { result ≡ (without_line_ends gap.entry.now, self.entry.0, self.entry.1) }
    {
        StandingWord {
            gap,
            word: self.word,
            following: self.following,
        }
    }
}

/// A word that stands in a text, with the texts before and after it.
#[derive(Drop)]
pub struct StandingWord<'a> {
    gap: &'a [u8],
    word: EncodedWord<'a>,
    following: &'a [u8],
}

impl<'a> Model for StandingWord<'a> {
    ghost use Rattle.std.specs.Prelude.{ℕ, List};
    ghost use Rattle.mail_words.specs.Unfolding.{without_line_ends};
    ghost use Rattle.mail_words.specs.Words.{Word};

    ghost Value = { List ℕ × Word × List ℕ };

    ghost view = { λ s. (without_line_ends s.gap.now, s.word, without_line_ends s.following.now) };
}

impl<'a> StandingWord<'a> {
    /// The text before the word.
    pub fn gap(&self) -> &'a [u8]
        ensures { without_line_ends result.now ≡ self.now.0 }
    {
        self.gap
    }

    pub fn word(&self) -> &EncodedWord<'a>
        ensures { result.now ≡ self.now.1 }
    {
        &self.word
    }

    /// The text after the word.
    pub fn following(&self) -> &'a [u8]
        ensures { without_line_ends result.now ≡ self.now.2 }
    {
        self.following
    }
}

fn is_in_charset(octet: u8) -> bool
    ensures { result ≡ is_charset_octet octet }
{
    octet >= 33
        && octet <= 126
        && !matches!(
            octet,
            b'(' | b')'
                | b'<'
                | b'>'
                | b'@'
                | b','
                | b';'
                | b':'
                | b'"'
                | b'/'
                | b'['
                | b']'
                | b'?'
                | b'.'
                | b'='
        )
}

fn is_in_text(octet: u8) -> bool
    ensures { result ≡ is_text_octet octet }
{
    octet >= 33 && octet <= 126 && octet != b'?'
}

fn is_encoding_letter(octet: u8) -> bool
    ensures { result ≡ is_encoding octet }
{
    matches!(octet, b'B' | b'b' | b'Q' | b'q')
}

fn is_in_part(part: WordPart, octet: u8) -> bool
    ensures { result ≡ is_part_octet part octet }
{
    match part {
        WordPart::Charset => is_in_charset(octet),
        WordPart::Text => is_in_text(octet),
    }
}

/// The rest after the first octet, if that is one of the part.
fn after_part_octet(text: &[u8], part: WordPart) -> Option<&[u8]>
    ensures { MatchOption result (take_while (is_part_octet part) (without_line_ends text.now) ≡
        []) (λ following. IsPartOctet part text.now following.now) }
{
    match first_octet(text) {
        Some((octet, following)) if is_in_part(part, octet) => Some(following),
        _ => None,
    }
}

/// The octets at the front of a text that are the part's, and the rest.
fn split_part(text: &[u8], part: WordPart) -> (&[u8], &[u8])
    ensures front { without_line_ends result.0.now
        ≡ take_while (is_part_octet part) (without_line_ends text.now) }
    ensures following { without_line_ends result.1.now
        ≡ drop (length (take_while (is_part_octet part) (without_line_ends text.now)))
        (without_line_ends text.now) }
{
    let mut rest = text;
    while let Some(following) = after_part_octet(rest, part) {
        rest = following;
    }
    let (front, _) = text.split_at(text.len() - rest.len());
    (front, rest)
}

/// The rest after these two octets, if the text begins with them.
fn after_pair(text: &[u8], first: u8, second: u8) -> Option<&[u8]>
    ensures { MatchOption result
        (begins_with_pair first second (without_line_ends text.now) ≡ false) (λ following.
        without_line_ends text.now ≡ first ∷ second ∷ without_line_ends following.now) }
{
    let (octet, rest) = first_octet(text)?;
    let (next, following) = first_octet(rest)?;
    if octet == first && next == second {
        Some(following)
    } else {
        None
    }
}

/// The letter of an encoding and the rest after it, if the text begins with one between two "?".
fn after_encoding(text: &[u8]) -> Option<(u8, &[u8])>
    ensures { MatchOption result (names_encoding (without_line_ends text.now) ≡ false)
        (λ e. (without_line_ends text.now ≡ 63 ∷ e.0 ∷ 63 ∷ without_line_ends e.1.now)
        × (is_encoding e.0 ≡ true)) }
{
    let (first, rest) = first_octet(text)?;
    let (letter, rest) = first_octet(rest)?;
    let (last, following) = first_octet(rest)?;
    if first == b'?' && is_encoding_letter(letter) && last == b'?' {
        Some((letter, following))
    } else {
        None
    }
}

/// Whether a word may stand directly after the octet.
fn may_precede(octet: u8) -> bool
    ensures { result ≡ precedes octet }
{
    is_blank_octet(octet) || octet == b'('
}

/// Whether the text may stand directly after a word.
fn may_follow(text: &[u8]) -> bool
    ensures { result ≡ can_follow (without_line_ends text.now) }
{
    match first_octet(text) {
        Some((octet, _)) => is_blank_octet(octet) || octet == b')',
        None => true,
    }
}

/// The word at the front of a text, if one stands there.
fn front_word(text: &[u8]) -> Option<FrontWord<'_>>
    ensures { result ≡ word_at (without_line_ends text.now) }
{
    let opened = after_pair(text, b'=', b'?')?;
    let (charset, encoded) = split_part(opened, WordPart::Charset);
    let (encoding, rest) = after_encoding(encoded)?;
    let (text, closed) = split_part(rest, WordPart::Text);
    let following = after_pair(closed, b'?', b'=')?;
    if is_empty(charset) || is_empty(text) {
        return None;
    }
    let word = EncodedWord {
        charset,
        encoding,
        text,
    };
    Some(FrontWord { word, following })
}

/// The word at the front of a text, if one stands there and the rest may follow a word.
fn followed_word(text: &[u8]) -> Option<FrontWord<'_>>
    ensures { result ≡ followed_word_at (without_line_ends text.now) }
{
    match front_word(text) {
        Some(front) if may_follow(front.following) => Some(front),
        _ => None,
    }
}

/// Whether a word may stand directly after the gap.
fn may_begin_after(gap: &[u8]) -> bool
    ensures { result ≡ may_stand_after true (without_line_ends gap.now) }
{
    match last_octet(gap) {
        Some((_, octet)) => may_precede(octet),
        None => true,
    }
}

/// The first word that stands in a text. One may stand at the text's start.
pub fn next_word(text: &[u8]) -> Option<StandingWord<'_>>
    ensures first { result ≡ first_word true (without_line_ends text.now) }
    ensures spelled { IfSome result
        (λ s. without_line_ends text.now ≡ s.0 ++ (spelling s.1 ++ s.2)) }
{
    let mut from = 0;
    while let Some(step) = memchr(b'=', &text[from..]) {
        let place = from + step;
        let (gap, rest) = text.split_at(place);
        if may_begin_after(gap) {
            if let Some(front) = followed_word(rest) {
                return Some(front.with_gap(gap));
            }
        }
        from = place + 1;
    }
    None
}
