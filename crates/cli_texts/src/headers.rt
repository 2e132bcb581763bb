//! What a message's header says, as people read it.

ghost use Rattle.std.specs.Prelude.{◌≡◌, ◌++◌, [], map, IfOk, OnOk, MatchOption, chars, option_map, string_bytes};
ghost use Rattle.std.specs.Str.{encode_utf8_all};
ghost use Rattle.mail_head.specs.Fields.{fields_of};
ghost use Rattle.mail_display.specs.Fields.{IsShownOf};
ghost use Rattle.mail_display.specs.Undecoded.{undecoded_in};
ghost use Rattle.mail_display.specs.Groups.{is_called as is_called_same};
ghost use Rattle.cli_texts.specs.Undecoded.{cause_words, is_known, undecoded_words as undecoded_words_of};
ghost use Rattle.cli_texts.specs.Cuts.{columns_of as columns_of_character, fits_in, front_in, cut_text, cut_octets};
ghost use Rattle.cli_texts.specs.Headers.{sender_of, subject_of, date_of, texts_in};

use mail_display::{DisplayText, UndecodedWord, date, sender, subject, undecoded_words};
use std::alloc::{AllocError, Global};
use tool_texts::Shown;
use unicode_width::UnicodeWidthChar;

/// How many columns a text of a header has at most in a line or on a page.
const COLUMNS: usize = 80;

/// Texts of a message's header as people read them (see `mail_display::display`). Each may have any characters, and is
/// empty where the message has no such field.
pub struct Headers {
    /// Of the first From, or else of the first Sender.
    pub sender: String,
    /// Of the first Subject.
    pub subject: String,
    /// Of the first Date. It need not be a date.
    pub date: String,
}

impl Drop for Headers {
    fn drop(self) {
        let Headers {
            sender: _,
            subject: _,
            date: _,
        } = self;
    }
}

/// What is listed of the header of a record's message.
#[derive(Clone, Copy)]
pub enum ListedHeaders<'a> {
    /// Nothing, since it is not asked for.
    Unasked,
    /// Nothing, since the message is destroyed.
    Destroyed,
    Texts(&'a Headers),
}

impl<'a> ListedHeaders<'a> {
    /// The texts, if there are any.
    pub(crate) fn texts(self) -> Option<&'a Headers>
        ensures { option_map (λ h. h.now) result ≡ texts_in self.entry }
    {
        match self {
            ListedHeaders::Texts(headers) => Some(headers),
            ListedHeaders::Unasked | ListedHeaders::Destroyed => None,
        }
    }
}

/// What is shown of a field, if there is one.
fn text_of(alloc: Global, shown: Option<DisplayText>) -> String
    ensures { MatchOption shown (string_bytes result ≡ [])
        (λ d. string_bytes result ≡ string_bytes d.text) }
{
    match shown {
        Some(shown) => shown.text,
        None => String::new(alloc),
    }
}

/// The sender, the subject and the date of a message. The one error is out of memory.
#[tactic(auto, using(crate::proofs::HeaderLemmas::shown_text))]
pub fn headers_of(alloc: Global, message: &[u8]) -> Result<Headers, AllocError>
    ensures sender { IfOk result (λ h. string_bytes h.sender ≡ sender_of message.now) }
    ensures subject { IfOk result (λ h. string_bytes h.subject ≡ subject_of message.now) }
    ensures date { IfOk result (λ h. string_bytes h.date ≡ date_of message.now) }
{
    Ok(Headers {
        sender: text_of(alloc, sender(alloc, message)?),
        subject: text_of(alloc, subject(alloc, message)?),
        date: text_of(alloc, date(alloc, message)?),
    })
}

/// How many columns a character is counted as: one at least, so that a text is never longer than its columns.
#[tactic(auto, unfolding(crate::specs::Cuts::columns_of))]
fn columns_of(c: char) -> usize
    ensures { result ≡ columns_of_character c }
{
    c.width().unwrap_or(1).max(1)
}

/// Whether a text has at most so many columns.
fn fits(text: &str, most: usize) -> bool
    ensures { result ≡ fits_in most (chars text.now) }
{
    let mut left = most;
    for c in text.chars() {
        match left.checked_sub(columns_of(c)) {
            Some(rest) => left = rest,
            None => return false,
        }
    }
    true
}

/// The longest front of a text that has at most so many columns.
fn front_of(alloc: Global, text: &str, most: usize) -> Result<String, AllocError>
    ensures { IfOk result
        (λ front. string_bytes front ≡ encode_utf8_all (front_in most (chars text.now))) }
{
    let mut front = String::new(alloc);
    let mut left = most;
    for c in text.chars() {
        match left.checked_sub(columns_of(c)) {
            Some(rest) => left = rest,
            None => return Ok(front),
        }
        front.push(c)?;
    }
    Ok(front)
}

/// A text of at most 80 columns: the whole text, or its front and an ellipsis. A character that takes no column is counted
/// as one, so there are at most 80 characters.
fn cut(alloc: Global, text: &str) -> Result<String, AllocError>
    ensures { IfOk result (λ t. string_bytes t ≡ cut_octets text.now) }
{
    if fits(text, COLUMNS) {
        return String::from_str(alloc, text);
    }
    let mut front = front_of(alloc, text, COLUMNS - 1)?;
    front.push('…')?;
    Ok(front)
}

impl Headers {
    /// The texts, each cut to at most 80 columns, with an ellipsis where something is left out.
    ///
    /// The only refusal is no memory (99).
    pub fn cut(&self, alloc: Global) -> Result<Headers, AllocError>
        ensures sender { IfOk result
            (λ h. string_bytes h.sender ≡ cut_octets (string_bytes self.now.sender)) }
        ensures subject { IfOk result
            (λ h. string_bytes h.subject ≡ cut_octets (string_bytes self.now.subject)) }
        ensures date { IfOk result
            (λ h. string_bytes h.date ≡ cut_octets (string_bytes self.now.date)) }
    {
        Ok(Headers {
            sender: cut(alloc, self.sender.as_str())?,
            subject: cut(alloc, self.subject.as_str())?,
            date: cut(alloc, self.date.as_str())?,
        })
    }
}

/// The charsets of which rules decode each word that is written as it has to be. Of the others they decode ASCII at most.
const KNOWN_TO_RULES: [&str; 3] = ["us-ascii", "utf-8", "iso-8859-1"];

/// Whether two names are the same, in any case of their letters.
fn is_called(name: &[u8], other: &[u8]) -> bool
    ensures { result ≡ is_called_same name.now other.now }
{
    name.eq_ignore_ascii_case(other)
}

/// Whether rules know all of a charset.
fn is_known_to_rules(charset: &[u8]) -> bool
    ensures { result ≡ is_known charset.now }
{
    KNOWN_TO_RULES
        .iter()
        .any(|name| is_called(charset, name.as_bytes()))
}

/// Why rules see a word in a charset undecoded.
fn put_cause(line: &mut Shown, charset: &[u8]) -> Result<(), AllocError>
    ensures { OnOk result (line.new ≡ line.old ++ cause_words charset.now) }
{
    line.words(if is_known_to_rules(charset) {
        ", in a form that rules do not decode"
    } else {
        ", which rules see undecoded"
    })
}

/// A line for a word that rules see undecoded, without its end: `Subject has a word in windows-1252, which rules see
/// undecoded`; where they know its charset, that its form is the cause.
#[tactic(auto, unfolding(crate::specs::Undecoded::undecoded_words))]
fn undecoded_line(alloc: Global, word: &UndecodedWord) -> Result<Shown, AllocError>
    ensures { IfOk result (λ line. line ≡ undecoded_words_of word.now) }
{
    let mut line = Shown::new(alloc);
    line.named(word.field())?;
    line.words(" has a word in ")?;
    line.named(word.charset())?;
    put_cause(&mut line, word.charset())?;
    Ok(line)
}

/// The lines of words.
fn lines_of(alloc: Global, words: &[UndecodedWord]) -> Result<Vec<Shown>, AllocError>
    ensures { IfOk result (λ lines. lines.items ≡ map undecoded_words_of words.now) }
{
    let mut lines = Vec::new(alloc);
    for word in words {
        lines.push(undecoded_line(alloc, word)?)?;
    }
    Ok(lines)
}

/// A line for each name of a field and each charset in which it has words that rules see undecoded, at most 20 (see
/// `mail_display::undecoded_words`). The end of a line is not part of it.
///
/// The only refusal is no memory (99).
pub fn undecoded_lines(alloc: Global, message: &[u8]) -> Result<Vec<Shown>, AllocError>
    ensures { IfOk result
        (λ lines. lines.items ≡ map undecoded_words_of (undecoded_in message.now)) }
{
    let words = undecoded_words(alloc, message)?;
    lines_of(alloc, words.as_slice())
}
