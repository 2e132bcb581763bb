//! What an encoded word means (RFC 2047, sections 3 and 4).

ghost use Rattle.std.specs.Prelude.{◌≡◌, IfOk, OnOk};
ghost use Rattle.mail_words.specs.Unfolding.{without_line_ends};
ghost use Rattle.mail_words.specs.Charsets.{charset_named, ArePut};
ghost use Rattle.mail_words.specs.Decoding.{octets_of, text_of, IsAppended};

use crate::base64_text::append_b;
use crate::charset::{Charset, charset_of, is_read};
use crate::quoted::append_q;
use crate::unfolding::append_unfolded;
use crate::words::EncodedWord;
use std::alloc::AllocError;

/// The charset of a name, if it is one of those that are read. The name may be folded, so it is unfolded at the end of
/// `shown`, and removed from there again.
fn charset_written(shown: &mut Vec<u8>, name: &[u8]) -> Result<Option<Charset>, AllocError>
    ensures value { IfOk result (λ c. c ≡ charset_named (without_line_ends name.now)) }
    ensures same { OnOk result (shown.new.items ≡ shown.old.items) }
{
    let start = shown.len();
    append_unfolded(shown, name)?;
    let charset = charset_of(&shown.as_slice()[start..]);
    shown.truncate(start);
    Ok(charset)
}

/// Appends the octets that a word's text encodes, as they are written in a charset, and answers whether the text is
/// good. Where it is bad, some octets may have been appended.
fn append_text(
    shown: &mut Vec<u8>,
    charset: Charset,
    word: &EncodedWord<'_>,
) -> Result<bool, AllocError>
    ensures { IfOk result
        (λ good. ArePut good charset shown.old.items (octets_of word.now) shown.new.items) }
{
    if word.encoding().to_ascii_lowercase() == b'b' {
        append_b(shown, charset, word.text())
    } else {
        append_q(shown, charset, word.text())
    }
}

/// Appends the text of a word in UTF-8 and answers whether the word is good (RFC 2047, sections 3 and 4). It is good
/// where its charset is one that is read, its text is good, and each octet has a meaning in the charset. For another
/// word some octets may have been appended.
#[tactic(auto, unfolding(crate::specs::Decoding::text_of))]
pub fn append_decoded(shown: &mut Vec<u8>, word: &EncodedWord<'_>) -> Result<bool, AllocError>
    ensures { IfOk result
        (λ good. IsAppended good shown.old.items (text_of word.now) shown.new.items) }
{
    let start = shown.len();
    let Some(charset) = charset_written(shown, word.charset())? else {
        return Ok(false);
    };
    let good = append_text(shown, charset, word)?;
    Ok(good && is_read(charset, &shown.as_slice()[start..]))
}
