//! The value of a field.

ghost use Rattle.std.specs.Prelude.{◌≡◌, [], ◌++◌, ◌+◌, ◌*◌, ◌≤◌, ◌&&◌, length, IfOk, OnOk, if◌then◌else◌};
ghost use Rattle.std.specs.List.{list_all};
ghost use Rattle.mail_words.specs.Unfolding.{is_blank, without_line_ends, without_outer_blanks};
ghost use Rattle.mail_words.specs.Spans.{IsShown};
ghost use Rattle.mail_words.specs.Words.{spelling};
ghost use Rattle.mail_words.specs.Value.{display_of_text, value_of_body, IsPutWord};

use crate::decoding::append_decoded;
use crate::unfolding::{append_unfolded, is_all_blank, trim};
use crate::words::{EncodedWord, StandingWord, next_word};
use std::alloc::{AllocError, Global};

/// What is shown of the gap before a good word: nothing where it is blanks alone and follows a good word, otherwise
/// all.
fn shown_gap(gap: &[u8], after_good: bool) -> &[u8]
    ensures { without_line_ends result.now ≡ (if after_good
        && list_all is_blank (without_line_ends gap.now) then [] else without_line_ends gap.now) }
{
    if after_good && is_all_blank(gap) {
        &[]
    } else {
        gap
    }
}

/// Appends a word as it is written.
fn append_spelling(shown: &mut Vec<u8>, word: &EncodedWord<'_>) -> Result<(), AllocError>
    ensures { OnOk result (shown.new.items ≡ shown.old.items ++ spelling word.now) }
{
    shown.extend_from_slice(b"=?")?;
    append_unfolded(shown, word.charset())?;
    shown.extend_from_slice(&[b'?', word.encoding(), b'?'])?;
    append_unfolded(shown, word.text())?;
    shown.extend_from_slice(b"?=")?;
    Ok(())
}

/// Appends a word and the gap before it as they are shown, after a word that is good or not. Answers whether this one
/// is good.
fn append_word(
    shown: &mut Vec<u8>,
    standing: &StandingWord<'_>,
    after_good: bool,
) -> Result<bool, AllocError>
    ensures { IfOk result (λ good.
        IsPutWord good after_good standing.now.0 standing.now.1 shown.old.items shown.new.items) }
{
    let start = shown.len();
    append_unfolded(shown, shown_gap(standing.gap(), after_good))?;
    if append_decoded(shown, standing.word())? {
        return Ok(true);
    }
    shown.truncate(start);
    append_unfolded(shown, standing.gap())?;
    append_spelling(shown, standing.word())?;
    Ok(false)
}

/// Appends the text with its good words replaced by the texts that they mean. Blanks that alone stand between two good
/// words are left out.
fn append_shown(shown: &mut Vec<u8>, text: &[u8]) -> Result<(), AllocError>
    ensures { OnOk result
        (shown.new.items ≡ shown.old.items ++ display_of_text (without_line_ends text.now)) }
{
    let mut after_good = false;
    let mut rest = text;
    while let Some(standing) = next_word(rest) {
        let good = append_word(shown, &standing, after_good)?;
        after_good = good;
        rest = standing.following();
    }
    append_unfolded(shown, rest)?;
    Ok(())
}

/// Appends the value of a field whose body is `raw`, as `value_of` answers it: at most four octets for each octet of
/// the body. The one error is out of memory, and some octets may have been appended then.
#[tactic(auto, unfolding(crate::specs::Value::value_of_body))]
pub fn append_value(shown: &mut Vec<u8>, raw: &[u8]) -> Result<(), AllocError>
    ensures value { OnOk result (shown.new.items ≡ shown.old.items ++ value_of_body raw.now) }
    ensures short { OnOk result
        (length shown.new.items ≤ length shown.old.items + 4 * length raw.now) }
{
    append_shown(shown, trim(raw))?;
    Ok(())
}

/// The value of a field whose body is `raw`: unfolded (RFC 5322, section 2.2.3), without blanks at both ends, and with
/// its encoded words (RFC 2047) replaced by the texts that they mean, in UTF-8. A word that is not good stays as it is,
/// and so do the blanks beside it; blanks that alone stand between two good words are dropped (RFC 2047, section 6.2).
///
/// A word stands at the value's start or after a space, a tab or "(", and at its end or before a space, a tab or ")".
/// Its encoding is B or Q and its charset us-ascii, utf-8 or iso-8859-1 to iso-8859-16. Of the parts of ISO 8859 from 2
/// on only octets below 128 are read. Words have no limit on their length. The one error is out of memory.
///
/// The contract gives the value twice: as the definition computes it (`value`), and by the words and gaps of the
/// unfolded and trimmed body (`spans`).
///
/// Room for as many octets as the trimmed body has is taken at once. Only words of ISO 8859-1 in B text can come out
/// longer than they are written, by less than a half, and then the room grows.
#[tactic(auto, unfolding(crate::specs::Value::value_of_body))]
pub fn value_of(alloc: Global, raw: &[u8]) -> Result<Vec<u8>, AllocError>
    ensures value { IfOk result (λ v. v.items ≡ value_of_body raw.now) }
    ensures spans { IfOk result
        (λ v. IsShown (without_outer_blanks (without_line_ends raw.now)) v.items) }
{
    let text = trim(raw);
    let mut shown = Vec::with_capacity(alloc, text.len())?;
    append_shown(&mut shown, text)?;
    Ok(shown)
}
