//! Encoded words as they are written (RFC 2047, section 2), in a text without line ends.

ghost use Rattle.std.specs.Prelude.{◌≡◌, ◌<◌, ◌≤◌, ◌==◌, not, length, IfSome, MatchOption};
ghost use Rattle.std.specs.List.{prefix_len};
ghost use Rattle.mail_words.specs.Words.{is_charset_octet};
ghost use Rattle.mail_words.specs.Unfolding.{begins_with};
ghost use Rattle.mail_display.specs.Words.{is_text_octet, word_at, begins_word};

/// The parts of an encoded word at the front of a text, and the rest of the text.
#[derive(Drop)]
pub struct FrontWord<'a> {
    pub charset: &'a [u8],
    /// The letter of the encoding.
    pub encoding: u8,
    pub text: &'a [u8],
    pub rest: &'a [u8],
}

/// Whether an octet may stand in the name of a charset (RFC 2047, section 2).
fn is_in_charset(octet: u8) -> bool
    ensures { result ≡ is_charset_octet octet }
{
    octet >= 33
        && octet <= 126
        && !matches!(
            octet,
            b'(' | b')'
                | b'<'
                | b'>'
                | b'@'
                | b','
                | b';'
                | b':'
                | b'"'
                | b'/'
                | b'['
                | b']'
                | b'?'
                | b'.'
                | b'='
        )
}

/// How many octets of a charset's name a text begins with.
fn charset_len(text: &[u8]) -> usize
    ensures value { result ≡ prefix_len is_charset_octet text.now }
    ensures within { result ≤ length text.now }
{
    text.iter()
        .take_while(|octet| is_in_charset(**octet))
        .count()
}

/// How many octets a text has before its first "?".
fn text_len(text: &[u8]) -> usize
    ensures value { result ≡ prefix_len is_text_octet text.now }
    ensures within { result ≤ length text.now }
{
    text.iter().take_while(|octet| **octet != b'?').count()
}

/// The parts of the encoded word at the front of a text, if one stands there: =?charset?encoding?text?= (RFC 2047,
/// section 2). The text may be empty and have any octets but "?", and the encoding is any one octet.
#[tactic(auto, unfolding(crate::specs::Words::word_at))]
pub fn front_word(text: &[u8]) -> Option<FrontWord<'_>>
    ensures value { MatchOption result (word_at text.now ≡ None) (λ w. word_at text.now ≡ Some
        (record {
          charset = w.charset.now;
          encoding = w.encoding;
          text = w.text.now;
          rest = w.rest.now;
        })) }
    ensures shorter { IfSome result (λ w. length w.rest.now < length text.now) }
{
    let [b'=', b'?', opened @ ..] = text else {
        return None;
    };
    let (charset, named) = opened.split_at(charset_len(opened));
    let [b'?', encoding, b'?', encoded @ ..] = named else {
        return None;
    };
    let (text, closed) = encoded.split_at(text_len(encoded));
    let [b'?', b'=', rest @ ..] = closed else {
        return None;
    };
    Some(FrontWord {
        charset,
        encoding: *encoding,
        text,
        rest,
    })
}

/// Whether a text begins as an encoded word does: with "=?", the name of a charset and "?".
#[tactic(auto, unfolding(crate::specs::Words::begins_word))]
pub fn begins_as_word(text: &[u8]) -> bool
    ensures { result ≡ begins_word text.now }
{
    let [b'=', b'?', opened @ ..] = text else {
        return false;
    };
    let (charset, named) = opened.split_at(charset_len(opened));
    !charset.is_empty() && begins_with_mark(named)
}

fn begins_with_mark(text: &[u8]) -> bool
    ensures { result ≡ begins_with 63 text.now }
{
    match text {
        [first, ..] => *first == b'?',
        [] => false,
    }
}
