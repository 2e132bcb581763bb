//! Laws of the definitions, each as the contract of a function that does nothing.

ghost use Rattle.std.specs.Prelude.{ℕ, List};
ghost use Rattle.mail_words.specs.Meaning.{MeaningLaw};
ghost use Rattle.mail_words.specs.Spans.{DisplayLaw, StandApart};

/// A word that is written as RFC 2047 requires means at most one text, and that is the one computed. Its B text encodes
/// some octets (RFC 4648, section 4), or its Q text does (RFC 2047, section 4.2), and these have a text in its charset.
pub fn meaning_is_decided()
    ensures { MeaningLaw }
{}

/// A text has exactly one value, and that is the one computed. Each good word that stands in it is replaced by the text
/// that the word means. Each gap of blanks alone between two good words is dropped, and no other octet is.
pub fn value_is_decided()
    ensures { DisplayLaw }
{}

/// Two words that stand in a text never overlap (RFC 2047, section 5).
pub fn words_stand_apart()
    ensures { (text : List ℕ) → StandApart text }
{}
