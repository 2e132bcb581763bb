//! Texts for a terminal or a log.

ghost use Rattle.std.specs.Prelude.{◌≡◌, ◌++◌, [], ◌∷◌, List, ℕ, IfSome, OnOk, string_bytes};
ghost use Rattle.std.specs.Str.{encode_utf8_all};
ghost use Rattle.tool_texts.specs.Quoting.{AreLines, IsShown, visible_text, escaped_text, quoted_text, named_text};

use crate::quoting::{escaped, named, quoted, visible};
use std::alloc::{AllocError, Global};
use std::fmt::{self, Display};
use std::marker::Model;

/// Adds pieces to a [`Shown`] text, one after the other: words of the program, and values by the calls of `Shown` that are
/// named. Answers what the first call that fails answers, and else what the last one does.
#[macro_export]
macro_rules! put {
    ($text:expr; $words:literal) => {
        $text.words($words)
    };
    ($text:expr; $call:ident($($value:expr)?)) => {
        $text.$call($($value)?)
    };
    ($text:expr; $words:literal $($rest:tt)+) => {
        match $text.words($words) {
            Ok(()) => $crate::put!($text; $($rest)+),
            Err(error) => Err(error),
        }
    };
    ($text:expr; $call:ident($($value:expr)?) $($rest:tt)+) => {
        match $text.$call($($value)?) {
            Ok(()) => $crate::put!($text; $($rest)+),
            Err(error) => Err(error),
        }
    };
}

/// A text for a terminal or a log: lines of visible characters and blanks.
///
/// It grows by words of the program itself, by what values display, and by octets that anybody may have chosen, which are
/// escaped or quoted. None of these ends a line, whatever it has: [`end_line`](Shown::end_line) alone does. So no name in
/// it looks like another line, and none moves the cursor or turns the direction of the text.
#[derive(Drop)]
pub struct Shown {
    text: String,
}

impl Model for Shown {
    ghost Value = { List ℕ };

    ghost view = { λ s. string_bytes s.text };

    ghost invariant = { λ s. AreLines (string_bytes s.text) };
}

impl Shown {
    /// An empty text.
    pub fn new(alloc: Global) -> Shown
        ensures { result ≡ [] }
    {
        Shown {
            text: String::new(alloc),
        }
    }

    /// Adds a text that is shown.
    fn add(&mut self, text: &str) -> Result<(), AllocError>
        requires { IsShown text.now }
        ensures { OnOk result (self.new ≡ self.old ++ text.now) }
    {
        self.text.push_str(text)
    }

    /// Adds words of the program itself. A hidden character in them is shown by its number.
    pub fn words(&mut self, words: &'static str) -> Result<(), AllocError>
        ensures { OnOk result (self.new ≡ self.old ++ encode_utf8_all (visible_text words.now)) }
    {
        let text = visible(*self.text.allocator(), words)?;
        self.add(text.as_str())
    }

    /// Adds what a value displays: a number, a day, an error. A hidden character in it is shown by its number.
    pub fn value<T: Display>(&mut self, value: &T) -> Result<(), AllocError>
        ensures { OnOk result (IfSome (T.output value.now)
            (λ bytes. self.new ≡ self.old ++ encode_utf8_all (visible_text bytes))) }
    {
        let words = value.to_string(*self.text.allocator())?;
        let text = visible(*self.text.allocator(), words.as_str())?;
        self.add(text.as_str())
    }

    /// Adds octets as they are shown between quotation marks, without these.
    pub fn escaped(&mut self, octets: &[u8]) -> Result<(), AllocError>
        ensures { OnOk result
            (self.new ≡ self.old ++ encode_utf8_all (escaped_text octets.now)) }
    {
        let text = escaped(*self.text.allocator(), octets)?;
        self.add(text.as_str())
    }

    /// Adds octets in quotation marks.
    pub fn quoted(&mut self, octets: &[u8]) -> Result<(), AllocError>
        ensures { OnOk result
            (self.new ≡ self.old ++ encode_utf8_all (quoted_text octets.now)) }
    {
        let text = quoted(*self.text.allocator(), octets)?;
        self.add(text.as_str())
    }

    /// Adds a name or a path: as it is, where it consists of visible ASCII without quotation marks and backslashes; otherwise
    /// in quotation marks.
    pub fn named(&mut self, name: &[u8]) -> Result<(), AllocError>
        ensures { OnOk result
            (self.new ≡ self.old ++ encode_utf8_all (named_text name.now)) }
    {
        let text = named(*self.text.allocator(), name)?;
        self.add(text.as_str())
    }

    /// Adds another such text.
    pub fn text(&mut self, other: &Shown) -> Result<(), AllocError>
        ensures { OnOk result (self.new ≡ self.old ++ other.now) }
    {
        self.text.push_str(other.text.as_str())
    }

    /// Ends a line by its LF.
    pub fn end_line(&mut self) -> Result<(), AllocError>
        ensures { OnOk result (self.new ≡ self.old ++ 10 ∷ []) }
    {
        self.text.push('\n')
    }

    /// Takes all of it away.
    pub fn clear(&mut self)
        ensures { self.new ≡ [] }
    {
        self.text.clear();
    }

    /// The allocator of its memory.
    pub fn allocator(&self) -> Global {
        *self.text.allocator()
    }

    /// It as it is written.
    pub fn as_str(&self) -> &str
        ensures exact { result.now ≡ self.now }
        ensures lines { AreLines result.now }
    {
        self.text.as_str()
    }

    /// It as a text of any kind.
    pub fn into_string(self) -> String
        ensures exact { string_bytes result ≡ self }
        ensures lines { AreLines (string_bytes result) }
    {
        self.text
    }
}

impl Display for Shown {
    fn fmt<W: fmt::Write>(&self, f: &mut fmt::Formatter<W>) -> fmt::Result {
        f.write_str(self.text.as_str())
    }
}
