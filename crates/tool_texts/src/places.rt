//! Places in a text, by line and column.

ghost use Rattle.std.specs.Prelude.{◌≡◌, ◌≤◌, ◌-◌, length, take, drop, not};
ghost use Rattle.std.specs.List.{before_first, position};
ghost use Rattle.tool_texts.specs.Places.{line_of, column_of, line_text, octets_before, is_line_feed};

/// The place of an offset in a text. Both numbers count from 1, and a column counts octets.
#[derive(Clone, Copy)]
pub struct Place {
    pub line: usize,
    pub column: usize,
}

/// How many octets come after the last line feed of a text; all of them if there is none.
fn octets_after_last_line(text: &[u8]) -> usize
    ensures value { result ≡ octets_before text.now (length text.now) }
    ensures within { result ≤ length text.now }
{
    let mut start = text.len();
    while start > 0 && text[start - 1] != b'\n' {
        start -= 1;
    }
    text.len() - start
}

/// The line and the column of an offset in octets. An offset past the end of the text counts as its end.
pub fn place_of(text: &[u8], offset: usize) -> Place
    ensures line { result.line ≡ line_of text.now offset }
    ensures column { result.column ≡ column_of text.now offset }
{
    let before = &text[..offset.min(text.len())];
    let lines = before.iter().filter(|octet| **octet == b'\n').count();
    Place {
        line: lines + 1,
        column: octets_after_last_line(before) + 1,
    }
}

/// The place of the first line feed of a text.
fn first_line_feed(text: &[u8]) -> Option<usize>
    ensures { result ≡ position is_line_feed text.now }
{
    text.iter().position(|octet| *octet == b'\n')
}

/// The text before its first line feed; all of it if there is none.
fn first_line(text: &[u8]) -> &[u8]
    ensures { result.now ≡ before_first is_line_feed text.now }
{
    match first_line_feed(text) {
        Some(end) => &text[..end],
        None => text,
    }
}

/// The line of an offset in octets, without its line feed. An offset past the end of the text counts as its end.
pub fn line_at(text: &[u8], offset: usize) -> &[u8]
    ensures { result.now ≡ line_text text.now offset }
{
    let before = &text[..offset.min(text.len())];
    let start = before.len() - octets_after_last_line(before);
    first_line(&text[start..])
}
