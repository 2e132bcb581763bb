//! Tokens (RFC 5228, section 8.1).

use crate::string_text::StringText;
use crate::text::Text;

/// The marks of the grammar, each of one octet.
#[derive(Clone, Copy)]
pub enum Mark {
    Semicolon,
    OpenBrace,
    CloseBrace,
    OpenParen,
    CloseParen,
    OpenBracket,
    CloseBracket,
    Comma,
}

/// The kind of a token, with its content.
#[derive(Drop)]
pub enum TokenKind {
    /// An identifier, as written.
    Identifier(Text),
    /// The name after a colon, as written.
    Tag(Text),
    /// A number with its factor multiplied in: at most 2^63 - 1 (RFC 5228, section 2.4.1).
    Number(u64),
    /// The value of a quoted or multi-line string.
    StringValue(StringText),
    /// One of the marks.
    Mark(Mark),
}

/// A token, and its place in the script as octet offsets: from `start` up to but not including `end`.
#[derive(Drop)]
pub struct Token {
    pub kind: TokenKind,
    pub start: u32,
    pub end: u32,
}
