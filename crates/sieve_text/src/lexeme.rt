//! Tokens as written: slices of the script, which need no allocation.

ghost use Rattle.std.specs.Prelude.{◌<◌, ◌^◌, length};
ghost use Rattle.sieve_text.specs.WrittenStrings.{string_of};

use sieve_syntax::Mark;

/// A string as written.
#[derive(Clone, Copy)]
pub enum WrittenString<'a> {
    /// The octets between its quotation marks.
    Quoted(&'a [u8]),
    /// Its lines, without the single dot that ends them.
    Lines(&'a [u8]),
}

/// A string as written, whose value has at most 65,535 octets.
#[derive(Clone, Copy)]
pub struct ShortString<'a> {
    pub written: WrittenString<'a>,
    pub ghost short: { length (string_of written) < 2 ^ 16 },
}

/// A token as written.
#[derive(Clone, Copy)]
pub enum Lexeme<'a> {
    /// An identifier.
    Identifier(&'a [u8]),
    /// The name after a colon.
    Tag(&'a [u8]),
    /// A number with its factor multiplied in.
    Number(u64),
    /// A quoted or multi-line string.
    StringValue(ShortString<'a>),
    /// One of the marks.
    Mark(Mark),
}

/// A token as written, and its place in the script as octet offsets: from `start` up to but not including `end`.
#[derive(Clone, Copy)]
pub struct PlacedLexeme<'a> {
    pub lexeme: Lexeme<'a>,
    pub start: u32,
    pub end: u32,
}
