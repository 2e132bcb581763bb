//! The kinds of the stack's entries.

/// The kind of an entry of the stack.
#[derive(Clone, Copy, PartialEq, Eq)]
pub enum Kind {
    /// A truth value.
    Truth,
    /// A list of texts.
    Texts,
    /// A number.
    Count,
}
