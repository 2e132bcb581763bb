//! How texts are compared (RFC 5228, sections 2.7.1 and 2.7.3; RFC 4790, sections 9.2 and 9.3).

/// A comparator: which octets count as equal (RFC 5228, section 2.7.3).
#[derive(Clone, Copy)]
pub enum Comparator {
    /// `i;octet`: equal octets.
    Octet,
    /// `i;ascii-casemap`: octets that are equal after a to z are mapped to A to Z.
    Casemap,
}

/// A match type: how a key is compared with a value (RFC 5228, section 2.7.1).
#[derive(Clone, Copy)]
pub enum MatchType {
    /// `:is`: key and value are equal.
    Is,
    /// `:contains`: the key occurs in the value.
    Contains,
    /// `:matches`: the key is a pattern that covers the whole value.
    Matches,
}

/// One item of a pattern of `:matches`.
#[derive(Clone, Copy)]
pub enum Item {
    /// An octet that matches itself.
    Octet(u8),
    /// `?`: any one octet.
    One,
    /// `*`: zero or more octets.
    Any,
}
