//! The calls that a table may have.

/// A call.
#[derive(Clone, Copy)]
pub enum Call {
    Tokens,
    Tree,
    Counted,
    ShortPatterns,
    Fields,
    Reader,
    Pieces,
    Case,
    InFlight,
}

/// Each call's word.
const WORDS: [(&str, Call); 9] = [
    ("tokens", Call::Tokens),
    ("tree", Call::Tree),
    ("counted", Call::Counted),
    ("short_patterns", Call::ShortPatterns),
    ("fields", Call::Fields),
    ("reader", Call::Reader),
    ("pieces", Call::Pieces),
    ("case", Call::Case),
    ("in_flight", Call::InFlight),
];

impl Call {
    /// The call of a word.
    pub fn of(word: &str) -> Option<Call> {
        for (name, call) in &WORDS {
            if *name == word {
                return Some(*call);
            }
        }
        None
    }
}
