//! The names of commands and tests. They ignore ASCII case (RFC 5228, section 2.1).

ghost use Rattle.std.specs.Prelude.{◌≡◌};
ghost use Rattle.sieve_meaning.specs.Words.{command_word as command_word_of, test_word as test_word_of, same_word};

/// The commands that a run knows.
#[derive(Clone, Copy)]
pub enum CommandWord {
    Require,
    If,
    ElsIf,
    Else,
    Stop,
    Keep,
    Discard,
    Return,
    FileInto,
    Include,
    /// Any other name; a checked script has none.
    Other,
}

/// The tests that a run knows.
#[derive(Clone, Copy)]
pub enum TestWord {
    True,
    False,
    Not,
    AllOf,
    AnyOf,
    Exists,
    Size,
    Header,
    /// Any other name; a checked script has none.
    Other,
}

/// Whether two names are the same word: ASCII case is ignored.
pub fn is_same_word(name: &[u8], word: &[u8]) -> bool
    ensures { result ≡ same_word name.now word.now }
{
    name.eq_ignore_ascii_case(word)
}

/// The command of this name; `Other` where there is none. ASCII case is ignored.
#[tactic(auto, unfolding(crate::specs::Words::command_word))]
pub fn command_word(name: &[u8]) -> CommandWord
    ensures { result ≡ command_word_of name.now }
{
    if is_same_word(name, b"if") {
        CommandWord::If
    } else if is_same_word(name, b"elsif") {
        CommandWord::ElsIf
    } else if is_same_word(name, b"else") {
        CommandWord::Else
    } else if is_same_word(name, b"require") {
        CommandWord::Require
    } else if is_same_word(name, b"stop") {
        CommandWord::Stop
    } else if is_same_word(name, b"keep") {
        CommandWord::Keep
    } else if is_same_word(name, b"discard") {
        CommandWord::Discard
    } else if is_same_word(name, b"return") {
        CommandWord::Return
    } else if is_same_word(name, b"fileinto") {
        CommandWord::FileInto
    } else if is_same_word(name, b"include") {
        CommandWord::Include
    } else {
        CommandWord::Other
    }
}

/// The test of this name; `Other` where there is none. ASCII case is ignored.
#[tactic(auto, unfolding(crate::specs::Words::test_word))]
pub fn test_word(name: &[u8]) -> TestWord
    ensures { result ≡ test_word_of name.now }
{
    if is_same_word(name, b"header") {
        TestWord::Header
    } else if is_same_word(name, b"not") {
        TestWord::Not
    } else if is_same_word(name, b"allof") {
        TestWord::AllOf
    } else if is_same_word(name, b"anyof") {
        TestWord::AnyOf
    } else if is_same_word(name, b"exists") {
        TestWord::Exists
    } else if is_same_word(name, b"size") {
        TestWord::Size
    } else if is_same_word(name, b"true") {
        TestWord::True
    } else if is_same_word(name, b"false") {
        TestWord::False
    } else {
        TestWord::Other
    }
}
