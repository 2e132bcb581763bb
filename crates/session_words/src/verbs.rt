//! The commands of a session, by the first words of their lines.

ghost use Rattle.std.specs.Prelude.{◌≡◌, map};
ghost use Rattle.session_words.specs.Verbs as spec;

/// A command, by the first word of its line.
#[derive(Clone, Copy)]
pub enum Verb {
    Class,
    Plan,
    Script,
    Global,
    Active,
    Inactive,
    Image,
    File,
    Try,
    Begin,
    Turn,
    Finish,
    Hold,
    Release,
    Due,
    Destroy,
    Quit,
}

/// The first word of each command.
const VERBS: [(&[u8], Verb); 17] = [
    (b"CLASS", Verb::Class),
    (b"PLAN", Verb::Plan),
    (b"SCRIPT", Verb::Script),
    (b"GLOBAL", Verb::Global),
    (b"ACTIVE", Verb::Active),
    (b"INACTIVE", Verb::Inactive),
    (b"IMAGE", Verb::Image),
    (b"FILE", Verb::File),
    (b"TRY", Verb::Try),
    (b"BEGIN", Verb::Begin),
    (b"TURN", Verb::Turn),
    (b"FINISH", Verb::Finish),
    (b"HOLD", Verb::Hold),
    (b"RELEASE", Verb::Release),
    (b"DUE", Verb::Due),
    (b"DESTROY", Verb::Destroy),
    (b"QUIT", Verb::Quit),
];

/// The verb that stands beside a word in a table.
fn verb_in(mut table: &[(&[u8], Verb)], word: &[u8]) -> Option<Verb>
    ensures { result ≡ spec.verb_in (map (λ row. (row.0.now, row.1)) table.entry.now) word.now }
{
    while let [row, rest @ ..] = table {
        if row.0 == word {
            return Some(row.1);
        }
        table = rest;
    }
    None
}

/// The command that a word names. None where it names none.
#[tactic(auto, unfolding(crate::specs::Verbs::verb_of, crate::specs::Verbs::first_word))]
pub fn verb_of(word: &[u8]) -> Option<Verb>
    ensures { result ≡ spec.verb_of word.now }
{
    verb_in(&VERBS, word)
}
