//! Why a message stays.

ghost use Rattle.std.specs.Prelude.{◌≡◌};
ghost use Rattle.mail_intake.specs.Calls.{cause_of, words_of};

/// Why a message stays in `new`.
#[derive(Drop)]
pub enum Reason {
    /// There was no memory for it. The next intake may take it.
    NoMemory,
    /// It cannot be taken as it is, and these words say why: its file is no regular one, say.
    Unfit(String),
    /// It was given up, and these words say why: the run of its rules ended with a fault, say. The next intake may take it.
    GivenUp(String),
}

impl Reason {
    /// The words for it.
    pub fn words(&self) -> &str
        ensures { result.now ≡ words_of (cause_of self.now) }
    {
        match self {
            Reason::NoMemory => "out of memory",
            Reason::Unfit(words) | Reason::GivenUp(words) => words.as_str(),
        }
    }
}
