//! What the checker accepts is read by the meaning of scripts, which does not depend on it.

ghost use Rattle.promises.specs.ReadingLaw.{ReadLaw};

/// In a script that the checker does not refuse, each name is one that has a meaning. Its tags, strings, numbers,
/// comparators, tests and block are those that its meaning reads, and no others, and no two of the tags are of one kind
/// (RFC 5228, sections 2.6.2 and 3 to 5; RFC 3894; RFC 6609, section 3).
pub fn checked_scripts_are_read()
    ensures { ReadLaw }
{}
