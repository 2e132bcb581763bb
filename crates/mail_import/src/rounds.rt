//! What an import finds that was broken off and gone on with.

ghost use Rattle.std.specs.Prelude.{◌≤◌, ◌++◌, ℕ, List, drop, length, take};
ghost use Rattle.mail_import.specs.Findings.{AreOfBox, AreOfFiles, AreOfMbox, Finding};
ghost use Rattle.mail_import.specs.Sources.{IsWithout, Mail};

/// An import that was broken off after some messages of an mbox, and is gone on with where the mbox gives those that are left, finds what
/// the mbox has: each message once, in order and under its number. One that was broken off after some files of a folder, and is gone on
/// with the others, finds each file once.
pub fn rounds_find_each_once()
    ensures boxed { (path : List ℕ) (count : ℕ) (whole left : Mail) (xs ys : List Finding)
        → count ≤ length (whole.messages path) → IsWithout path count whole left
        → AreOfBox path (whole.first path) (take count (whole.messages path)) xs
        → AreOfMbox path left ys → AreOfMbox path whole (xs ++ ys) }
    ensures filed { (paths : List (List ℕ)) (count : ℕ) (m : Mail) (xs ys : List Finding)
        → AreOfFiles (take count paths) m xs → AreOfFiles (drop count paths) m ys
        → AreOfFiles paths m (xs ++ ys) }
{}
