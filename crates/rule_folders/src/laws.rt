//! What any walk along includes satisfies.

ghost use Rattle.std.specs.Prelude.{◌≡◌, ℕ, Bool, List, Option, Some, Vec};
ghost use Rattle.std.specs.declared.alloc.Global.{Global};
ghost use Rattle.std.specs.List.{AllByRecursion};
ghost use Rattle.tool_findings.specs.declared.circles.Edge.{Edge};
ghost use Rattle.rule_folders.specs.Reading.{Entry, Read};
ghost use Rattle.rule_folders.specs.Reached.{Answers, AreExactly, Follows};

/// Where the files stand still during a walk, its scripts are exactly those that the program reaches: `files` is what each
/// path has, and each read answered so.
pub fn reached_are_exactly()
    ensures { (place : List ℕ → Bool → Option (List ℕ)) (program : Entry) (reads : List Read)
        (scripts : List Entry) (edges : List (Vec Edge Global))
        (files : List ℕ → Option (Option (List ℕ))) → Follows place program reads scripts edges
        → files program.path ≡ Some program.text → AllByRecursion (Answers files) reads
        → AreExactly place files program.path scripts }
{}
