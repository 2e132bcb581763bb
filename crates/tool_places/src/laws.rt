//! A law of the definitions, as the contract of a function that does nothing.

ghost use Rattle.tool_places.specs.Heads.{HeadsAreNamed};

/// The n-th name among the tokens of a script is that of the n-th command or test of its tree. The function does
/// nothing: its contract is the law.
pub fn heads_are_named()
    ensures { HeadsAreNamed }
{}
