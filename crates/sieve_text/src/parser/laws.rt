//! A law of trees and tokens alone.

ghost use Rattle.std.specs.Prelude.{◌≡◌};
ghost use Rattle.sieve_syntax.specs.Tree.{CommandTrees, commands_tokens};

/// A list of tokens has at most one tree. The function does nothing: its contract is the law.
pub fn one_tree()
    ensures { (t u : CommandTrees) → commands_tokens t ≡ commands_tokens u → t ≡ u }
{}
