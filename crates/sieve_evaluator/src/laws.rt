//! A law of the definitions, as the contract of a function that does nothing.

ghost use Rattle.sieve_evaluator.specs.Acts.{ActsAreDone};

/// What is reported to an observer as done by a command is what the command does in the meaning of scripts. The
/// function does nothing: its contract is the law.
pub fn acts_are_done()
    ensures { ActsAreDone }
{}
