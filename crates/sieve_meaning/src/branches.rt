//! How a command relates to the branches before it (RFC 5228, section 3.1).

ghost use Rattle.std.specs.Prelude.{◌≡◌};
ghost use Rattle.sieve_meaning.specs.Branching.{is_branch as is_branch_of, part_of};

use crate::words::CommandWord;

/// The part of a command in a chain of `if`, `elsif` and `else` (RFC 5228, section 3.1).
#[derive(Clone, Copy)]
pub enum BranchPart {
    /// An `if`, or an `elsif` after open branches.
    Branch,
    /// An `else` after open branches.
    Otherwise,
    /// Any other command, also an `elsif` or `else` where no branches are open.
    Plain,
}

/// The part of a command, given whether the branches before it are open.
pub fn part_in(word: CommandWord, is_open: bool) -> BranchPart
    ensures { result ≡ part_of word is_open }
{
    match word {
        CommandWord::If => BranchPart::Branch,
        CommandWord::ElsIf if is_open => BranchPart::Branch,
        CommandWord::Else if is_open => BranchPart::Otherwise,
        _ => BranchPart::Plain,
    }
}

/// Whether branches are open after a command of this part.
pub fn is_branch(part: BranchPart) -> bool
    ensures { result ≡ is_branch_of part }
{
    match part {
        BranchPart::Branch => true,
        BranchPart::Otherwise | BranchPart::Plain => false,
    }
}
