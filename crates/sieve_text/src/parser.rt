//! The tree of a text (RFC 5228, section 8.2). Its tokens are read from left to right, without backtracking, and no
//! deeper than the limits on nested tests and nested blocks.

ghost use Rattle.std.specs.Prelude.{◌≡◌, length, List, IfOk, IfErr, OnOk, map, Result};
ghost use Rattle.sieve_syntax.specs.declared.token.Token.{Token};
ghost use Rattle.sieve_syntax.specs.Tree.{CommandTrees};
ghost use Rattle.sieve_syntax.specs.View.{tree_of, command_of, commands_of};
ghost use Rattle.sieve_text.specs.declared.fault.ScanRefusal.{ScanRefusal};
ghost use Rattle.sieve_text.specs.declared.fault.TextRefusal.{TextRefusal};
ghost use Rattle.sieve_text.specs.Lexemes.{kinds_in, left_in};
ghost use Rattle.sieve_text.specs.Grammar.{Spells, IsScript, IsDeep, AnswersTree, AnswersRefusal, Explains};
ghost use Rattle.sieve_text.specs.declared.parser.stop.Misfit.{Misfit};
ghost use Rattle.sieve_text.specs.Tokens.{IsSound, IsScan, IsFaulty, FaultsBy};
ghost use Rattle.sieve_text.specs.Reading.{Gives, GivesScript, script_at};

mod arguments;
mod commands;
mod laws;
mod lists;
mod questions;
mod stop;
mod test_lists;

use crate::fault::{ScanFault, TextFault, TextRefusal};
use crate::scanner::{check_text, count_tokens, split_lexeme};
use commands::commands;
pub use laws::one_tree;
pub use questions::parse_test;
use sieve_syntax::{Command, Script};
use std::alloc::Global;
use stop::{Misfit, Stop, left_from, syntax};

/// How many blocks may be nested.
const BLOCK_DEPTH: u8 = 32;

/// The commands of a text, and how many octets are left where no token can be read any more. A token that begins no
/// command is a misfit.
#[tactic(auto, unfolding(crate::specs::Reading::script_at))]
fn all_commands(alloc: Global, text: &[u8]) -> Result<(Vec<Command>, usize), Stop>
    ensures value { Gives
        (λ x. commands_of (map command_of x.0.items)) result (script_at 32 32 (kinds_in text.now)) }
    ensures left { IfOk result (λ x. x.1 ≡ length (left_in text.now)) }
{
    let (commands, rest) = commands(alloc, BLOCK_DEPTH, text)?;
    if split_lexeme(rest).is_some() {
        return Err(syntax(rest));
    }
    Ok((commands, left_from(rest)))
}

/// Judges whether a script that was judged as a whole is a sequence of tokens. It is one if its commands were read and
/// nothing is left after them.
fn judge_tokens(script: &[u8], read: &Result<(Vec<Command>, usize), Stop>) -> Result<(), ScanFault>
    requires sound { IsSound script.now }
    requires left { IfOk read.now (λ x. x.1 ≡ length (left_in script.now)) }
    ensures tokens { OnOk result ((ts : List Token) × IsScan script.now ts) }
    ensures fault { IfErr result (λ e. FaultsBy script.now e) }
{
    if let Ok((_, left)) = read {
        if *left == 0 {
            return Ok(());
        }
    }
    let _count = count_tokens(script)?;
    Ok(())
}

/// The tree that was read, or the refusal, in a text of `end` octets.
fn answer(read: Result<(Vec<Command>, usize), Stop>, end: usize) -> Result<Script, TextFault>
    ensures { (want : Result CommandTrees Misfit)
        → Gives (λ x. commands_of (map command_of x.0.items)) read want → GivesScript result want }
{
    let (refusal, left) = match read {
        Ok((commands, _)) => return Ok(Script { commands }),
        Err(Stop::NoMemory) => return Err(TextFault::NoMemory),
        Err(Stop::Refused(Misfit::Syntax, left)) => (TextRefusal::Syntax, left),
        Err(Stop::Refused(Misfit::Nesting, left)) => (TextRefusal::Nesting, left),
    };
    Err(TextFault::Refused(refusal, end.saturating_sub(left)))
}

/// The tree of a script (RFC 5228, section 8.2), which records what strings were written in brackets, and what tests in
/// parentheses.
///
/// A script has at most 32 nested blocks and at most 32 nested tests. A text that is no sequence of tokens is refused
/// as by `scan` (10 to 16). Tokens of a deeper tree are refused with 21. Tokens of no tree are refused with 20, or with
/// 21 if the 33rd nested test or block comes before the first token that does not fit the grammar. Any answer may be
/// replaced by no memory (99).
pub fn parse(alloc: Global, script: &[u8]) -> Result<Script, TextFault>
    // The answer is the script's tree.
    ensures found { IfOk result (λ s. IsScript script.now (tree_of s)) }

    // A script is answered with its tree.
    ensures only { (t : CommandTrees) → IsScript script.now t → AnswersTree t result }

    // A tree that is too deep is refused for that reason.
    ensures nests { (t : CommandTrees) → Spells script.now t → IsDeep t
        → AnswersRefusal TextRefusal.Nesting result }

    // A text that is no sequence of tokens is refused for that reason.
    ensures faulty { (r : ScanRefusal) → IsFaulty script.now r
        → AnswersRefusal (TextRefusal.Scan r) result }

    // Each refusal says what the text lacks.
    ensures refused { IfErr result (λ e. Explains script.now e) }
{
    check_text(script)?;
    let read = all_commands(alloc, script);
    judge_tokens(script, &read)?;
    answer(read, script.len())
}
