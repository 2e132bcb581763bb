//! Checked scripts.

ghost use Rattle.std.specs.Prelude.{◌≡◌, IfOk, IfErr, IsOk, Some, None};
ghost use Rattle.sieve_syntax.specs.View.{tree_of};
ghost use Rattle.sieve_check.specs.Faults.{number_of};
ghost use Rattle.sieve_check.specs.Rules.{refusal_of};

use crate::fault::CheckFault;
use crate::walk::pass_script;
use sieve_syntax::Script;

/// A script that breaks no rule. Its holder need not test again what was checked.
#[derive(Drop)]
pub struct Checked {
    script: Script,
    pub ghost well_made: { refusal_of (tree_of script) ≡ None },
}

impl Checked {
    /// The script that was checked.
    pub fn script(&self) -> &Script
        ensures value { result.now ≡ self.now.script }
        ensures well_made { refusal_of (tree_of result.now) ≡ None }
    {
        &self.script
    }
}

/// The same script, checked; or the refusal, 30 to 41, of its first faulty command in text order. A command comes
/// before those of its block, and tests belong to their command. If the command breaks several rules, the refusal is
/// that of the least number (RFC 5228, section 2.10.6). Needs no allocation; takes time linear in the size of the
/// script.
pub fn check(script: Script) -> Result<Checked, CheckFault>
    ensures ok { IfOk result (λ c. c.script ≡ script) }
    ensures accepted { refusal_of (tree_of script) ≡ None → IsOk result }
    ensures refused { IfErr result (λ f. refusal_of (tree_of script) ≡ Some (number_of f)) }
{
    pass_script(&script)?;
    Ok(Checked { script })
}
