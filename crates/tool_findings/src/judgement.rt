//! The verdict on a text.

ghost use Rattle.std.specs.Prelude.{◌≡◌, IfOk};
ghost use Rattle.tool_findings.specs.Judgements.{IsJudgement, refusal_number};

use sieve_check::{CheckFault, check};
use sieve_text::{TextFault, TextRefusal, parse};
use std::alloc::{AllocError, Global};

/// What a session answers of a text that is sent as a script.
#[derive(Clone, Copy)]
pub enum Judgement {
    /// It is a well made script.
    Good,
    /// It is refused as a text (10 to 16, 20 or 21), at an offset in octets.
    Text(TextRefusal, usize),
    /// It is refused by a rule of well made scripts (30 to 41).
    Rule(CheckFault),
}

impl Judgement {
    /// The number of the refusal; 0 for a good script.
    pub fn number(self) -> u8
        ensures { result ≡ refusal_number self }
    {
        match self {
            Judgement::Good => 0,
            Judgement::Text(refusal, _) => refusal.number(),
            Judgement::Rule(fault) => fault.number(),
        }
    }
}

/// Judges a text as a session does. Fails only if memory runs out.
pub fn judgement_of(alloc: Global, text: &[u8]) -> Result<Judgement, AllocError>
    ensures { IfOk result (λ j. IsJudgement text.now j) }
{
    let script = match parse(alloc, text) {
        Ok(script) => script,
        Err(TextFault::NoMemory) => return Err(AllocError),
        Err(TextFault::Refused(refusal, at)) => return Ok(Judgement::Text(refusal, at)),
    };
    match check(script) {
        Ok(_) => Ok(Judgement::Good),
        Err(fault) => Ok(Judgement::Rule(fault)),
    }
}
