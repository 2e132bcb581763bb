//! All that is wrong with a script.

ghost use Rattle.std.specs.Prelude.{◌≡◌, IfOk};
ghost use Rattle.tool_findings.specs.Judgements.{IsReport, Rises, comes_after, stage as stage_of};

use crate::judgement::{Judgement, judgement_of};
use crate::search::Search;
use crate::subjects::Subject;
use std::alloc::{AllocError, Global};

/// Something that is wrong with a script.
#[derive(Clone, Copy)]
pub struct Finding {
    /// The number of the refusal: 10 to 16, 20, 21 or 30 to 41.
    pub number: u8,
    /// Where it is, an offset in octets. For 30 to 41 the faulty command begins there.
    pub at: usize,
    /// Where it is shown, an offset in octets.
    pub place: usize,
    /// What it is about.
    pub subject: Subject,
}

/// What kind of judgement gives a number: 1 of the tokens, 2 of the grammar, 3 of the rules.
fn stage(number: u8) -> u8
    ensures { result ≡ stage_of number }
{
    if number < 20 {
        1
    } else if number < 30 {
        2
    } else {
        3
    }
}

impl Finding {
    /// Whether it comes after another finding: at a later stage or, at the same stage, at a later offset or, there, with a
    /// greater number or, with the same number, shown at a later place.
    pub(crate) fn is_after(&self, other: &Finding) -> bool
        ensures { result ≡ comes_after self.now other.now }
    {
        let (own_stage, other_stage) = (stage(self.number), stage(other.number));
        if own_stage != other_stage {
            return own_stage > other_stage;
        }
        if self.at != other.at {
            return self.at > other.at;
        }
        if self.number != other.number {
            return self.number > other.number;
        }
        self.place > other.place
    }

    /// Whether it is a fault of its own, whatever was guessed about other words of its command.
    pub(crate) fn is_certain(&self) -> bool {
        match self.subject {
            Subject::Word(start, end, meant) => {
                start < end && (meant.is_some() || self.number == 30)
            }
            Subject::Missing(_, _) => self.number == 41,
            Subject::Whole | Subject::Arguments(_, _, _) => false,
            Subject::Surplus(_, _) | Subject::Joined(_, _, _) => false,
            _ => true,
        }
    }
}

/// What is wrong with a script that is refused.
#[derive(Drop)]
pub struct Report {
    /// Why a session refuses the script.
    pub verdict: Finding,
    /// What else is found, up to 19 of it, in the order in which it is found: each where all that was found before is
    /// repaired.
    pub others: Vec<Finding>,
    /// Whether nothing is found after these. It may be more where they are twenty, where a string or a comment is not
    /// closed, and where something cannot be repaired.
    pub is_all: bool,
}

/// Judges a text as a session does, and looks for what else is wrong with it; none where it is a well made script.
///
/// Takes time linear in the text, times the number of findings, times the number of ways on that are tried at each, or
/// the logarithm of the number of commands. Fails only if memory runs out.
pub fn judge(alloc: Global, text: &[u8]) -> Result<Option<Report>, AllocError>
    ensures { IfOk result (λ r. IsReport text.now r) }
{
    let refusal = judgement_of(alloc, text)?;
    if let Judgement::Good = refusal {
        return Ok(None);
    }
    let mut search = Search::new(alloc, text)?;
    let (verdict, goes_on) = search.begin(refusal)?;
    let is_all = goes_on && search.go_on()?;
    let others = rising(alloc, verdict, search.into_others())?;
    Ok(Some(Report {
        verdict,
        others,
        is_all,
    }))
}

/// The findings of a search each of which comes after the one before, the first one after the verdict: so none is told
/// twice.
#[tactic(auto, using(crate::proofs::Rising::rises_more, crate::proofs::Rising::last_of_more))]
fn rising(alloc: Global, verdict: Finding, found: Vec<Finding>) -> Result<Vec<Finding>, AllocError>
    ensures { IfOk result (λ v. Rises verdict v.items) }
{
    let mut others = Vec::with_capacity(alloc, found.len())?;
    let mut last = verdict;
    for finding in found {
        if finding.is_after(&last) {
            others.push(finding)?;
            last = finding;
        }
    }
    Ok(others)
}
