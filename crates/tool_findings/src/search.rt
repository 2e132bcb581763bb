//! The search for all that is wrong with a script: each fault is found by the judgement of a session, over the script in
//! which the faults before are repaired.

ghost use Rattle.std.specs.Prelude.{◌≡◌, IfOk};
ghost use Rattle.tool_findings.specs.Judgements.{refusal_number};

use crate::findings::Finding;
use crate::fronts::fronts_of;
use crate::judgement::{Judgement, judgement_of};
use crate::mends::{Faulty, mend_command, replace_command};
use crate::octets::{Mended, mend_scan};
use crate::repaired::Repaired;
use crate::spots::{Mending, Spot, spot_of, tokens_of};
use crate::words::NEEDED;
use sieve_text::{MAX_OCTETS, ScanRefusal};
use std::alloc::{AllocError, Global};

/// The greatest number of findings beside the verdict.
const MAX_OTHERS: usize = 19;

/// The greatest number of repairs. Some are of what an earlier repair may have made, which is not told.
const MAX_REPAIRS: usize = 200;

/// A search as far as it has gone.
#[derive(Drop)]
pub(crate) struct Search {
    alloc: Global,
    script: Repaired,
    /// What was found last.
    last: Option<Finding>,
    others: Vec<Finding>,
    /// The places of repairs that were guessed, as offsets in the script as it was.
    guesses: Vec<usize>,
    /// Whether the end of the script is cut off.
    is_cut: bool,
}

/// What comes of a step.
#[derive(Clone, Copy, PartialEq, Eq)]
enum Step {
    /// What was found is repaired.
    Repaired,
    /// What was found cannot be repaired, or there are enough findings.
    Over,
}

impl Search {
    /// A search that has found nothing yet.
    pub(crate) fn new(alloc: Global, text: &[u8]) -> Result<Search, AllocError> {
        Ok(Search {
            alloc,
            script: Repaired::new(alloc, text)?,
            last: None,
            others: Vec::new(alloc),
            guesses: Vec::new(alloc),
            is_cut: false,
        })
    }

    /// What was found beside the verdict.
    pub(crate) fn into_others(self) -> Vec<Finding> {
        self.others
    }

    /// The verdict, by the judgement of the script as it is; and whether the search goes on.
    pub(crate) fn begin(&mut self, judgement: Judgement) -> Result<(Finding, bool), AllocError>
        ensures { IfOk result (λ x. x.0.number ≡ refusal_number judgement) }
    {
        let tokens = tokens_of(self.alloc, self.script.text())?;
        let fronts = fronts_of(self.alloc, &tokens)?;
        let spot = spot_of(self.alloc, &self.script, judgement, &tokens, &fronts)?;
        let verdict = spot.finding(&self.script, judgement);
        self.last = Some(verdict);
        Ok((verdict, self.mend(&spot, true)?))
    }

    /// Whether a place is in doubt: something in these bounds was guessed before.
    fn is_doubtful(&self, spot: &Spot<'_>) -> bool {
        let start = self.script.offset(spot.start);
        let end = self.script.offset(spot.end);
        self.guesses
            .iter()
            .any(|guess| start <= *guess && *guess <= end)
    }

    /// Repairs a text that is no sequence of tokens, for this reason at this offset; false where it cannot be repaired.
    fn mend_scan(&mut self, refusal: ScanRefusal, at: usize) -> Result<bool, AllocError> {
        let mended = mend_scan(self.alloc, &mut self.script, refusal, at)?;
        if let Mended::Cut = mended {
            self.is_cut = true;
        }
        Ok(!matches!(mended, Mended::Not))
    }

    /// Repairs a command, or replaces it as a whole where it was not told.
    fn mend_command(&mut self, faulty: &Faulty<'_>, is_told: bool) -> Result<(), AllocError> {
        if is_told {
            mend_command(&mut self.script, faulty)
        } else {
            replace_command(&mut self.script, faulty)
        }
    }

    /// Changes the script so that what was found is not found again; false where it cannot be repaired.
    fn repair(&mut self, spot: &Spot<'_>, is_told: bool) -> Result<bool, AllocError> {
        match &spot.mending {
            Mending::None => return Ok(false),
            Mending::Patch(patch) => self.script.patch(*patch)?,
            Mending::Command(faulty) => self.mend_command(faulty, is_told)?,
            Mending::Scan(refusal) => return self.mend_scan(*refusal, spot.at),
        }
        Ok(true)
    }

    /// Repairs what was found, as far as it can be. What was not told is replaced as a whole.
    fn mend(&mut self, spot: &Spot<'_>, is_told: bool) -> Result<bool, AllocError> {
        let guess = self.script.offset(spot.guess());
        if !self.repair(spot, is_told)? {
            return Ok(false);
        }
        if spot.is_guessed() {
            self.guesses.push(guess)?;
        }
        if spot.loses_capability() {
            self.require_all()?;
        }
        Ok(true)
    }

    /// Requires all that commands can need.
    fn require_all(&mut self) -> Result<(), AllocError> {
        for capability in NEEDED {
            let _is_new = self.script.require(*capability)?;
        }
        Ok(())
    }

    /// Whether a finding comes after the last one.
    fn is_later(&self, found: &Finding) -> bool {
        match &self.last {
            Some(last) => found.is_after(last),
            None => true,
        }
    }

    /// Adds a finding; false where there are enough.
    fn tell(&mut self, found: Finding) -> Result<bool, AllocError> {
        if self.others.len() >= MAX_OTHERS {
            return Ok(false);
        }
        self.others.push(found)?;
        self.last = Some(found);
        Ok(true)
    }

    /// Finds what is wrong next, by the judgement of the script as it is repaired so far, and repairs it.
    fn step(&mut self, judgement: Judgement) -> Result<Step, AllocError> {
        let tokens = tokens_of(self.alloc, self.script.text())?;
        let fronts = fronts_of(self.alloc, &tokens)?;
        let spot = spot_of(self.alloc, &self.script, judgement, &tokens, &fronts)?;
        let found = spot.finding(&self.script, judgement);
        let is_certain = found.is_certain() || !self.is_doubtful(&spot);
        let is_told = is_certain && self.is_later(&found);
        if is_told && !self.tell(found)? {
            return Ok(Step::Over);
        }
        Ok(if self.mend(&spot, is_told)? {
            Step::Repaired
        } else {
            Step::Over
        })
    }

    /// Finds what else is wrong; false where more may be.
    pub(crate) fn go_on(&mut self) -> Result<bool, AllocError> {
        for _ in 0..MAX_REPAIRS {
            if self.script.text().len() > MAX_OCTETS {
                return Ok(false);
            }
            let judgement = judgement_of(self.alloc, self.script.text())?;
            if let Judgement::Good = judgement {
                return Ok(!self.is_cut);
            }
            if self.step(judgement)? == Step::Over {
                return Ok(false);
            }
        }
        Ok(false)
    }
}
