//! The refusal of a plan file, and what else is wrong with it.

ghost use Rattle.std.specs.Prelude.{◌≡◌, IfOk};
ghost use Rattle.tool_plans.specs.Judgements.{IsReport};

use crate::classes::judge_classes;
use crate::outline::outline_of;
use crate::shapes::judge_shapes;
use class_plan::{Plan, PlanFault};
use std::alloc::{AllocError, Global};
use std::str;
use tool_texts::refusal_text;

/// The greatest number of findings beside the refusal.
const MAX_OTHERS: usize = 19;

/// Something that is wrong with a plan file.
#[derive(Drop)]
pub struct Finding {
    /// The refusal: 50 to 56.
    pub fault: PlanFault,
    /// Where it is, an offset in octets.
    pub at: usize,
    /// What it is, in words.
    pub words: String,
}

/// What is wrong with a plan file that is refused.
#[derive(Drop)]
pub struct Report {
    /// Why a session refuses the plan: the smallest number that holds, where it is found first.
    pub refusal: Finding,
    /// What else is found, up to 19 of it, in the order of the numbers.
    pub others: Vec<Finding>,
    /// How many more findings there are.
    pub untold: usize,
}

/// Findings as they are made.
#[derive(Drop)]
pub(crate) struct Findings {
    list: Vec<Finding>,
    /// How many were found when there were enough of them.
    untold: usize,
}

impl Findings {
    /// Whether there are enough findings, so that one more is only counted.
    pub(crate) fn is_full(&self) -> bool {
        self.list.len() > MAX_OTHERS
    }

    /// Counts a finding of which nothing is told.
    pub(crate) fn count(&mut self) {
        self.untold = self.untold.saturating_add(1);
    }

    /// Adds a finding, or counts it where there are enough of them.
    pub(crate) fn add(
        &mut self,
        fault: PlanFault,
        at: usize,
        words: String,
    ) -> Result<(), AllocError> {
        if self.is_full() {
            self.count();
        } else {
            self.list.push(Finding { fault, at, words })?;
        }
        Ok(())
    }
}

/// Adds where a text stops being TOML, and why.
fn judge_toml(alloc: Global, findings: &mut Findings, text: &str) -> Result<(), AllocError> {
    let Err(error) = toml::table_from_str(alloc, text) else {
        return Ok(());
    };
    let at = error.span().map_or(0, |span| span.start);
    let reason = error.message();
    let words = format!(in alloc; "not TOML: {reason}")?;
    findings.add(PlanFault::NotToml, at, words)
}

/// All that is found in a plan file that is refused.
fn findings_of(alloc: Global, text: &[u8], fault: PlanFault) -> Result<Findings, AllocError> {
    let mut findings = Findings {
        list: Vec::new(alloc),
        untold: 0,
    };
    match (str::from_utf8(text), fault) {
        (Ok(words), PlanFault::NotToml) => judge_toml(alloc, &mut findings, words)?,
        (Ok(words), _) => {
            let outline = outline_of(alloc, words)?;
            judge_shapes(alloc, &mut findings, &outline)?;
            judge_classes(alloc, &mut findings, text, &outline)?;
        }
        (Err(error), _) => {
            let words = String::from_str(alloc, "these octets are not UTF-8")?;
            findings.add(PlanFault::NotToml, error.valid_up_to(), words)?;
        }
    }
    Ok(findings)
}

/// The report on a refusal: the first finding of it, and all others.
fn report_of(alloc: Global, fault: PlanFault, findings: Findings) -> Result<Report, AllocError>
    ensures { IfOk result (λ r. r.refusal.fault ≡ fault) }
{
    let number = fault.number();
    let general = refusal_text(number).unwrap_or("refused");
    let mut first = (0, String::from_str(alloc, general)?);
    let mut is_found = false;
    let untold = findings.untold;
    let mut others = Vec::new(alloc);
    for finding in findings.list {
        if !is_found && finding.fault.number() == number {
            is_found = true;
            first = (finding.at, finding.words);
        } else {
            others.push(finding)?;
        }
    }
    let (at, words) = first;
    let refusal = Finding { fault, at, words };
    Ok(Report {
        refusal,
        others,
        untold,
    })
}

/// Judges a text as a session judges a plan, and looks for what else is wrong with it; none where it is a plan.
///
/// Whether a path of a present plan is left out (57) is not judged: see `dropped_paths`. Fails only if memory runs out.
pub fn judge(alloc: Global, text: &[u8]) -> Result<Option<Report>, AllocError>
    ensures { IfOk result (λ r. IsReport text.now r) }
{
    let fault = match Plan::from_toml(alloc, text) {
        Ok(_) => return Ok(None),
        Err(PlanFault::NoMemory) => return Err(AllocError),
        Err(fault) => fault,
    };
    let findings = findings_of(alloc, text, fault)?;
    Ok(Some(report_of(alloc, fault, findings)?))
}
