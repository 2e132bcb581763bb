//! A report on a run: why a message is filed where it is.

ghost use Rattle.tool_report.specs.Reports.{IsOfMessage};

use crate::book::Book;
use crate::fields::push_fields;
use crate::narrator::Narration;
use crate::verdict::push_verdict;
use crate::way::{push_line, push_way};
use class_paths::Paths;
use class_plan::Plan;
use sieve_evaluator::BorrowedCase;
use sieve_meaning::Outcome;
use std::alloc::{AllocError, Global};
use tool_texts::{Shown, put};

/// A file that a run was about, by the SHA-256 of its octets in hexadecimal digits.
#[derive(Drop)]
pub struct Digest {
    pub sha256: String,
    pub path: String,
}

/// A run and what it was about.
#[derive(Clone, Copy, Drop)]
pub struct Report<'r, 'a, 'm> {
    pub book: &'r Book<'a>,
    pub case: &'r BorrowedCase<'m, Paths>,
    pub plan: &'r Plan,
    pub narration: &'r Narration,
    pub outcome: &'r Outcome,
    pub message: &'r [u8],
    /// The moment of the capture, in seconds since 1970-01-01.
    pub moment: u64,
    pub digests: &'r [Digest],
}

/// Adds the digests, in the form that `sha256sum` writes and checks.
fn push_digests(text: &mut Shown, digests: &[Digest]) -> Result<(), AllocError> {
    for digest in digests {
        put!(text; escaped(digest.sha256.as_bytes()) "  " named(digest.path.as_bytes()))?;
        text.end_line()?;
    }
    Ok(())
}

/// Adds the parts of a report, each with an empty line after it.
fn push_report(
    alloc: Global,
    text: &mut Shown,
    report: &Report<'_, '_, '_>,
) -> Result<(), AllocError> {
    push_verdict(alloc, text, report)?;
    push_line(text, 0, "")?;
    push_fields(alloc, text, report)?;
    if !report.narration.rows.is_empty() {
        push_line(text, 0, "")?;
        push_way(alloc, text, report)?;
    }
    push_line(text, 0, "")?;
    push_digests(text, report.digests)?;
    push_line(text, 0, "")
}

/// The report in lines: the verdict, the message as it was read, the way of the run by the source, and the digests. The
/// way is left out where no run was reported. The only error is out of memory.
pub fn report_text(alloc: Global, report: &Report<'_, '_, '_>) -> Result<Shown, AllocError>
    requires { IsOfMessage report.now }
{
    let mut text = Shown::new(alloc);
    push_report(alloc, &mut text, report)?;
    Ok(text)
}
