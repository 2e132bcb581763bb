//! What becomes of a message, and why.

ghost use Rattle.std.specs.Prelude.{◌≡◌, ◌<◌, ◌≤◌, ◌++◌, Err, map, length, IfOk, IfErr, OnOk};
ghost use Rattle.class_plan.specs.Plans.{is_open_in};
ghost use Rattle.filing_flow.specs.Compiled.{IsCompiled};
ghost use Rattle.mail_case.specs.Message.{case_of, is_among};
ghost use Rattle.mail_case.specs.Views.{is_in};
ghost use Rattle.mail_case.specs.Whole.{facts_of};
ghost use Rattle.sieve_evaluator.specs.Case.{facts_of as facts_borrowed};
ghost use Rattle.tool_inquiry.specs.Inquiries.{library_in, main_name, program_of, IsTooHeavy, IsRefusalOf, IsReportOn, outcome_asked, facts_asked, script_sum, sum_in, sum_of, sums_asked};
ghost use Rattle.tool_inquiry.specs.declared.faults.InquiryFault.TheVariants.{TooLong};

use crate::faults::InquiryFault;
use crate::partings::Events;
use crate::scripts::{ScriptFile, Scripts, compiled};
use class_paths::Paths;
use class_plan::Plan;
use filing_machine::run;
use filing_table::a_run_ends_once;
use filing_verify::Verified;
use mail_case::WholeCase;
use mail_head::MAX_OCTETS;
use sieve_evaluator::{BorrowedCase, evaluate_observed};
use sieve_meaning::{Outcome, RunFault, fault_alone};
use std::alloc::{AllocError, Global};
use std::collections::BTreeSet;
use tool_report::{
    Book, Digest, Narration, Narrator, Report, report_json, report_text, sha256_text,
};
use tool_texts::Shown;

/// What is asked.
#[derive(Clone, Copy, Drop)]
pub struct Inquiry<'q> {
    pub scripts: &'q Scripts,
    pub plan: &'q Plan,
    /// What the plan is known by, and its text; none where there is no text of it.
    pub plan_text: Option<(&'q str, &'q [u8])>,
    /// What the message is known by.
    pub message_name: &'q str,
    pub message: &'q [u8],
    /// The moment of the capture, in seconds since 1970-01-01.
    pub moment: u64,
}

/// How an answer is written.
#[derive(Clone, Copy)]
pub enum Form {
    Lines,
    Json,
}

/// A report as it is written.
#[derive(Drop)]
pub enum Written {
    Lines(Shown),
    /// One line of JSON, without its line feed.
    Json(String),
}

/// What becomes of a message, and why.
#[derive(Drop)]
pub struct Answer {
    /// The outcome of the machine's run of the script's image, as a session has it.
    pub outcome: Outcome,
    /// The report on the run.
    pub text: Written,
    /// What the run came to.
    pub events: Events,
}

/// Refuses a message that is longer than a session takes (95).
pub(crate) fn judge_length(message: &[u8]) -> Result<(), InquiryFault>
    ensures short { OnOk result (length message.now ≤ 8388608) }
    ensures long { IfErr result (λ f. (8388608 < length message.now) × (f ≡ TooLong)) }
{
    if message.len() as u64 > MAX_OCTETS {
        return Err(InquiryFault::TooLong);
    }
    Ok(())
}

/// A message as the machine's run asks about it. Refused where it is longer than a session takes (95).
pub fn open_case(
    alloc: Global,
    message: &[u8],
    plan: &Plan,
) -> Result<WholeCase<BTreeSet<Vec<u8>>>, InquiryFault>
    ensures case { IfOk result
        (λ c. facts_of c ≡ case_of message.now (is_open_in plan.now)) }
    ensures refused { IfErr result (IsRefusalOf message.now) }
    ensures long { 8388608 < length message.now → result ≡ Err TooLong }
{
    judge_length(message)?;
    Ok(WholeCase::from_message(alloc, message, plan.open_paths(alloc)?)?)
}

/// The paths of a set.
fn paths_in(alloc: Global, opened: &BTreeSet<Vec<u8>>) -> Result<Paths, AllocError>
    ensures { IfOk result (λ p. is_among p ≡ is_in opened.now) }
{
    let mut paths = Paths::new(alloc);
    for path in opened.iter() {
        paths.insert(alloc, path.as_slice())?;
    }
    Ok(paths)
}

/// A message as the evaluator's run asks about it.
pub(crate) fn borrowed_case<'m>(
    alloc: Global,
    message: &'m [u8],
    plan: &Plan,
) -> Result<BorrowedCase<'m, Paths>, AllocError>
    ensures { IfOk result
        (λ c. facts_borrowed c ≡ case_of message.now (is_open_in plan.now)) }
{
    let opened = plan.open_paths(alloc)?;
    let paths = paths_in(alloc, &opened)?;
    BorrowedCase::read(alloc, message, paths)
}

/// The checksum of a file's octets.
fn digest_of(alloc: Global, path: &str, octets: &[u8]) -> Result<Digest, AllocError>
    ensures { IfOk result (λ d. sum_in d ≡ sum_of path.now octets.now) }
{
    Ok(Digest {
        sha256: sha256_text(alloc, octets)?,
        path: String::from_str(alloc, path)?,
    })
}

/// Adds the checksums of scripts.
fn add_digests(
    alloc: Global,
    digests: &mut Vec<Digest>,
    scripts: &[ScriptFile],
) -> Result<(), AllocError>
    ensures { OnOk result (map sum_in digests.new.items
        ≡ map sum_in digests.old.items ++ map script_sum scripts.now) }
{
    for script in scripts {
        digests.push(digest_of(alloc, script.path.as_str(), script.text.as_slice())?)?;
    }
    Ok(())
}

/// The checksums of all that a run is about: the scripts, the plan, the message.
fn digests_of(alloc: Global, inquiry: &Inquiry<'_>) -> Result<Vec<Digest>, AllocError>
    ensures { IfOk result (λ v. map sum_in v.items ≡ sums_asked inquiry.now) }
{
    let mut digests = Vec::new(alloc);
    let main = &inquiry.scripts.main;
    digests.push(digest_of(alloc, main.path.as_str(), main.text.as_slice())?)?;
    add_digests(alloc, &mut digests, inquiry.scripts.others.as_slice())?;
    if let Some((path, text)) = inquiry.plan_text {
        digests.push(digest_of(alloc, path, text)?)?;
    }
    digests.push(digest_of(alloc, inquiry.message_name, inquiry.message)?)?;
    Ok(digests)
}

/// The outcome of the run of the script's image.
fn image_outcome(
    alloc: Global,
    inquiry: &Inquiry<'_>,
    program: &Verified,
) -> Result<Outcome, InquiryFault>
    requires compiled { IsCompiled (library_in inquiry.now.scripts.now)
        (main_name inquiry.now.scripts.now) (program_of inquiry.now.scripts.now) program.now }
    requires light { IsTooHeavy inquiry.now.scripts.now → ⊥ }
    ensures outcome { IfOk result (λ o. o ≡ outcome_asked inquiry.now) }
    ensures refused { IfErr result (IsRefusalOf inquiry.now.message.now) }
{
    a_run_ends_once();
    let case = open_case(alloc, inquiry.message, inquiry.plan)?;
    Ok(run(alloc, program, &case)?.outcome)
}

/// The outcome of the evaluator's run, and what it comes to.
fn narrated(
    alloc: Global,
    inquiry: &Inquiry<'_>,
    book: &Book<'_>,
    case: &BorrowedCase<'_, Paths>,
) -> Result<(Outcome, Narration), AllocError>
    requires case { facts_borrowed case.now ≡ facts_asked inquiry.now }
    requires light { IsTooHeavy inquiry.now.scripts.now → ⊥ }
    ensures { IfOk result (λ t. t.0 ≡ outcome_asked inquiry.now) }
{
    let scripts = inquiry.scripts;
    let mut narrator = Narrator::new(alloc, book)?;
    let outcome = evaluate_observed(
        alloc,
        scripts.main.script.script(),
        Some(scripts.name()),
        scripts.library().shelves(),
        case,
        &mut narrator,
    )?;
    Ok((outcome, narrator.finish()?))
}

/// The outcome of the machine's run, and what the evaluator's comes to, whose outcome is the same. A script that is too
/// heavy is not run.
pub(crate) fn run_of(
    alloc: Global,
    inquiry: &Inquiry<'_>,
    book: &Book<'_>,
    case: &BorrowedCase<'_, Paths>,
) -> Result<(Outcome, Narration), InquiryFault>
    requires { facts_borrowed case.now ≡ facts_asked inquiry.now }
    ensures outcome { IfOk result (λ t. t.0 ≡ outcome_asked inquiry.now) }
    ensures refused { IfErr result (IsRefusalOf inquiry.now.message.now) }
{
    let Some(program) = compiled(alloc, inquiry.scripts)? else {
        return Ok((
            fault_alone(alloc, RunFault::TooHeavy)?,
            Narration::new(alloc),
        ));
    };
    let outcome = image_outcome(alloc, inquiry, &program)?;
    let (_, narration) = narrated(alloc, inquiry, book, case)?;
    Ok((outcome, narration))
}

/// The report on a run.
fn report_on(
    alloc: Global,
    inquiry: &Inquiry<'_>,
    report: &Report<'_, '_, '_>,
    form: Form,
) -> Result<Written, AllocError>
    requires { IsReportOn inquiry.now report.now }
{
    match form {
        Form::Lines => Ok(Written::Lines(report_text(alloc, report)?)),
        Form::Json => Ok(Written::Json(report_json(alloc, report)?)),
    }
}

/// Runs the main script of an inquiry over its message, and reports on the run. The outcome is that of the script's
/// image as a session runs it, and the evaluator's run that the report follows has the same. Refused where the message
/// is longer than a session takes (95).
pub fn answer_to(alloc: Global, inquiry: &Inquiry<'_>, form: Form) -> Result<Answer, InquiryFault>
    ensures outcome { IfOk result (λ a. a.outcome ≡ outcome_asked inquiry.now) }
    ensures refused { IfErr result (IsRefusalOf inquiry.now.message.now) }
    ensures long { 8388608 < length inquiry.now.message.now → result ≡ Err TooLong }
{
    judge_length(inquiry.message)?;
    let book = inquiry.scripts.book(alloc)?;
    let case = borrowed_case(alloc, inquiry.message, inquiry.plan)?;
    let digests = digests_of(alloc, inquiry)?;
    let (outcome, narration) = run_of(alloc, inquiry, &book, &case)?;
    let report = Report {
        book: &book,
        case: &case,
        plan: inquiry.plan,
        narration: &narration,
        outcome: &outcome,
        message: inquiry.message,
        moment: inquiry.moment,
        digests: digests.as_slice(),
    };
    let text = report_on(alloc, inquiry, &report, form)?;
    let events = Events::read(alloc, &book, &narration)?;
    Ok(Answer {
        outcome,
        text,
        events,
    })
}
