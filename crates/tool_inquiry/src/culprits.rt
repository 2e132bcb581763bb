//! Where the run over a message ended in a fault.

ghost use Rattle.std.specs.Prelude.{◌≡◌, ◌<◌, true, length, Err, IfOk, IfErr, IfSome, option_map};
ghost use Rattle.sieve_meaning.specs.Scripts.{include_view};
ghost use Rattle.tool_inquiry.specs.Culprits.{is_found, IncludeEndsIn, EndsIn};
ghost use Rattle.tool_inquiry.specs.Inquiries.{facts_asked, outcome_asked, IsRefusalOf};
ghost use Rattle.tool_inquiry.specs.declared.faults.InquiryFault.TheVariants.{TooLong};

use crate::answers::{Inquiry, borrowed_case, judge_length, run_of};
use crate::faults::InquiryFault;
use crate::scripts::Scripts;
use sieve_meaning::reading::{first_string, include};
use sieve_meaning::{CommandWord, Include, Location, RunFault, command_word};
use sieve_syntax::Command;
use std::alloc::{AllocError, Global};
use tool_report::{Book, Mark, Narration, Thing};
use tool_texts::{Shown, put};

/// The fault with which a run ended.
#[derive(Drop)]
pub struct Faulted<'a> {
    pub fault: RunFault,
    /// The command that the fault is of; none where the script was not run.
    pub culprit: Option<Culprit<'a>>,
}

/// A command with which a run ended in a fault.
#[derive(Drop)]
pub struct Culprit<'a> {
    pub command: &'a Command,
    /// The path of its script, its line and column, and the class or script that it names, as
    /// `rules/ann/main.sieve:3:5 fileinto "finance"`; then the includes that it was run by, the innermost first.
    pub place: Shown,
}

/// Whether an include finds its script.
fn finds(scripts: &Scripts, include: &Include<'_>) -> bool
    ensures { result ≡ is_found scripts.now.library (include_view include.now) }
{
    scripts
        .library()
        .get(include.script.location, include.script.name)
        .is_some()
}

/// Whether an include can end a run in a fault.
fn include_ends(scripts: &Scripts, include: &Include<'_>, fault: RunFault) -> bool
    ensures { result ≡ true
        → IncludeEndsIn scripts.now.library fault (include_view include.now) }
{
    match fault {
        RunFault::ScriptMissing => !finds(scripts, include) && !include.is_optional,
        RunFault::RecursiveInclude | RunFault::NestingTooDeep => finds(scripts, include),
        RunFault::ClassNotOpen | RunFault::TooHeavy => false,
    }
}

/// Whether a command can end a run in a fault.
fn can_end(inquiry: &Inquiry<'_>, command: &Command, fault: RunFault) -> bool
    ensures { result ≡ true
        → EndsIn (facts_asked inquiry.now) inquiry.now.scripts.now.library fault command.now }
{
    let arguments = command.arguments.as_slice();
    match (command_word(command.name.as_slice()), fault) {
        (CommandWord::FileInto, RunFault::ClassNotOpen) => {
            !inquiry.plan.is_open(first_string(arguments))
        }
        (CommandWord::Include, _) => include_ends(inquiry.scripts, &include(arguments), fault),
        _ => false,
    }
}

/// Adds the path of a script, and the line and column of a mark there.
fn push_place(text: &mut Shown, book: &Book<'_>, mark: Mark) -> Result<(), AllocError> {
    if let Some(page) = book.pages.get(mark.page) {
        text.named(page.label)?;
    }
    match book.place(mark) {
        Some(place) => put!(text; ":" value(&place.line) ":" value(&place.column)),
        None => Ok(()),
    }
}

/// Adds the script that an include names.
fn push_include(text: &mut Shown, include: &Include<'_>) -> Result<(), AllocError> {
    text.words(match include.script.location {
        Location::Personal => " include ",
        Location::Global => " include :global ",
    })?;
    text.quoted(include.script.name)
}

/// Adds the class or the script that a command names.
fn push_named(text: &mut Shown, command: &Command) -> Result<(), AllocError> {
    let arguments = command.arguments.as_slice();
    match command_word(command.name.as_slice()) {
        CommandWord::Include => push_include(text, &include(arguments)),
        _ => put!(text; " fileinto " quoted(first_string(arguments))),
    }
}

/// The place of a command, and the includes that it was run by.
fn place_of(
    alloc: Global,
    book: &Book<'_>,
    narration: &Narration,
    mark: Mark,
    command: &Command,
) -> Result<Shown, AllocError> {
    let mut text = Shown::new(alloc);
    push_place(&mut text, book, mark)?;
    push_named(&mut text, command)?;
    for by in narration.by_way_of.as_slice().iter().rev() {
        text.words(", run by ")?;
        push_place(&mut text, book, *by)?;
    }
    Ok(text)
}

/// The command that a fault is of, by what a run came to.
fn culprit_in<'a>(
    alloc: Global,
    inquiry: &Inquiry<'_>,
    book: &Book<'a>,
    narration: &Narration,
    fault: RunFault,
) -> Result<Option<Culprit<'a>>, AllocError>
    ensures { IfOk result (λ r. IfSome r (λ c. EndsIn (facts_asked inquiry.now)
        inquiry.now.scripts.now.library fault c.command.now)) }
{
    let Some(mark) = narration.culprit else {
        return Ok(None);
    };
    let Some(node) = book.node(mark) else {
        return Ok(None);
    };
    match node.thing {
        Thing::Command(command) if can_end(inquiry, command, fault) => Ok(Some(Culprit {
            command,
            place: place_of(alloc, book, narration, mark, command)?,
        })),
        _ => Ok(None),
    }
}

/// The fault with which the run of an inquiry's main script over its message ends, as a session has it, and the command
/// that it is of; none where the run ends without a fault. The command is one that can end a run in this fault: a `fileinto`
/// of a class that is not open, or an include of a script that is not there, or of one that is. Refused where the message is
/// longer than a session takes (95).
pub fn fault_of<'q>(
    alloc: Global,
    inquiry: &Inquiry<'q>,
) -> Result<Option<Faulted<'q>>, InquiryFault>
    ensures fault { IfOk result
        (λ r. option_map (λ f. f.fault) r ≡ (outcome_asked inquiry.now).fault) }
    ensures culprit { IfOk result (λ r. IfSome r (λ f. IfSome f.culprit
        (λ c. EndsIn (facts_asked inquiry.now) inquiry.now.scripts.now.library
        f.fault c.command.now))) }
    ensures refused { IfErr result (IsRefusalOf inquiry.now.message.now) }
    ensures long { 8388608 < length inquiry.now.message.now → result ≡ Err TooLong }
{
    judge_length(inquiry.message)?;
    let scripts = inquiry.scripts;
    let book = scripts.book(alloc)?;
    let case = borrowed_case(alloc, inquiry.message, inquiry.plan)?;
    let (outcome, narration) = run_of(alloc, inquiry, &book, &case)?;
    let Some(fault) = outcome.fault else {
        return Ok(None);
    };
    let culprit = culprit_in(alloc, inquiry, &book, &narration, fault)?;
    Ok(Some(Faulted { fault, culprit }))
}
