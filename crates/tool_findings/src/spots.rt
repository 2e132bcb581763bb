//! Where a script is refused, what about, and how it is repaired there.

ghost use Rattle.std.specs.Prelude.{◌≡◌, IfOk};
ghost use Rattle.tool_findings.specs.Judgements.{refusal_number};
ghost use Rattle.tool_findings.specs.LoneTests.{AreTokens};

use crate::findings::Finding;
use crate::fronts::Front;
use crate::halving::Search as Halving;
use crate::judgement::{Judgement, judgement_of};
use crate::mends::Faulty;
use crate::octets::subject_of_octet;
use crate::repaired::{Patch, Repaired, patched};
use crate::rules::{name_of, subject_of_rule};
use crate::subjects::Subject;
use crate::ways::{Stop, Way, some_commands_end, split_at, ways_from};
use crate::words::is_among;
use sieve_check::CheckFault;
use sieve_syntax::Token;
use sieve_text::{ScanFault, ScanRefusal, TextRefusal, scan};
use std::alloc::{AllocError, Global};

/// How a script is repaired at a place.
#[derive(Drop)]
pub(crate) enum Mending<'t> {
    /// It is not.
    None,
    /// As a text that is no sequence of tokens.
    Scan(ScanRefusal),
    Patch(Patch),
    Command(Faulty<'t>),
}

/// Where a script is refused as it is repaired so far. All offsets are in octets of the repaired script.
#[derive(Drop)]
pub(crate) struct Spot<'t> {
    pub(crate) at: usize,
    pub(crate) subject: Subject,
    /// Where the command begins in which it is.
    pub(crate) start: usize,
    /// Where it ends, or is left.
    pub(crate) end: usize,
    /// Whether it is a `require`.
    pub(crate) is_require: bool,
    pub(crate) mending: Mending<'t>,
}

impl Spot<'_> {
    /// The finding by the script as it was.
    pub(crate) fn finding(&self, script: &Repaired, judgement: Judgement) -> Finding
        ensures { result.number ≡ refusal_number judgement }
    {
        let at = script.offset(self.at);
        let subject = self.subject.in_original(script);
        Finding {
            number: judgement.number(),
            at,
            place: subject.place().unwrap_or(at),
            subject,
        }
    }

    /// The place of its repair.
    pub(crate) fn guess(&self) -> usize {
        match &self.mending {
            Mending::Patch(patch) => patch.start,
            Mending::Command(faulty) => faulty.front.start,
            Mending::None | Mending::Scan(_) => self.at,
        }
    }

    /// Whether the repair may lose a capability that is required here.
    pub(crate) fn loses_capability(&self) -> bool {
        self.is_require
            && match &self.mending {
                Mending::None | Mending::Scan(_) => false,
                Mending::Patch(_) => true,
                Mending::Command(faulty) => !matches!(
                    faulty.fault,
                    CheckFault::RequireTooLate | CheckFault::UnknownCapability
                ),
            }
    }

    /// Whether the repair is guessed, so that more faults of its command may come of it.
    pub(crate) fn is_guessed(&self) -> bool {
        match (&self.mending, self.subject) {
            (Mending::None, _) => false,
            (Mending::Scan(_), subject) => matches!(subject, Subject::Whole),
            (Mending::Command(_), Subject::Capability(_, _)) => false,
            _ => true,
        }
    }
}

/// Whether a command with these tokens is a `require`.
fn is_require(command: &[Token]) -> bool {
    command
        .first()
        .and_then(name_of)
        .is_some_and(|name| is_among(name, &["require"]))
}

/// The tokens of a script; none where it has no sequence of tokens.
pub(crate) fn tokens_of(alloc: Global, text: &[u8]) -> Result<Vec<Token>, AllocError>
    ensures { IfOk result (λ v. AreTokens text.now v.items) }
{
    match scan(alloc, text) {
        Ok(tokens) => Ok(tokens),
        Err(ScanFault::NoMemory) => Err(AllocError),
        Err(ScanFault::Refused(_, _)) => Ok(Vec::new(alloc)),
    }
}

/// The first `count` commands of a script, with their open blocks closed.
fn beginning_of(
    alloc: Global,
    text: &[u8],
    fronts: &[Front],
    count: usize,
) -> Result<Vec<u8>, AllocError> {
    let last = count.checked_sub(1).and_then(|last| fronts.get(last));
    let (end, depth) = last.map_or((0, 0), |last| (last.end, last.depth));
    let mut beginning = Vec::from_slice(alloc, &text[..end.min(text.len())])?;
    for _ in 0..depth {
        beginning.push(b'}')?;
    }
    Ok(beginning)
}

/// Whether the first `count` commands of a script are refused.
fn is_refused(
    alloc: Global,
    text: &[u8],
    fronts: &[Front],
    count: usize,
) -> Result<bool, AllocError> {
    let beginning = beginning_of(alloc, text, fronts, count)?;
    Ok(!matches!(judgement_of(alloc, &beginning)?, Judgement::Good))
}

/// The number of the first command that breaks a rule, in a script that is refused for one. It is the last command of
/// the shortest beginning that is refused. The refusal is that of the first faulty command, so each longer beginning is
/// refused too.
fn faulty_command(alloc: Global, text: &[u8], fronts: &[Front]) -> Result<usize, AllocError> {
    let mut halving = Halving::below(fronts.len());
    for _ in 0..usize::BITS {
        let Some(place) = halving.next() else {
            break;
        };
        let is_refused = is_refused(alloc, text, fronts, place.saturating_add(1))?;
        halving.told(place, is_refused);
    }
    Ok(halving.found())
}

/// The spot of a rule that is broken.
fn spot_of_rule<'t>(
    alloc: Global,
    script: &Repaired,
    fault: CheckFault,
    tokens: &'t [Token],
    fronts: &[Front],
) -> Result<Spot<'t>, AllocError> {
    let place = faulty_command(alloc, script.text(), fronts)?;
    let Some(front) = fronts.get(place).copied() else {
        return Ok(spot_without_repair(0, Subject::Whole));
    };
    let subject = subject_of_rule(alloc, fault, front.own(tokens), front.before(tokens))?;
    Ok(Spot {
        at: front.start,
        subject,
        start: front.start,
        end: front.end,
        is_require: is_require(front.own(tokens)),
        mending: Mending::Command(Faulty {
            fault,
            subject,
            front,
            tokens,
        }),
    })
}

/// The spot of a refusal after which nothing is looked for.
fn spot_without_repair<'t>(at: usize, subject: Subject) -> Spot<'t> {
    Spot {
        at,
        subject,
        start: at,
        end: at,
        is_require: false,
        mending: Mending::None,
    }
}

/// A text in which a way on is tried.
#[derive(Clone, Copy)]
struct Trial<'t> {
    text: &'t [u8],
    /// Whether its end is left out, so that it may end anywhere.
    is_cut: bool,
}

/// How far a text is from being a script, the less the nearer: 0 for a good one, 1 for one that breaks a rule, and more
/// by the octets from where it stops being one. None for a text that is no sequence of tokens.
fn distance(alloc: Global, text: &[u8], is_cut: bool) -> Result<Option<usize>, AllocError> {
    Ok(match judgement_of(alloc, text)? {
        Judgement::Good => Some(0),
        Judgement::Rule(_) => Some(1),
        Judgement::Text(TextRefusal::Syntax, at) if is_cut && at >= text.len() => Some(1),
        Judgement::Text(TextRefusal::Syntax | TextRefusal::Nesting, at) => {
            Some(text.len().saturating_sub(at).saturating_add(2))
        }
        Judgement::Text(TextRefusal::Scan(_), _) => None,
    })
}

/// In a longer text, in octets, only some commands after the place are tried, and the first way on by which they follow
/// the grammar is taken.
const LONG_TEXT: usize = 32_768;

/// The text in which ways on from a place are tried. These tokens come from there on.
fn trial_of<'t>(text: &'t [u8], following: &[Token]) -> Trial<'t> {
    let end = some_commands_end(following).unwrap_or(text.len());
    if text.len() > LONG_TEXT && end < text.len() {
        Trial {
            text: &text[..end],
            is_cut: true,
        }
    } else {
        Trial {
            text,
            is_cut: false,
        }
    }
}

/// The way on after which a text is nearest to being a script, the first of those that are equally near; none where no
/// way leads on.
fn best_way(
    alloc: Global,
    trial: Trial<'_>,
    at: usize,
    ways: &[Way],
) -> Result<Option<Way>, AllocError> {
    let enough = usize::from(trial.is_cut);
    let mut least = trial.text.len().saturating_sub(at).saturating_add(2);
    let mut best = None;
    for way in ways {
        if least <= enough {
            break;
        }
        let new = patched(alloc, trial.text, way.patch)?;
        let found = distance(alloc, &new, trial.is_cut)?;
        if let Some(distance) = found.filter(|distance| *distance < least) {
            least = distance;
            best = Some(*way);
        }
    }
    Ok(best)
}

/// The spot of a token after which nothing could make the text a script.
fn spot_of_syntax<'t>(
    alloc: Global,
    script: &Repaired,
    at: usize,
    tokens: &'t [Token],
) -> Result<Spot<'t>, AllocError> {
    let ways = ways_from(alloc, tokens, at)?;
    let (before, following) = split_at(tokens, at);
    let trial = trial_of(script.text(), following);
    let Some(way) = best_way(alloc, trial, at, &ways)? else {
        return Ok(spot_without_repair(at, Subject::Whole));
    };
    let stop = Stop {
        before,
        token: following.first(),
        at,
    };
    let command = stop.command();
    Ok(Spot {
        at,
        subject: way.subject,
        start: command.first().map_or(at, |first| first.start as usize),
        is_require: is_require(command),
        end: stop.token.map_or(at, |token| token.end as usize),
        mending: Mending::Patch(way.patch),
    })
}

/// Where a script is refused as it is repaired so far, with these tokens and commands.
pub(crate) fn spot_of<'t>(
    alloc: Global,
    script: &Repaired,
    judgement: Judgement,
    tokens: &'t [Token],
    fronts: &[Front],
) -> Result<Spot<'t>, AllocError> {
    match judgement {
        Judgement::Good => Ok(spot_without_repair(0, Subject::Whole)),
        Judgement::Rule(fault) => spot_of_rule(alloc, script, fault, tokens, fronts),
        Judgement::Text(TextRefusal::Syntax, at) => spot_of_syntax(alloc, script, at, tokens),
        Judgement::Text(TextRefusal::Nesting, at) => Ok(spot_without_repair(at, Subject::Whole)),
        Judgement::Text(TextRefusal::Scan(refusal), at) => {
            let subject = match refusal {
                ScanRefusal::NoToken => subject_of_octet(script.text(), at),
                _ => Subject::Whole,
            };
            Ok(Spot {
                at,
                subject,
                start: at,
                end: at,
                is_require: false,
                mending: Mending::Scan(refusal),
            })
        }
    }
}
