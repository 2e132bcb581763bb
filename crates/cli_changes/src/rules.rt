//! The rules by which mail is filed, and what is done where they are at fault.

ghost use Rattle.std.specs.Prelude.{
  ◌≡◌,
  ◌||◌,
  true,
  is_some,
  option_map,
  string_bytes,
  IfErr,
  IfOk,
};
ghost use Rattle.cli_changes.specs.Desks.{AreSet, IsDeskOf, IsGivenBack, IsSet};
ghost use Rattle.cli_changes.specs.Endings.{captures, IsExcused};
ghost use Rattle.cli_changes.specs.RuleSums.{rules_sum};

use crate::fault_words::{Cause, cause_of_fault};
use crate::rules_sum::sum_of_rules;
use crate::time_of_day::{as_line, put_start};
use class_plan::Plan;
use cli_console::{Failure, Status, tell};
use cli_sources::{Rules, RulesFault, read_rules, set_rules};
use command_lines::archives::Filing;
use filing_desk::{Desk, OnFault};
use record_archive::Records;
use sieve_meaning::RunFault;
use std::alloc::{AllocError, Global};
use tool_checks::push_officers;
use tool_texts::Shown;

/// How mail is filed.
pub struct FilingRules<'a> {
    pub officer: &'a str,
    pub on_fault: OnFault,
    /// How long the work on a message may take, in seconds.
    pub limit: u64,
    /// Whether what is told of the rules begins with the time of day.
    has_times: bool,
    /// None where the rules are at fault, and mail may go to `unfiled` then.
    rules: Option<Rules>,
}

impl Drop for FilingRules<'_> {
    fn drop(self) {
        let FilingRules {
            officer: _,
            on_fault: _,
            limit: _,
            has_times: _,
            rules: _,
        } = self;
    }
}

/// Rules as a history names them.
pub struct NamedRules {
    pub officer: String,
    /// In hexadecimal digits.
    pub sum: String,
}

impl Drop for NamedRules {
    fn drop(self) {
        let NamedRules { officer: _, sum: _ } = self;
    }
}

/// Who reads what is told of rules.
#[derive(Clone, Copy)]
enum Reader {
    /// Those who run the archive.
    Keeper,
    /// A mail server, which may pass it on to whoever sent the message.
    MailServer,
}

/// What is told of a fault of the rules in a folder. Of an officer who is not there it says who is, but not to a mail server.
fn fault_text(
    rt: &HostRuntime,
    folder: &str,
    fault: &RulesFault,
    reader: Reader,
) -> Result<Shown, AllocError> {
    let mut text = fault.text(rt.alloc())?;
    let is_unknown = matches!(fault, RulesFault::BadOfficer(_) | RulesFault::Missing(_));
    if is_unknown && matches!(reader, Reader::Keeper) {
        push_officers(rt, &mut text, folder)?;
    }
    Ok(text)
}

/// Reports a fault of rules in words, unless it was told already. It is no failure where mail may go to `unfiled` then.
fn excuse(
    rt: &HostRuntime,
    fault: &RulesFault,
    words: Result<Shown, AllocError>,
    on_fault: OnFault,
    has_times: bool,
    is_told: bool,
) -> Result<(), Failure>
    ensures { IsExcused fault.now on_fault result }
{
    let Ok(words) = words else {
        return Err(Failure::NoMemory);
    };
    if !fault.is_of_rules() || matches!(on_fault, OnFault::GiveUp) {
        return Err(Failure::Told(Status::TryAgain, words));
    }
    if is_told {
        return Ok(());
    }
    match as_line(rt, has_times, &words) {
        Ok(line) => {
            tell(rt, &line);
            Ok(())
        }
        Err(AllocError) => Err(Failure::NoMemory),
    }
}

/// What is done with mail whose rules or run are at fault.
fn on_fault_of(asked: &Filing<'_>) -> OnFault
    ensures { captures result ≡ asked.now.unfiled_on_fault }
{
    if asked.unfiled_on_fault {
        OnFault::Capture
    } else {
        OnFault::GiveUp
    }
}

impl<'a> FilingRules<'a> {
    /// The rules of a folder. Where they cannot be had it may be done later, `TryAgain`; where they are at fault, that is
    /// no failure if mail may go to `unfiled` then. What is told of them begins with the time of day, where that is asked for.
    pub fn read(
        rt: &HostRuntime,
        asked: &Filing<'a>,
        has_times: bool,
    ) -> Result<FilingRules<'a>, Failure>
        ensures on_fault { IfOk result
            (λ f. captures f.on_fault ≡ asked.now.unfiled_on_fault) }
        ensures rules { IfOk result
            (λ f. (is_some f.rules || captures f.on_fault) ≡ true) }
    {
        FilingRules::read_for(rt, asked, has_times, Reader::Keeper)
    }

    /// The same, for a message of a mail server. No other officer is named to it.
    pub fn read_for_delivery(
        rt: &HostRuntime,
        asked: &Filing<'a>,
    ) -> Result<FilingRules<'a>, Failure>
        ensures on_fault { IfOk result
            (λ f. captures f.on_fault ≡ asked.now.unfiled_on_fault) }
        ensures rules { IfOk result
            (λ f. (is_some f.rules || captures f.on_fault) ≡ true) }
    {
        FilingRules::read_for(rt, asked, false, Reader::MailServer)
    }

    /// The rules of a folder, with what is told of them to a reader.
    fn read_for(
        rt: &HostRuntime,
        asked: &Filing<'a>,
        has_times: bool,
        reader: Reader,
    ) -> Result<FilingRules<'a>, Failure>
        ensures on_fault { IfOk result
            (λ f. captures f.on_fault ≡ asked.now.unfiled_on_fault) }
        ensures rules { IfOk result
            (λ f. (is_some f.rules || captures f.on_fault) ≡ true) }
    {
        let officer = asked.officer;
        let on_fault = on_fault_of(asked);
        let rules = match read_rules(rt, asked.rules, officer) {
            Ok(rules) => Some(rules),
            Err(fault) => {
                let words = fault_text(rt, asked.rules, &fault, reader);
                excuse(rt, &fault, words, on_fault, has_times, false)?;
                None
            }
        };
        Ok(FilingRules {
            officer,
            on_fault,
            limit: asked.limit,
            has_times,
            rules,
        })
    }

    /// Adds what is told of a script that the officer's program does not reach.
    fn put_unused(
        &self,
        rt: &HostRuntime,
        text: &mut Shown,
        path: &str,
        main: &str,
    ) -> Result<(), AllocError> {
        put_start(rt, text, self.has_times)?;
        text.named(path.as_bytes())?;
        text.words(": warning: ")?;
        text.named(main.as_bytes())?;
        text.words(" does not reach this script")
    }

    /// Whose rules they are, and their sum; none where they are at fault.
    pub fn named(&self, alloc: Global) -> Result<Option<NamedRules>, AllocError>
        ensures { IfOk result (λ named. option_map (λ n. string_bytes n.sum) named
            ≡ option_map rules_sum self.now.rules) }
    {
        match &self.rules {
            Some(rules) => Ok(Some(NamedRules {
                officer: rules.officer.clone()?,
                sum: sum_of_rules(alloc, rules)?,
            })),
            None => Ok(None),
        }
    }

    /// Tells of each script of the officer that the program does not reach.
    pub fn tell_unused(&self, rt: &HostRuntime) {
        let Some(rules) = &self.rules else {
            return;
        };
        for path in &rules.unused {
            let mut text = Shown::new(rt.alloc());
            if let Ok(()) = self.put_unused(rt, &mut text, path.as_str(), rules.main.as_str()) {
                tell(rt, &text);
            }
        }
    }

    /// What is known of the fault in which the run of these rules over a message ended, by the open classes of a plan. None
    /// where that is not known, as for want of memory.
    pub fn cause_of_fault(
        &self,
        alloc: Global,
        plan: &Plan,
        fault: RunFault,
        message: &[u8],
    ) -> Option<Cause> {
        let rules = self.rules.as_ref()?;
        cause_of_fault(alloc, rules, plan, fault, message).unwrap_or(None)
    }

    /// Sets rules of a folder at a desk.
    fn set_these<A: Records>(
        &self,
        rt: &HostRuntime,
        desk: &mut Desk<A>,
        rules: &Rules,
        is_told: bool,
    ) -> Result<(), Failure>
        ensures { AreSet A.keeper rules.now self.now.on_fault desk.old desk.new result }
    {
        match set_rules(rt.alloc(), desk, rules) {
            Ok(()) => Ok(()),
            Err(fault) => {
                let words = fault.text(rt.alloc());
                excuse(rt, &fault, words, self.on_fault, self.has_times, is_told)
            }
        }
    }

    /// Sets the rules at a desk, if they can be had.
    fn set<A: Records>(
        &self,
        rt: &HostRuntime,
        desk: &mut Desk<A>,
        is_told: bool,
    ) -> Result<(), Failure>
        ensures { IsSet A.keeper self.now.rules self.now.on_fault desk.old desk.new result }
    {
        match &self.rules {
            Some(rules) => self.set_these(rt, desk, rules, is_told),
            None => Ok(()),
        }
    }

    /// A desk over an archive, with these rules. A fault of theirs that is no failure is told, unless that was told already. A failure
    /// hands the archive back.
    pub fn desk<A: Records>(
        &self,
        rt: &HostRuntime,
        archive: A,
        is_told: bool,
    ) -> Result<Desk<A>, (A, Failure)>
        ensures desk { IfOk result (IsDeskOf A.keeper self.now archive) }
        ensures given_back { IfErr result
            (λ e. IsGivenBack A.keeper self.now archive e.0 e.1) }
    {
        let mut desk = match Desk::new(rt.alloc(), archive) {
            Ok(desk) => desk,
            Err(archive) => return Err((archive, Failure::NoMemory)),
        };
        match self.set(rt, &mut desk, is_told) {
            Ok(()) => Ok(desk),
            Err(failure) => Err((desk.into_store(), failure)),
        }
    }
}
