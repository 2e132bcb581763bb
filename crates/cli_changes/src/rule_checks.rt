//! `check` of rules: whether `deliver` would take them, by the plan of the store.

use crate::rules::FilingRules;
use cli_console::{Failure, Status, write_text};
use command_lines::archives::{Filing, Moment, RulesChecked};
use record_archive::Records;
use record_store::Store;
use sqlite::Alter;
use tool_checks::{Surroundings, Told, check_officer, officers_in, rules_of, warn_of_globals};
use tool_console::{Failure as ToolFailure, Verdict};

/// The failure of a check of scripts: a file that cannot be read is no input.
fn failure_of(failure: ToolFailure) -> Failure {
    match failure {
        ToolFailure::Closed => Failure::Closed,
        ToolFailure::NoMemory => Failure::NoMemory,
        ToolFailure::Message(text) => Failure::Told(Status::NoInput, text),
    }
}

/// Judges the scripts of an officer by the plan of a store. What is wrong with them is written.
fn check_scripts<S: Alter>(
    rt: &HostRuntime,
    archive: &Store<S>,
    rules: &str,
    officer: &str,
    told: &mut Told,
) -> Result<Verdict, Failure> {
    let rules = match rules_of(rt, rules, officer) {
        Ok(rules) => rules,
        Err(failure) => return Err(failure_of(failure)),
    };
    let around = Surroundings {
        plan: Some(archive.plan()),
        folders: rules.folders(),
    };
    match check_officer(rt, rules.main.as_str(), &around, told) {
        Ok(verdict) => Ok(verdict),
        Err(failure) => Err(failure_of(failure)),
    }
}

/// Writes why rules are not taken, as a line, where that is the failure.
fn refused_by(rt: &HostRuntime, failure: Failure) -> Result<Verdict, Failure> {
    match failure {
        Failure::Told(_, words) => {
            let mut line = words;
            line.end_line()?;
            write_text(rt, &line)?;
            Ok(Verdict::Refused)
        }
        failure => Err(failure),
    }
}

/// Whether a desk takes the rules of an officer, as for a delivery. What it refuses is written.
fn try_rules<'a, A: Records>(
    rt: &HostRuntime,
    archive: A,
    rules: &'a str,
    officer: &'a str,
) -> (A, Result<Verdict, Failure>) {
    let filing = Filing {
        rules,
        officer,
        unfiled_on_fault: false,
        moment: Moment::Now,
        limit: 1,
    };
    let filing = match FilingRules::read(rt, &filing, false) {
        Ok(filing) => filing,
        Err(failure) => return (archive, refused_by(rt, failure)),
    };
    match filing.desk(rt, archive, false) {
        Ok(desk) => (desk.into_store(), Ok(Verdict::Good)),
        Err((archive, failure)) => (archive, refused_by(rt, failure)),
    }
}

/// Judges the rules of an officer.
fn check_one<S: Alter>(
    rt: &HostRuntime,
    archive: Store<S>,
    rules: &str,
    officer: &str,
    told: &mut Told,
) -> (Store<S>, Result<Verdict, Failure>) {
    match check_scripts(rt, &archive, rules, officer, told) {
        Ok(Verdict::Good) => try_rules(rt, archive, rules, officer),
        judged => (archive, judged),
    }
}

/// Judges the rules of officers, one after the other.
fn check_each<S: Alter>(
    rt: &HostRuntime,
    archive: Store<S>,
    rules: &str,
    officers: &[String],
    told: &mut Told,
) -> (Store<S>, Result<Verdict, Failure>) {
    let mut archive = archive;
    let mut verdict = Verdict::Good;
    for officer in officers {
        let (back, judged) = check_one(rt, archive, rules, officer.as_str(), told);
        archive = back;
        match judged {
            Ok(Verdict::Good) => {}
            Ok(Verdict::Refused) => verdict = Verdict::Refused,
            Err(failure) => return (archive, Err(failure)),
        }
    }
    (archive, Ok(verdict))
}

/// The end of a check of rules with a verdict. Scripts for all officers that are refused, and that none reaches, are warned
/// of.
fn end_check(
    rt: &HostRuntime,
    rules: &str,
    verdict: Verdict,
    told: &mut Told,
) -> Result<(), Failure> {
    if let Err(failure) = warn_of_globals(rt, rules, told) {
        return Err(failure_of(failure));
    }
    match verdict {
        Verdict::Good => Ok(()),
        Verdict::Refused => Err(Failure::Reported(Status::BadData)),
    }
}

/// The officers whose rules are judged.
fn officers_of(rt: &HostRuntime, asked: RulesChecked<'_>) -> Result<Vec<String>, Failure> {
    let Some(officer) = asked.officer else {
        return match officers_in(rt, asked.rules) {
            Ok(officers) => Ok(officers),
            Err(failure) => Err(failure_of(failure)),
        };
    };
    let officer = String::from_str(rt.alloc(), officer)?;
    Ok(vec![in rt.alloc(); officer]?)
}

/// Judges rules by the plan of a store, as `deliver` would read them, and gives the store back as it is. What is wrong is
/// written to standard output, in the words of `mailfile-tool check`. `BadData` where rules are refused; `NoInput` where
/// they are not there.
pub fn check_rules<S: Alter>(
    rt: &HostRuntime,
    archive: Store<S>,
    asked: RulesChecked<'_>,
) -> (Store<S>, Result<(), Failure>) {
    let officers = match officers_of(rt, asked) {
        Ok(officers) => officers,
        Err(failure) => return (archive, Err(failure)),
    };
    let mut told = Told::new(rt.alloc());
    let (archive, judged) = check_each(rt, archive, asked.rules, officers.as_slice(), &mut told);
    let done = match judged {
        Ok(verdict) => end_check(rt, asked.rules, verdict, &mut told),
        Err(failure) => Err(failure),
    };
    (archive, done)
}
