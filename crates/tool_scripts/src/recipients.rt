//! The officers of a folder of rules as recipients of mail, for `recipients`.

use rule_folders::{is_domain, is_recipient};
use std::alloc::{AllocError, Global};
use tool_checks::officers_in;
use tool_console::{Failure, Verdict, tell, write_line};
use tool_texts::{Shown, put};

/// Finds that words are domains.
fn judge_domains(alloc: Global, domains: &[&str]) -> Result<(), Failure> {
    match domains.iter().find(|domain| !is_domain(domain.as_bytes())) {
        Some(domain) => Err(Failure::at(alloc, *domain, &"not a domain, as records.example.org")),
        None => Ok(()),
    }
}

/// Writes the line of an officer in each domain: the address, and the folder of the Maildir.
fn write_officer(rt: &HostRuntime, officer: &str, domains: &[&str]) -> Result<(), Failure> {
    let mut line = Shown::new(rt.alloc());
    for domain in domains {
        put!(line; value(&officer) "@" value(domain) " " value(&officer) "/")?;
        write_line(rt, &mut line)?;
    }
    Ok(())
}

/// What is told of an officer whose name no recipient can have.
fn left_out(alloc: Global, officer: &str) -> Result<Shown, AllocError> {
    let mut text = Shown::new(alloc);
    put!(text; named(officer.as_bytes())
        ": left out, since Postfix has recipients of small letters, digits, dots, hyphens, "
        "_ and = alone")?;
    Ok(text)
}

/// Writes the officers of a folder of all rules as recipients in domains, a line each, as Postfix reads them in a map:
/// the address, and the folder of the officer's Maildir. An officer whose name no recipient can have is left out, which
/// is told on standard error. A failure where a word is no domain, or there is no officer with a program.
pub fn write_recipients(
    rt: &HostRuntime,
    folder: &str,
    domains: &[&str],
) -> Result<Verdict, Failure> {
    judge_domains(rt.alloc(), domains)?;
    for officer in officers_in(rt, folder)? {
        if is_recipient(officer.as_bytes()) {
            write_officer(rt, officer.as_str(), domains)?;
        } else {
            tell(rt, &left_out(rt.alloc(), officer.as_str())?);
        }
    }
    Ok(Verdict::Good)
}
