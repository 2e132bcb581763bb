//! Keys that a plan does not have, keys that it lacks, and values of other kinds (51).

use crate::findings::Findings;
use crate::outline::{Header, Key, Outline, Owner, Written};
use class_plan::PlanFault;
use std::alloc::{AllocError, Global};
use tool_texts::quoted;

/// The kind of a key's value.
#[derive(Clone, Copy)]
enum Kind {
    Text,
    Truth,
    Tables,
}

impl Kind {
    /// The kind in words.
    fn text(self) -> &'static str {
        match self {
            Kind::Text => "a text in quotation marks",
            Kind::Truth => "true or false",
            Kind::Tables => "an array of tables, as they begin with [[class]]",
        }
    }

    /// Whether a value is of the kind.
    fn fits(self, value: &Written) -> bool {
        match (self, value) {
            (Kind::Text, Written::Text(_)) => true,
            (Kind::Truth, Written::Truth(_)) => true,
            (Kind::Tables, Written::Tables) => true,
            _ => false,
        }
    }
}

/// The kind of the value that a table has at a key; none where it has no such key.
fn kind_of(owner: Owner, name: &str) -> Option<Kind> {
    match owner {
        Owner::File => match name {
            "root" => Some(Kind::Text),
            "class" => Some(Kind::Tables),
            _ => None,
        },
        Owner::Class(_) => match name {
            "path" | "schedule" => Some(Kind::Text),
            "open" => Some(Kind::Truth),
            _ => None,
        },
        Owner::Other(_) => None,
    }
}

/// Which keys a table has.
fn known_keys(owner: Owner) -> &'static str {
    match owner {
        Owner::Class(_) => "a class has path, open and schedule",
        Owner::File | Owner::Other(_) => "a plan has root and class",
    }
}

/// Adds what is wrong with a key, if anything is.
fn judge_key(alloc: Global, findings: &mut Findings, key: &Key) -> Result<(), AllocError> {
    let name = quoted(alloc, key.name.as_bytes())?;
    match kind_of(key.owner, key.name.as_str()) {
        Some(kind) if kind.fits(&key.value) => Ok(()),
        Some(kind) => {
            let wanted = kind.text();
            let words = format!(in alloc; "the value of {name} must be {wanted}")?;
            findings.add(PlanFault::BadShape, key.value_at, words)
        }
        None => {
            let known = known_keys(key.owner);
            let words = format!(in alloc; "unknown key {name}; {known}")?;
            findings.add(PlanFault::BadShape, key.at, words)
        }
    }
}

/// Adds a header of a table that no plan has.
fn judge_header(alloc: Global, findings: &mut Findings, header: &Header) -> Result<(), AllocError> {
    let name = quoted(alloc, header.name.as_bytes())?;
    let words = format!(in alloc; "unknown table {name}; a class begins with [[class]]")?;
    findings.add(PlanFault::BadShape, header.at, words)
}

/// Adds that the file has no root, where it has none.
fn judge_root(alloc: Global, findings: &mut Findings, outline: &Outline) -> Result<(), AllocError> {
    for key in outline.keys.as_slice() {
        if key.owner == Owner::File && key.name.as_str() == "root" {
            return Ok(());
        }
    }
    let words = String::from_str(
        alloc,
        "there is no root; begin with root = \"permanent\" or another schedule",
    )?;
    findings.add(PlanFault::BadShape, 0, words)
}

/// Adds each key and header that a plan does not have, each value of another kind, and a root that is missing.
pub(crate) fn judge_shapes(
    alloc: Global,
    findings: &mut Findings,
    outline: &Outline,
) -> Result<(), AllocError> {
    judge_root(alloc, findings, outline)?;
    for key in outline.keys.as_slice() {
        if !matches!(key.owner, Owner::Other(_)) {
            judge_key(alloc, findings, key)?;
        }
    }
    for header in outline.others.as_slice() {
        judge_header(alloc, findings, header)?;
    }
    Ok(())
}
