//! `holds`: the cases of an archive, in one store or in several. A case is all that is kept by the hold of one name.

ghost use Rattle.std.specs.Prelude.{◌≡◌, ◌++◌, ℕ, IfOk, List, None, OnOk, Some, false, map, option_map, if◌then◌else◌, string_bytes};
ghost use Rattle.std.specs.Str.{bytes_eq};
ghost use Rattle.cli_texts.specs.Json.{IsCaseObject};
ghost use Rattle.cli_console.specs.Sequences.{between};
ghost use Rattle.cli_history.specs.AllCases.{IsCaseText, IsListedAs, Name, WritesCases, began_view, case_named, case_of, first_began, in_both, kept_view, listed_view, named_view, with_case, with_cases};

use crate::cases::cases_in;
use crate::printing::{text_ahead, text_behind};
use cli_console::{Failure, Sink, StandardOutput, in_array};
use cli_texts::{CaseBeginning, ListedCase, case_line, case_object};
use record_store::Store;
use sqlite::Alter;
use std::alloc::{AllocError, Global};
use std::collections::BTreeMap;

/// How a case began, as an event tells it.
#[derive(Drop)]
pub(crate) struct Began {
    /// The number of the volume whose history tells it, in an archive of volumes.
    pub(crate) volume: Option<u32>,
    /// The number of the event.
    pub(crate) event: u32,
    /// In seconds since 1970-01-01T00:00:00Z.
    pub(crate) moment: u64,
    pub(crate) who: Vec<u8>,
    pub(crate) reason: Vec<u8>,
    /// Whether the hold was only found then, as one that was there before.
    pub(crate) is_found: bool,
}

impl Began {
    /// As it is listed.
    fn listed(&self) -> CaseBeginning<'_>
        ensures { listed_view result ≡ began_view self.now }
    {
        CaseBeginning {
            volume: self.volume,
            event: self.event,
            moment: self.moment,
            who: self.who.as_slice(),
            reason: self.reason.as_slice(),
            is_found: self.is_found,
        }
    }
}

/// The first of two beginnings, of which the first one that is given counts where both were at the same moment.
fn first_of(one: Option<Began>, other: Option<Began>) -> Option<Began>
    ensures { option_map began_view result
        ≡ first_began (option_map began_view one) (option_map began_view other) }
{
    let Some(one) = one else {
        return other;
    };
    let Some(other) = other else {
        return Some(one);
    };
    if other.moment < one.moment {
        return Some(other);
    }
    Some(one)
}

/// A case in a store, or in several together.
#[derive(Drop)]
pub(crate) struct Kept {
    /// How many records it has.
    pub(crate) records: u64,
    /// Its first beginning, as far as histories tell it.
    pub(crate) began: Option<Began>,
}

/// The case of a name in a store.
#[derive(Drop)]
pub(crate) struct NamedCase {
    pub(crate) name: Vec<u8>,
    pub(crate) kept: Kept,
}

/// A beginning as it is listed, if there is one.
fn listed_of(began: &Option<Began>) -> Option<CaseBeginning<'_>>
    ensures { option_map listed_view result ≡ option_map began_view began.now }
{
    match began {
        Some(began) => Some(began.listed()),
        None => None,
    }
}

impl Kept {
    /// The same case in two stores together.
    fn joined(self, other: Kept) -> Kept
        ensures { kept_view result ≡ in_both (kept_view self) (kept_view other) }
    {
        let Kept { records, began } = self;
        Kept {
            records: records.saturating_add(other.records),
            began: first_of(began, other.began),
        }
    }

    /// As it is listed under a name.
    fn listed<'k>(&'k self, name: &'k [u8]) -> ListedCase<'k>
        ensures { IsListedAs name.now (kept_view self.now) result }
    {
        ListedCase {
            name,
            records: self.records,
            beginning: listed_of(&self.began),
        }
    }
}

/// A case as a JSON object, after what stands between it and the one before.
fn object_of(alloc: Global, case: &ListedCase<'_>, is_first: bool) -> Result<String, AllocError>
    ensures { IfOk result (λ s. (object : List ℕ) × IsCaseObject case.now object
        × (string_bytes s ≡ between is_first ++ object)) }
{
    let object = case_object(alloc, case)?;
    in_array(alloc, is_first, object.as_str())
}

/// The text of the case of a name: its line, or a JSON object that comes after others.
fn text_of(
    alloc: Global,
    name: &[u8],
    kept: &Kept,
    is_json: bool,
    is_first: bool,
) -> Result<String, AllocError>
    ensures { IfOk result
        (λ s. IsCaseText is_json is_first name.now (kept_view kept.now) (string_bytes s)) }
{
    let case = kept.listed(name);
    if is_json {
        return object_of(alloc, &case, is_first);
    }
    Ok(case_line(alloc, &case)?.into_string())
}

/// The cases of a store, or of several together.
pub struct AllCases {
    alloc: Global,
    /// By the names of their holds.
    cases: BTreeMap<Vec<u8>, Kept>,
}

impl Drop for AllCases {
    fn drop(self) {
        let AllCases { alloc: _, cases: _ } = self;
    }
}

impl AllCases {
    /// Those of no store.
    pub fn none(alloc: Global) -> AllCases
        ensures { (n : Name) → case_of result n ≡ None }
    {
        AllCases {
            alloc,
            cases: BTreeMap::new(alloc),
        }
    }

    /// Takes out the case of a name, if there is one.
    fn take(&mut self, name: &[u8]) -> Option<Kept>
        ensures taken { option_map kept_view result ≡ case_named self.old name.now }
        ensures others { (n : Name) → bytes_eq name.now n.items ≡ false
            → case_of self.new n ≡ case_of self.old n }
    {
        self.cases.remove(name)
    }

    /// Keeps a case as that of a name.
    fn keep(&mut self, name: Vec<u8>, kept: Kept) -> Result<(), AllocError>
        ensures { OnOk result ((n : Name) → case_of self.new n ≡
            (if bytes_eq name.items n.items then Some (kept_view kept) else case_of self.old n)) }
    {
        self.cases.insert(name, kept)?;
        Ok(())
    }

    /// Adds the case of a name in the next store to those of the stores before it.
    fn add(&mut self, next: NamedCase) -> Result<(), AllocError>
        ensures { OnOk result ((n : Name) → case_of self.new n
            ≡ with_case n.items (named_view next) (case_of self.old n)) }
    {
        let NamedCase { name, kept } = next;
        match self.take(name.as_slice()) {
            Some(before) => self.keep(name, before.joined(kept)),
            None => self.keep(name, kept),
        }
    }

    /// Adds the cases of the next store to those of the stores before it.
    fn add_all(&mut self, cases: Vec<NamedCase>) -> Result<(), AllocError>
        ensures { OnOk result ((n : Name) → case_of self.new n
            ≡ with_cases n.items (map named_view cases.items) (case_of self.old n)) }
    {
        for case in cases {
            self.add(case)?;
        }
        Ok(())
    }

    /// Adds the cases of the next store, which is the volume of a number, in an archive of volumes. A failure is that of the store.
    pub fn add_store<S: Alter>(
        &mut self,
        rt: &HostRuntime,
        archive: &mut Store<S>,
        volume: Option<u32>,
    ) -> Result<(), Failure> {
        let cases = cases_in(rt, archive, volume)?;
        Ok(self.add_all(cases)?)
    }

    /// Writes the cases to a sink, between what stands before and after them. Answers the sink.
    fn write_to<K: Sink + Drop>(&self, is_json: bool, sink: K) -> Result<K, Failure>
        ensures { IfOk result (WritesCases K.written is_json self.now.cases.entries sink) }
    {
        let mut sink = sink;
        let mut is_first = true;
        sink.write(text_ahead(false, is_json).as_bytes())?;
        for (name, kept) in &self.cases {
            let text = text_of(self.alloc, name.as_slice(), kept, is_json, is_first)?;
            sink.write(text.as_bytes())?;
            is_first = false;
        }
        sink.write(text_behind(is_json).as_bytes())?;
        Ok(sink)
    }

    /// Writes the cases, a line each in byte order of their names, or as an array of JSON objects: how many records each has in all
    /// stores, and how it began first, as far as histories tell it.
    pub fn write(&self, rt: &HostRuntime, is_json: bool) -> Result<(), Failure> {
        let _output = self.write_to(is_json, StandardOutput::new(rt))?;
        Ok(())
    }
}

/// Writes the cases of an archive in one file, as [`AllCases::write`] does. A failure is that of the store.
pub fn write_cases<S: Alter>(
    rt: &HostRuntime,
    archive: &mut Store<S>,
    is_json: bool,
) -> Result<(), Failure> {
    let mut cases = AllCases::none(rt.alloc());
    cases.add_store(rt, archive, None)?;
    cases.write(rt, is_json)
}
