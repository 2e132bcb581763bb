//! Titles of classes that a file gives, each with the legal basis of its class.

use crate::meant::meant_class;
use crate::outline::{Header, Key, Outline, Owner, Written, outline_of};
use class_plan::Plan;
use std::alloc::{AllocError, AllocFailed, Global};
use std::str;
use tool_texts::{Shown, quoted};

/// The greatest length of a title and of a legal basis, in octets.
const LONGEST: usize = 500;

/// A title and a legal basis that a file gives a class of the plan. Each has at most 500 octets, none of them of a hidden
/// character, and may be empty.
#[derive(Drop)]
pub struct GivenTitle {
    pub path: String,
    pub title: String,
    pub basis: String,
}

/// What is wrong with a file of titles, where it is found first.
#[derive(Drop)]
pub struct TitleFinding {
    /// Where it is, an offset in octets.
    pub at: usize,
    /// What it is, in words.
    pub words: String,
}

/// Why a text gives no titles.
#[derive(Drop)]
pub enum TitlesFault {
    NoMemory,
    Wrong(TitleFinding),
}

impl From<AllocError> for TitlesFault {
    fn from(_error: AllocError) -> TitlesFault {
        TitlesFault::NoMemory
    }
}

impl<T: Drop> From<AllocFailed<T>> for TitlesFault {
    fn from(_error: AllocFailed<T>) -> TitlesFault {
        TitlesFault::NoMemory
    }
}

/// What a text gives a class so far.
#[derive(Clone, Copy)]
struct Given<'o> {
    title: Option<&'o str>,
    basis: Option<&'o str>,
}

/// That something is wrong at an offset.
fn wrong(alloc: Global, at: usize, words: &str) -> TitlesFault {
    match String::from_str(alloc, words) {
        Ok(words) => TitlesFault::Wrong(TitleFinding { at, words }),
        Err(AllocError) => TitlesFault::NoMemory,
    }
}

/// Finds that a text can be a title or a basis, which begins at an offset: it is not too long, and is printed as it is.
fn judge_text(alloc: Global, text: &str, at: usize) -> Result<(), TitlesFault> {
    if text.len() > LONGEST {
        return Err(wrong(
            alloc,
            at,
            "a title and a basis have at most 500 octets each",
        ));
    }
    let mut shown = Shown::new(alloc);
    shown.value(&text)?;
    if shown.as_str() == text {
        return Ok(());
    }
    let words = "a title and a basis have no line end and no other hidden character";
    Err(wrong(alloc, at, words))
}

/// The text that a key has.
fn text_of<'o>(alloc: Global, key: &'o Key) -> Result<&'o str, TitlesFault> {
    let Written::Text(text) = &key.value else {
        let name = quoted(alloc, key.name.as_bytes())?;
        let words = format!(in alloc; "the value of {name} must be a text in quotation marks")?;
        return Err(wrong(alloc, key.value_at, words.as_str()));
    };
    judge_text(alloc, text.as_str(), key.value_at)?;
    Ok(text.as_str())
}

/// That a table of a file of titles has no such key.
fn unknown_key(alloc: Global, key: &Key) -> TitlesFault {
    match unknown_words(alloc, key) {
        Ok(words) => wrong(alloc, key.at, words.as_str()),
        Err(AllocError) => TitlesFault::NoMemory,
    }
}

/// What is said of such a key.
fn unknown_words(alloc: Global, key: &Key) -> Result<String, AllocError> {
    let name = quoted(alloc, key.name.as_bytes())?;
    match key.owner {
        Owner::Other(_) => format!(in alloc; "unknown key {name}; a class has title and basis"),
        Owner::File | Owner::Class(_) => format!(in alloc;
            "unknown key {name}; a class begins with its path, as [\"finance/tax\"]"
        ),
    }
}

/// Notes a key of a class.
fn note<'o>(alloc: Global, given: &mut Given<'o>, key: &'o Key) -> Result<(), TitlesFault> {
    match key.name.as_str() {
        "title" => given.title = Some(text_of(alloc, key)?),
        "basis" => given.basis = Some(text_of(alloc, key)?),
        _ => return Err(unknown_key(alloc, key)),
    }
    Ok(())
}

/// What is said of a header that is none of a class of the plan, if it is none.
fn header_words(alloc: Global, header: &Header, plan: &Plan) -> Result<Option<String>, AllocError> {
    let path = header.name.as_bytes();
    let name = quoted(alloc, path)?;
    if header.is_array {
        return Ok(Some(format!(in alloc; "write {name} in single brackets")?));
    }
    if plan.schedule_of(path).is_some() {
        return Ok(None);
    }
    Ok(Some(match meant_class(alloc, plan, path)? {
        Some(meant) => {
            let meant = quoted(alloc, meant.as_bytes())?;
            format!(in alloc; "59: {name} is no class of the plan; is it {meant}?")?
        }
        None => format!(in alloc; "59: {name} is no class of the plan")?,
    }))
}

/// Finds that each header is that of a class of the plan.
fn judge_headers(alloc: Global, outline: &Outline, plan: &Plan) -> Result<(), TitlesFault> {
    for header in outline.others.as_slice() {
        if let Some(words) = header_words(alloc, header, plan)? {
            return Err(wrong(alloc, header.at, words.as_str()));
        }
    }
    match outline.classes.first() {
        Some(at) => {
            let words = "a class begins with its path, as [\"finance/tax\"]";
            Err(wrong(alloc, *at, words))
        }
        None => Ok(()),
    }
}

/// What each header of an outline is followed by.
fn given_by<'o>(alloc: Global, outline: &'o Outline) -> Result<Vec<Given<'o>>, TitlesFault> {
    let mut list = Vec::with_capacity(alloc, outline.others.len())?;
    for _header in outline.others.as_slice() {
        list.push(Given {
            title: None,
            basis: None,
        })?;
    }
    for key in outline.keys.as_slice() {
        let Owner::Other(number) = key.owner else {
            return Err(unknown_key(alloc, key));
        };
        if let Some(given) = list.get_mut(number) {
            note(alloc, given, key)?;
        }
    }
    Ok(list)
}

/// The title of a class, of which both texts are given.
fn title_of(alloc: Global, header: &Header, given: Given<'_>) -> Result<GivenTitle, TitlesFault> {
    let (Some(title), Some(basis)) = (given.title, given.basis) else {
        let words = "a class has title and basis; write \"\" for the one that it has not";
        return Err(wrong(alloc, header.at, words));
    };
    Ok(GivenTitle {
        path: header.name.clone()?,
        title: String::from_str(alloc, title)?,
        basis: String::from_str(alloc, basis)?,
    })
}

/// The titles of an outline.
fn titles_in(alloc: Global, outline: &Outline) -> Result<Vec<GivenTitle>, TitlesFault> {
    let given = given_by(alloc, outline)?;
    let mut titles = Vec::with_capacity(alloc, given.len())?;
    for (header, given) in outline.others.iter().zip(given.iter()) {
        titles.push(title_of(alloc, header, *given)?)?;
    }
    Ok(titles)
}

/// Finds that a text is TOML.
fn judge_toml(alloc: Global, text: &str) -> Result<(), TitlesFault> {
    let Err(error) = toml::table_from_str(alloc, text) else {
        return Ok(());
    };
    let at = error.span().map_or(0, |span| span.start);
    let reason = error.message();
    let words = format!(in alloc; "not TOML: {reason}")?;
    Err(wrong(alloc, at, words.as_str()))
}

/// The titles that a text in TOML gives classes of a plan: for each a table with its path as header, and `title` and `basis` in
/// it.
///
/// Wrong are what is not UTF-8 or not TOML, other keys and tables, a path that is no class of the plan, a class without one of
/// the two keys, and a text that is no string, has more than 500 octets, or has a hidden character.
pub fn titles_of(alloc: Global, text: &[u8], plan: &Plan) -> Result<Vec<GivenTitle>, TitlesFault> {
    let text = match str::from_utf8(text) {
        Ok(text) => text,
        Err(error) => {
            let words = "these octets are not UTF-8";
            return Err(wrong(alloc, error.valid_up_to(), words));
        }
    };
    judge_toml(alloc, text)?;
    let outline = outline_of(alloc, text)?;
    judge_headers(alloc, &outline, plan)?;
    titles_in(alloc, &outline)
}
