//! Titles of classes, as lines and as JSON.

ghost use Rattle.std.specs.Prelude.{◌≡◌, ◌++◌, ◌∷◌, [], IfOk, OnOk, string_bytes};
ghost use Rattle.serde_json.specs.View.{view};
ghost use Rattle.cli_texts.specs.Json.{json_text as json_text_of, title_value as title_value_of};
ghost use Rattle.cli_texts.specs.Lines.{title_and_basis, title_words, titled_class};

use crate::escapes::shown;
use crate::json::json_text;
use serde_json::{Value, json};
use std::alloc::{AllocError, Global};
use tool_texts::{Shown, put};

/// A class with its title and with the legal basis of its schedule; either may be empty.
#[derive(Clone, Copy)]
pub struct ListedTitle<'a> {
    /// Its path.
    pub path: &'a [u8],
    pub title: &'a [u8],
    pub basis: &'a [u8],
}

/// What a class is called, and the legal basis of its schedule; either may be empty.
#[derive(Clone, Copy)]
pub struct ClassTitle<'a> {
    pub title: &'a [u8],
    pub basis: &'a [u8],
}

/// Adds a title and a legal basis.
#[tactic(auto, unfolding(crate::specs::Lines::title_and_basis))]
fn put_texts(line: &mut Shown, title: &[u8], basis: &[u8]) -> Result<(), AllocError>
    ensures { OnOk result (line.new ≡ line.old ++ title_and_basis title.now basis.now) }
{
    put!(line; " title " quoted(title) " basis " quoted(basis))
}

/// Adds the title and the legal basis of a class, if it has one of them.
pub(crate) fn put_title(line: &mut Shown, title: Option<ClassTitle<'_>>) -> Result<(), AllocError>
    ensures { OnOk result (line.new ≡ line.old ++ title_words title.entry) }
{
    match title {
        Some(it) => put_texts(line, it.title, it.basis),
        None => Ok(()),
    }
}

/// The line of a class with its title: `class finance/tax title "Tax documents" basis "AO 147"`.
///
/// The only refusal is no memory (99).
#[tactic(auto, unfolding(crate::specs::Lines::titled_class))]
pub fn title_line(alloc: Global, it: &ListedTitle<'_>) -> Result<Shown, AllocError>
    ensures { IfOk result (λ line. line ≡ titled_class it.now ++ 10 ∷ []) }
{
    let mut line = Shown::new(alloc);
    put!(line; "class " named(it.path))?;
    put_texts(&mut line, it.title, it.basis)?;
    line.end_line()?;
    Ok(line)
}

/// A class with its title as a value.
fn title_value(alloc: Global, it: &ListedTitle<'_>) -> Result<Value, AllocError>
    ensures { IfOk result (λ v. view v ≡ title_value_of it.now) }
{
    let path = shown(alloc, it.path)?;
    let title = shown(alloc, it.title)?;
    let basis = shown(alloc, it.basis)?;
    json!(in alloc; {
        "class": path,
        "title": title,
        "basis": basis
    })
}

/// A class with its title as a JSON object, in ASCII.
///
/// The only refusal is no memory (99).
#[tactic(auto, using(crate::proofs::JsonLemmas::title_plain))]
pub fn title_object(alloc: Global, it: &ListedTitle<'_>) -> Result<String, AllocError>
    ensures { IfOk result (λ t. string_bytes t ≡ json_text_of (title_value_of it.now)) }
{
    let object = title_value(alloc, it)?;
    json_text(alloc, &object)
}
