//! The shape of a plan file: which keys its tables have, and of which kinds their values are.
ghost use Rattle.std.specs.Prelude.{◌≡◌, Some, None, option_map, option_and_then, IfOk, map, codes};
ghost use Rattle.toml.specs.Data.{get_member, as_str};
ghost use Rattle.toml.specs.View.{view, table_view, array_view};
ghost use Rattle.class_plan.specs.Texts.{schedule_of_bytes};
ghost use Rattle.class_plan.specs.Entries.{entry_view, stated_if};
ghost use Rattle.class_plan.specs.Document.{has_only, is_class_key, is_file_key, openness_of, statement_of, class_of, entry_of, entries_of, listed_of, contents_of, shown_lists};

use crate::entries::{Listed, Lists, Stated};
use crate::texts::schedule_of_text;
use std::alloc::{AllocError, Global};
use toml::{Table, Value};

/// The text at a key, if the key holds a text.
fn text_at<'a>(table: &'a Table, key: &str) -> Option<&'a str>
    ensures { option_map (λ s. s.now) result
        ≡ option_and_then as_str (get_member key.now (table_view table.now)) }
{
    match table.get(key) {
        Some(value) => value.as_str(),
        None => None,
    }
}

/// Whether a class's table may have the key.
fn fits_class(key: &str) -> bool
    ensures { result ≡ is_class_key key.now }
{
    key == "path" || key == "open" || key == "schedule"
}

/// Whether a file's table may have the key.
fn fits_file(key: &str) -> bool
    ensures { result ≡ is_file_key key.now }
{
    key == "root" || key == "class"
}

fn has_only_class_keys(table: &Table) -> bool
    ensures { result ≡ has_only is_class_key (table_view table.now) }
{
    for key in table.keys() {
        if !fits_class(key.as_str()) {
            return false;
        }
    }
    true
}

fn has_only_file_keys(table: &Table) -> bool
    ensures { result ≡ has_only is_file_key (table_view table.now) }
{
    for key in table.keys() {
        if !fits_file(key.as_str()) {
            return false;
        }
    }
    true
}

/// Whether the class is open: what the key `open` says, and true where the key is missing. `None` where the key holds no
/// boolean.
fn openness(table: &Table) -> Option<bool>
    ensures { result ≡ openness_of (get_member (codes "open") (table_view table.now)) }
{
    match table.get("open") {
        Some(value) => value.as_bool(),
        None => Some(true),
    }
}

/// What a text states of a schedule.
fn stated_by(text: &str) -> Stated
    ensures { result ≡ stated_if (Some (schedule_of_bytes text.now)) }
{
    match schedule_of_text(text.as_bytes()) {
        Some(schedule) => Stated::Own(schedule),
        None => Stated::Faulty,
    }
}

/// What the class states of its own schedule. `None` where the key `schedule` holds no text.
fn statement(table: &Table) -> Option<Stated>
    ensures { result ≡ statement_of (get_member (codes "schedule") (table_view table.now)) }
{
    match table.get("schedule") {
        Some(value) => match value.as_str() {
            Some(text) => Some(stated_by(text)),
            None => None,
        },
        None => Some(Stated::Nothing),
    }
}

/// The class of a table; `None` for a table of another shape, or one that closes `unfiled`.
fn class_from(table: &Table) -> Option<Listed<'_>>
    ensures { option_map entry_view result ≡ class_of (table_view table.now) }
{
    if !has_only_class_keys(table) {
        return None;
    }
    let Some(path) = text_at(table, "path") else {
        return None;
    };
    let Some(is_open) = openness(table) else {
        return None;
    };
    let Some(stated) = statement(table) else {
        return None;
    };
    if path == "unfiled" && !is_open {
        return None;
    }
    Some(Listed {
        path: path.as_bytes(),
        is_open,
        stated,
    })
}

/// The class of a value, which must be a table.
fn class_in(value: &Value) -> Option<Listed<'_>>
    ensures { option_map entry_view result ≡ entry_of (view value.now) }
{
    match value.as_table() {
        Some(table) => class_from(table),
        None => None,
    }
}

/// The classes of an array, or `None` where one is no class.
fn all_listed(alloc: Global, values: &Vec<Value>) -> Result<Option<Vec<Listed<'_>>>, AllocError>
    ensures { IfOk result
        (λ o. option_map (λ v. map entry_view v.items) o ≡ entries_of (array_view values.now)) }
{
    let mut out = Vec::with_capacity(alloc, values.len())?;
    for value in values {
        match class_in(value) {
            Some(class) => out.push(class)?,
            None => return Ok(None),
        }
    }
    Ok(Some(out))
}

/// The classes that the file lists: none where it has no key `class`.
fn classes_at<'a>(alloc: Global, table: &'a Table) -> Result<Option<Vec<Listed<'a>>>, AllocError>
    ensures { IfOk result (λ o. option_map (λ v. map entry_view v.items) o ≡
        listed_of (get_member (codes "class") (table_view table.now))) }
{
    match table.get("class") {
        Some(value) => match value.as_array() {
            Some(values) => all_listed(alloc, values),
            None => Ok(None),
        },
        None => Ok(Some(Vec::new(alloc))),
    }
}

/// The contents of a file's table, or `None` for a table of another shape.
pub(crate) fn lists_from(alloc: Global, table: &Table) -> Result<Option<Lists<'_>>, AllocError>
    ensures { IfOk result (λ o. option_map shown_lists o ≡ contents_of (table_view table.now)) }
{
    if !has_only_file_keys(table) {
        return Ok(None);
    }
    let Some(root) = text_at(table, "root") else {
        return Ok(None);
    };
    let Some(classes) = classes_at(alloc, table)? else {
        return Ok(None);
    };
    Ok(Some(Lists {
        root: schedule_of_text(root.as_bytes()),
        classes,
    }))
}
