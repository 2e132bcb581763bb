//! What a deed tells, as named fields.

ghost use Rattle.record_history.specs.Spelled.{IsSpelledDeed};
ghost use Rattle.record_history.specs.Views.{deed_view};

use crate::chosen::records_of;
use crate::days::day_text;
use class_plan::schedule_text;
use cli_texts::{Field, Named};
use record_history::{Deed, Filing, Seal};
use std::alloc::{AllocError, Global};

/// The fields of a deed, as they are added.
#[derive(Drop)]
struct Fields<'d> {
    alloc: Global,
    fields: Vec<Named<'d>>,
}

impl<'d> Fields<'d> {
    fn add(&mut self, name: &'static str, value: Field<'d>) -> Result<(), AllocError> {
        Ok(self.fields.push(Named { name, value })?)
    }

    fn add_records(&mut self, deed: &Deed<'_>) -> Result<(), AllocError> {
        match records_of(deed) {
            Some((first, last)) => self.add("records", Field::Numbers(first, last)),
            None => Ok(()),
        }
    }

    fn add_seal(&mut self, seal: &'d Seal) -> Result<(), AllocError> {
        self.add("octets", Field::Number(seal.octets))?;
        self.add("sum", Field::Text(seal.sum.as_slice()))
    }

    fn add_day(&mut self, day: u32) -> Result<(), AllocError> {
        let text = day_text(self.alloc, day)?;
        self.add("day", Field::Words(text))
    }

    fn add_filing(&mut self, filing: &Option<Filing<'d>>) -> Result<(), AllocError> {
        let Some(Filing { officer, rules }) = filing else {
            return Ok(());
        };
        self.add("officer", Field::Text(*officer))?;
        self.add("rules", Field::Text(*rules))
    }

    /// The title and the legal basis that a class gets.
    fn add_title(
        &mut self,
        path: &'d [u8],
        title: &'d [u8],
        basis: &'d [u8],
    ) -> Result<(), AllocError> {
        self.add_classes(&[path])?;
        self.add("title", Field::Text(title))?;
        self.add("basis", Field::Text(basis))
    }

    /// The paths of the classes of a capture.
    fn add_classes(&mut self, paths: &[&'d [u8]]) -> Result<(), AllocError> {
        let list = Vec::from_slice(self.alloc, paths)?;
        self.add("classes", Field::Texts(list))
    }
}

/// Adds the fields of a deed that is done by the archive's own commands.
fn add_done<'d>(fields: &mut Fields<'d>, deed: &'d Deed<'_>) -> Result<(), AllocError>
    requires { IsSpelledDeed (deed_view deed.now) }
{
    match deed {
        Deed::Captured {
            seal,
            day,
            filing,
            paths,
            ..
        } => {
            fields.add_seal(seal)?;
            fields.add_day(*day)?;
            fields.add_filing(filing)?;
            fields.add_classes(paths.as_slice())
        }
        Deed::Held { name, .. } | Deed::Released { name, .. } => {
            fields.add("hold", Field::Text(*name))
        }
        Deed::Destroyed { day, schedule, .. } => {
            fields.add_day(*day)?;
            let text = schedule_text(fields.alloc, *schedule)?;
            fields.add("schedule", Field::Octets(text))
        }
        Deed::Refiled { path, .. } | Deed::ClassAdded { path } => fields.add_classes(&[*path]),
        Deed::Titled { path, title, basis } => fields.add_title(*path, *title, *basis),
        _ => Ok(()),
    }
}

/// Adds the fields of what was found.
fn add_found<'d>(fields: &mut Fields<'d>, deed: &'d Deed<'_>) -> Result<(), AllocError> {
    match deed {
        Deed::FoundMessage { number, seal } => {
            fields.add("message", Field::Number(u64::from(*number)))?;
            fields.add_seal(seal)
        }
        Deed::FoundRecord {
            message,
            path,
            day,
            destroyed,
            ..
        } => {
            fields.add("message", Field::Number(u64::from(*message)))?;
            fields.add_classes(&[*path])?;
            fields.add_day(*day)?;
            fields.add("destroyed", Field::Truth(*destroyed))
        }
        Deed::FoundHold { name, .. } => fields.add("hold", Field::Text(*name)),
        _ => Ok(()),
    }
}

/// What a deed tells, each part of it under its name: of a capture the records, the octets and the sum of the message, the day,
/// the officer and the sum of the rules, and the classes; of each other deed what it has of these, its hold, its schedule, and the
/// title and the legal basis of its class.
pub fn fields_of<'d>(alloc: Global, deed: &'d Deed<'_>) -> Result<Vec<Named<'d>>, AllocError>
    requires { IsSpelledDeed (deed_view deed.now) }
{
    let mut fields = Fields {
        alloc,
        fields: Vec::new(alloc),
    };
    fields.add_records(deed)?;
    add_done(&mut fields, deed)?;
    add_found(&mut fields, deed)?;
    let Fields { fields, .. } = fields;
    Ok(fields)
}
