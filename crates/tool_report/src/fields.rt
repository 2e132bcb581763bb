//! The message as it was read.

use crate::details::push_field;
use crate::report::Report;
use mail_head::first_field;
use std::alloc::{AllocError, Global};
use tool_texts::{Shown, put};

/// The octets of a header after its last field, up to the first line without octets.
fn header_rest(text: &[u8]) -> &[u8] {
    let mut end: usize = 0;
    for line in text.split(|octet| *octet == b'\n') {
        if line.is_empty() || line == b"\r".as_slice() {
            break;
        }
        end = end.saturating_add(line.len()).saturating_add(1);
    }
    text.get(..end.min(text.len())).unwrap_or(text)
}

/// The parts of a header that are no fields, and were passed over.
pub fn passed_over(alloc: Global, message: &[u8]) -> Result<Vec<&[u8]>, AllocError> {
    let mut parts = Vec::new(alloc);
    let mut rest = message;
    for _ in 0..message.len() {
        let Some(found) = first_field(rest) else {
            break;
        };
        let before = rest.len().saturating_sub(found.from.len());
        parts.push(rest.get(..before).unwrap_or(rest))?;
        rest = found.after;
    }
    parts.push(header_rest(rest))?;
    Ok(parts)
}

/// Adds the lines of a part of a header that is no field.
fn push_passed_over(text: &mut Shown, part: &[u8]) -> Result<(), AllocError> {
    for line in part.split(|octet| *octet == b'\n') {
        if !line.is_empty() {
            text.words("  no field: ")?;
            text.quoted(line.strip_suffix(b"\r").unwrap_or(line))?;
            text.end_line()?;
        }
    }
    Ok(())
}

/// Adds the lines of a header that are no fields.
fn push_parts(alloc: Global, text: &mut Shown, message: &[u8]) -> Result<(), AllocError> {
    for part in passed_over(alloc, message)?.as_slice() {
        push_passed_over(text, part)?;
    }
    Ok(())
}

/// Adds the length of the message, its fields with their numbers from 1, and the lines of its header that are no
/// fields.
pub fn push_fields(
    alloc: Global,
    text: &mut Shown,
    report: &Report<'_, '_, '_>,
) -> Result<(), AllocError> {
    let size = report.case.size;
    put!(text; "message of " value(&size) " octets")?;
    text.end_line()?;
    for place in 0..report.case.fields.len() {
        text.words("  ")?;
        push_field(text, report.case, place)?;
        text.end_line()?;
    }
    push_parts(alloc, text, report.message)
}
