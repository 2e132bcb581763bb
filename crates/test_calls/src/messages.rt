//! The calls of the readers of messages.

use crate::told::{size, word};
use anyhow::{Result, bail};
use mail_case::{Case, PieceCase, WholeCase};
use mail_head::{HeadFault, HeadReader, MAX_OCTETS, PieceHead, read_head};
use std::alloc::Global;
use std::collections::BTreeSet;

/// Writes a field, as `[name:body]`.
fn write_field(out: &mut Vec<u8>, name: &[u8], raw: &[u8]) -> Result<()> {
    out.push(b'[')?;
    out.extend_from_slice(name)?;
    out.push(b':')?;
    out.extend_from_slice(raw)?;
    out.push(b']')?;
    Ok(())
}

/// The fields of a whole message.
fn whole_fields(alloc: Global, message: &[u8]) -> Result<Vec<u8>> {
    let mut out = Vec::new(alloc);
    let head = read_head(alloc, message)?;
    for field in head.fields() {
        write_field(&mut out, field.name(), field.raw())?;
    }
    Ok(out)
}

/// The fields of a header that came in pieces.
fn kept_fields(alloc: Global, head: &PieceHead) -> Result<Vec<u8>> {
    let mut out = Vec::new(alloc);
    for index in 0..head.field_count() {
        write_field(&mut out, head.name(index), head.raw(index))?;
    }
    Ok(out)
}

/// The fields of a message that comes in two pieces, with an empty one between them.
fn cut_fields(alloc: Global, front: &[u8], back: &[u8]) -> Result<Vec<u8>> {
    let mut reader = HeadReader::new(alloc);
    reader.feed(front)?;
    reader.feed(b"")?;
    reader.feed(back)?;
    kept_fields(alloc, &reader.finish()?)
}

/// The fields of a message that comes octet by octet.
fn octet_fields(alloc: Global, message: &[u8]) -> Result<Vec<u8>> {
    let mut reader = HeadReader::new(alloc);
    for octet in message {
        reader.feed(&[*octet])?;
    }
    kept_fields(alloc, &reader.finish()?)
}

/// The fields of a message, whole, cut at each place, and octet by octet.
pub fn fields(alloc: Global, message: &[u8]) -> Result<Vec<u8>> {
    let whole = whole_fields(alloc, message)?;
    for place in 0..=message.len() {
        let (front, back) = message.split_at(place);
        if cut_fields(alloc, front, back)? != whole {
            bail!("other fields in two pieces, cut at {place}");
        }
    }
    if octet_fields(alloc, message)? != whole {
        bail!("other fields octet by octet");
    }
    Ok(whole)
}

/// A fault, and whether the reader refuses for good.
fn told_fault(alloc: Global, fault: HeadFault, is_for_good: bool) -> Result<Vec<u8>> {
    match (fault, is_for_good) {
        (HeadFault::TooLong, true) => word(alloc, "too long, for good"),
        (HeadFault::TooLong, false) => word(alloc, "too long, once"),
        (HeadFault::NoMemory, _) => word(alloc, "no memory"),
    }
}

/// How many octets and fields the header has of a message that comes in one piece.
pub fn reader(alloc: Global, message: &[u8]) -> Result<Vec<u8>> {
    let mut reader = HeadReader::new(alloc);
    if let Err(fault) = reader.feed(message) {
        let again = reader.feed(b"");
        let is_for_good = matches!(&again, Err(HeadFault::TooLong)) && reader.finish().is_err();
        return told_fault(alloc, fault, is_for_good);
    }
    let head = reader.finish()?;
    size(alloc, head.size(), head.field_count())
}

/// How many octets and fields the case has of a message that comes in one piece.
pub fn pieces(alloc: Global, message: &[u8]) -> Result<Vec<u8>> {
    let mut coming = PieceCase::new(alloc, BTreeSet::new(alloc));
    if let Err(fault) = coming.feed(message) {
        let again = coming.feed(b"");
        let is_for_good = matches!(&again, Err(HeadFault::TooLong)) && coming.finish().is_err();
        return told_fault(alloc, fault, is_for_good);
    }
    let Ok(case) = coming.finish() else {
        bail!("a case that was fed gives no case");
    };
    size(alloc, case.size(), case.field_count())
}

/// The paths that are open in each case.
fn open_paths(alloc: Global) -> Result<BTreeSet<Vec<u8>>> {
    let mut paths = BTreeSet::new(alloc);
    for path in ["archive", "finance", "letters", "letters/kept", "work"] {
        paths.insert(Vec::from_slice(alloc, path.as_bytes())?)?;
    }
    Ok(paths)
}

/// The case of a whole message.
fn whole_case(alloc: Global, message: &[u8]) -> Result<WholeCase> {
    if message.len() as u64 > MAX_OCTETS {
        bail!("a message is too long");
    }
    Ok(WholeCase::read(alloc, message, open_paths(alloc)?)?)
}

/// The case of a message that comes in two pieces, with an empty one between them.
fn cut_case(alloc: Global, front: &[u8], back: &[u8]) -> Result<WholeCase> {
    let mut coming = PieceCase::new(alloc, open_paths(alloc)?);
    coming.feed(front)?;
    coming.feed(b"")?;
    coming.feed(back)?;
    let Ok(case) = coming.finish() else {
        bail!("a message in two pieces has no case");
    };
    Ok(case)
}

/// The case of a message that comes octet by octet.
fn octet_case(alloc: Global, message: &[u8]) -> Result<WholeCase> {
    let mut coming = PieceCase::new(alloc, open_paths(alloc)?);
    for octet in message {
        coming.feed(&[*octet])?;
    }
    let Ok(case) = coming.finish() else {
        bail!("a message octet by octet has no case");
    };
    Ok(case)
}

/// What a case knows: the message's octets, how many fields it has, whether a path is open, and the values of the
/// fields that have a name.
fn known(alloc: Global, case: &WholeCase, path: &[u8], name: &[u8]) -> Result<Vec<u8>> {
    let (size, count, is_open) = (case.size(), case.field_count(), case.is_open(path));
    let mut out = format!(in alloc; "{size} {count} {is_open}")?.into_bytes();
    for field in 0..case.field_count() {
        if case.is_named(field, name) {
            write_field(&mut out, name, case.value(field))?;
        }
    }
    Ok(out)
}

/// What the case of a message knows, whole, cut at each place, and octet by octet.
pub fn case(alloc: Global, message: &[u8], path: &[u8], name: &[u8]) -> Result<Vec<u8>> {
    let whole = known(alloc, &whole_case(alloc, message)?, path, name)?;
    for place in 0..=message.len() {
        let (front, back) = message.split_at(place);
        if known(alloc, &cut_case(alloc, front, back)?, path, name)? != whole {
            bail!("another case in two pieces, cut at {place}");
        }
    }
    if known(alloc, &octet_case(alloc, message)?, path, name)? != whole {
        bail!("another case octet by octet");
    }
    Ok(whole)
}
