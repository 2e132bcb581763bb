//! The case of a whole message.

ghost use Rattle.std.specs.Prelude.{◌≡◌, ◌≢◌, ◌≤◌, ◌↔◌, ℕ, List, length, map, IsTrue, IfOk, IsErrOf};
ghost use Rattle.mail_head.specs.Fields.{fields_of};
ghost use Rattle.mail_head.specs.Pieces.{reader_of};
ghost use Rattle.mail_head.specs.declared.buffer.HeadFault.TheVariants.{TooLong};
ghost use Rattle.mail_case.specs.Message.{field_in, case_of, is_among};
ghost use Rattle.mail_case.specs.Views.{is_in, paths_in};
ghost use Rattle.mail_case.specs.Whole.{facts_by, facts_of};

use crate::case::Case;
use crate::fields::FieldValues;
use crate::paths::OpenPaths;
use mail_head::{HeadFault, HeaderBuffer, MAX_OCTETS};
use sieve_meaning::is_same_word;
use std::alloc::{AllocError, Global};
use std::collections::BTreeSet;

/// How many octets `WholeCase::read` feeds to the header buffer at a time.
const PIECE: usize = 4096;

/// The case of a whole message, with the paths that are open. It owns the names and the values of the header's fields,
/// and nothing of the body.
#[derive(Drop)]
pub struct WholeCase<P = BTreeSet<Vec<u8>>> {
    size: u64,
    fields: FieldValues,
    paths: P,
}

impl<P: OpenPaths + Drop> WholeCase<P> {
    /// The case of a message, which must have at most 8,388,608 octets. Its fields are those of the header (RFC 5322,
    /// section 2.2), in order, each with the value of its body; each value is decoded once, here. The message is read
    /// where it lies; `WholeCase::read` answers the same, but copies the header. The only error is a refused
    /// allocation.
    pub fn from_message(alloc: Global, message: &[u8], paths: P) -> Result<WholeCase<P>, AllocError>
        requires { length message.now ≤ MAX_OCTETS }
        ensures { IfOk result (λ c. facts_by P.opens c ≡ case_of message.now (P.opens paths)) }
    {
        let fields = FieldValues::read(alloc, message)?;
        Ok(WholeCase {
            size: message.len() as u64,
            fields,
            paths,
        })
    }
}

/// A buffer that was fed a message.
fn fed_buffer(alloc: Global, msg: &[u8]) -> Result<HeaderBuffer, HeadFault>
    ensures fed { IfOk result (λ r. r ≡ reader_of msg.now) }
    ensures within { length msg.now ≤ MAX_OCTETS → result ≢ Err TooLong }
{
    let mut buffer = HeaderBuffer::new(alloc);
    for piece in msg.chunks(PIECE) {
        buffer.feed(piece)?;
    }
    Ok(buffer)
}

/// The fields of the message that a buffer was fed, with their values, in order. `TooLong` (1) exactly where the buffer
/// refuses, and `NoMemory` (99) where an allocation was refused.
pub fn fields_fed(alloc: Global, buffer: &HeaderBuffer) -> Result<FieldValues, HeadFault>
    ensures fields { (message : List ℕ) → buffer.now ≡ reader_of message →
        IfOk result (λ v. v ≡ map field_in (fields_of message)) }
    ensures too_long { IsErrOf result TooLong ↔ IsTrue buffer.now.refuses }
{
    let octets = buffer.octets()?;
    let fields = FieldValues::read(alloc, octets)?;
    Ok(fields)
}

/// The allocation error that a fault other than `TooLong` is.
fn want_of_memory(fault: HeadFault) -> AllocError
    requires { fault ≢ TooLong }
{
    match fault {
        HeadFault::NoMemory => AllocError,
        HeadFault::TooLong => unreachable!(),
    }
}

impl WholeCase {
    /// The case of these parts.
    pub(crate) fn from_parts(size: u64, fields: FieldValues, paths: BTreeSet<Vec<u8>>) -> WholeCase
        ensures { facts_of result ≡ record { size = size; fields = fields; is_open = is_in paths } }
    {
        WholeCase {
            size,
            fields,
            paths,
        }
    }

    /// The case of a message, which must have at most 8,388,608 octets, and of the paths that are open. Its fields are
    /// those of the header (RFC 5322, section 2.2), in order, each with the value of its body; each value is decoded
    /// once, here. The message is fed to a header buffer, 4,096 octets at a time. The only error is a refused
    /// allocation.
    pub fn read(
        alloc: Global,
        msg: &[u8],
        paths: BTreeSet<Vec<u8>>,
    ) -> Result<WholeCase, AllocError>
        requires { length msg.now ≤ MAX_OCTETS }
        ensures { IfOk result (λ c. facts_of c ≡ case_of msg.now (is_among (paths_in paths))) }
    {
        let buffer = match fed_buffer(alloc, msg) {
            Ok(buffer) => buffer,
            Err(fault) => return Err(want_of_memory(fault)),
        };
        match fields_fed(alloc, &buffer) {
            Ok(fields) => Ok(WholeCase::from_parts(buffer.size(), fields, paths)),
            Err(fault) => Err(want_of_memory(fault)),
        }
    }
}

impl<P: OpenPaths> Case for WholeCase<P> {
    ghost use Rattle.mail_case.specs.Whole.{facts_by};

    ghost facts = { facts_by P.opens };

    fn size(&self) -> u64 {
        self.size
    }

    fn field_count(&self) -> usize {
        self.fields.count()
    }

    fn is_named(&self, field: usize, name: &[u8]) -> bool {
        is_same_word(self.fields.name(field), name)
    }

    fn value(&self, field: usize) -> &[u8] {
        self.fields.value(field)
    }

    fn is_open(&self, path: &[u8]) -> bool {
        self.paths.is_open(path)
    }
}
