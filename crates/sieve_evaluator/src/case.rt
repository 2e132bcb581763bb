//! A message that the caller keeps, with a vector for each value.

ghost use Rattle.std.specs.Prelude.{◌≡◌, IfOk};
ghost use Rattle.mail_case.specs.Message.{case_of};
ghost use Rattle.sieve_evaluator.specs.Case.{facts_by};

use mail_case::{Case, OpenPaths};
use mail_head::read_head;
use mail_words::value_of;
use sieve_meaning::is_same_word;
use std::alloc::{AllocError, Global};

/// A field of the header: its name, a slice of the message, and its value with folding and encoded words undone.
#[derive(Drop)]
pub struct BorrowedField<'a> {
    pub name: &'a [u8],
    pub value: Vec<u8>,
}

/// A message that the caller keeps, and what answers which paths are open. It owns the values of the header's fields,
/// and no other octet of the message.
#[derive(Drop)]
pub struct BorrowedCase<'a, P> {
    /// How many octets the message has, its body included.
    pub size: u64,
    /// The fields of the header (RFC 5322, section 2.2), in order.
    pub fields: Vec<BorrowedField<'a>>,
    /// Answers which paths are open.
    pub paths: P,
}

impl<'a, P: OpenPaths + Drop> BorrowedCase<'a, P> {
    /// The case of a message that the caller keeps. Its fields are those of the header (RFC 5322, section 2.2), in
    /// order, each with the value of its body. Each value is decoded once, here. The only error is out of memory.
    pub fn read(
        alloc: Global,
        message: &'a [u8],
        paths: P,
    ) -> Result<BorrowedCase<'a, P>, AllocError>
        ensures { IfOk result (λ c. facts_by P.opens c ≡ case_of message.now (P.opens paths)) }
    {
        let head = read_head(alloc, message)?;
        let mut fields = Vec::new(alloc);
        for field in head.fields() {
            let value = value_of(alloc, field.raw())?;
            fields.push(BorrowedField {
                name: field.name(),
                value,
            })?;
        }
        Ok(BorrowedCase {
            size: head.size(),
            fields,
            paths,
        })
    }
}

impl<P: OpenPaths> Case for BorrowedCase<'_, P> {
    ghost use Rattle.sieve_evaluator.specs.Case.{facts_by};

    ghost facts = { facts_by P.opens };

    fn size(&self) -> u64 {
        self.size
    }

    fn field_count(&self) -> usize {
        self.fields.len()
    }

    fn is_named(&self, field: usize, name: &[u8]) -> bool {
        is_same_word(self.fields[field].name, name)
    }

    fn value(&self, field: usize) -> &[u8] {
        self.fields[field].value.as_slice()
    }

    fn is_open(&self, path: &[u8]) -> bool {
        self.paths.is_open(path)
    }
}
