//! The destruction of one record, with what its certificate says.

ghost use Rattle.std.specs.Prelude.{◌≡◌, ◌<◌, length, map, option_map, find, None, Some, true, false, IfOk, IfErr, OnErr};
ghost use Rattle.std.specs.List.{list_any};
ghost use Rattle.jiff.specs.Words.{epoch_day};
ghost use Rattle.record_archive.specs.Archive as archive;
ghost use Rattle.record_archive.specs.Archive.{Archive, Record, record_at};
ghost use Rattle.record_archive.specs.Calls.{Makes};
ghost use Rattle.record_choice.specs.Entries.{RecordEntry as Listed, entry_of, entry_view};
ghost use Rattle.record_choice.specs.Reads.{OnlyReads};
ghost use Rattle.record_choice.specs.Walks.{above, last_of};
ghost use Rattle.record_choice.specs.Disposals.{Certificate, certificate_view, keeps_entry, known_after, IsCertificate, IsKeptBy, IsKnown, IsSummed, IsTold, Finds, search_after};
ghost use Rattle.record_choice.specs.declared.destruction.End.TheVariants.{Done};

use crate::entry::RecordEntry;
use crate::pages::number_above;
use crate::registrar::Registrar;
use crate::repository::Repository;
use class_plan::Date;
use sha2::{Digest, Sha256};

/// How many records are read at a time in a search for others of one message.
const GROUP: usize = 16;

/// The length and the sum of a message.
#[derive(Clone, Copy)]
pub(crate) struct Summed {
    /// The number of the message.
    pub message: u32,
    pub octets: usize,
    /// Its SHA-256.
    pub sum: [u8; 32],
}

/// Why a disposal ended.
#[derive(Drop)]
pub enum End<F, K> {
    /// Each record is destroyed.
    Done,
    /// The repository did not destroy the next record, or could not be read.
    Repository(F),
    /// The certificate of the next record could not be made out, or that of the last one was not taken.
    Registrar(K),
}

/// What the certificate of a destroyed record says.
#[derive(Drop)]
pub struct Destroyed {
    /// As it was listed before.
    pub entry: RecordEntry,
    /// How many octets its message had.
    pub octets: usize,
    /// The SHA-256 of its message.
    pub sum: [u8; 32],
    /// A live record that keeps the same message, if one does.
    pub kept_by: Option<u32>,
}

/// The length and the sum of the message of a live record.
fn read_sum<R: Repository>(records: &mut R, entry: &RecordEntry) -> Result<Summed, R::Fault>
    ensures reads { OnlyReads R.clean R.stands records.old records.new }
    ensures of { IfOk result (λ s. s.message ≡ entry.now.message) }
    ensures told { IfOk result (λ s. R.clean records.new → (a : Archive) (r : Record)
        → R.stands records.old a → record_at a entry.now.number ≡ Some r → r.destroyed ≡ false
        → r.message ≡ entry.now.message → IsSummed a s) }
{
    let body = records.message(entry.number)?;
    let octets = body.as_slice();
    let sum = Sha256::digest(octets);
    Ok(Summed {
        message: entry.message,
        octets: octets.len(),
        sum,
    })
}

/// The same, which may be known from a record before it.
fn sum_message<R: Repository>(
    records: &mut R,
    entry: &RecordEntry,
    known: Option<Summed>,
) -> Result<Summed, R::Fault>
    ensures reads { OnlyReads R.clean R.stands records.old records.new }
    ensures of { IfOk result (λ s. s.message ≡ entry.now.message) }
    ensures told { IfOk result (λ s. R.clean records.new → (a : Archive) (r : Record)
        → R.stands records.old a → record_at a entry.now.number ≡ Some r → r.destroyed ≡ false
        → r.message ≡ entry.now.message → IsKnown a known → IsSummed a s) }
{
    match known {
        Some(summed) if summed.message == entry.message => Ok(summed),
        _ => {
            let summed = read_sum(records, entry)?;
            Ok(summed)
        }
    }
}

/// Whether a record is live and has a message, and not a number.
fn is_keeper(entry: &RecordEntry, message: u32, number: u32) -> bool
    ensures { result ≡ keeps_entry message number (entry_view entry.now) }
{
    !entry.destroyed && (entry.message == message && entry.number != number)
}

/// The first of some records that is live and has a message, and not a number.
fn keeper_in(entries: &[RecordEntry], message: u32, number: u32) -> Option<u32>
    ensures { result ≡ option_map (λ (e : Listed). e.number)
        (find (keeps_entry message number) (map entry_view entries.now)) }
{
    for entry in entries {
        if is_keeper(entry, message, number) {
            return Some(entry.number);
        }
    }
    None
}

/// The number above that of the last of some records, if there is one of 32 bits.
fn number_after(entries: &[RecordEntry]) -> Option<u32>
    ensures { result ≡ above (last_of None (map entry_view entries.now)) }
{
    let mut last = None;
    for entry in entries {
        last = Some(entry.number);
    }
    number_above(last)
}

/// How far a search for another record of a message has come.
#[derive(Clone, Copy)]
pub(crate) enum Search {
    /// This record keeps the message.
    Found(u32),
    /// One with this number or a greater one may.
    Further(u32),
    /// None does.
    Ended,
}

/// The search goes on with a number, or has ended.
fn search_after(next: Option<u32>) -> Search
    ensures { result ≡ search_after next }
{
    match next {
        Some(number) => Search::Further(number),
        None => Search::Ended,
    }
}

/// Looks for another live record of a message among the next records from a number on.
fn look_on<R: Repository>(
    records: &mut R,
    from: u32,
    message: u32,
    number: u32,
) -> Result<Search, R::Fault>
    ensures reads { OnlyReads R.clean R.stands records.old records.new }
    ensures told { IfOk result (λ x. R.clean records.new → (a : Archive) → R.stands records.old a
        → Finds a message number from x) }
{
    let page = records.entries(from, GROUP)?;
    match keeper_in(page.as_slice(), message, number) {
        Some(keeper) => Ok(Search::Found(keeper)),
        None => Ok(search_after(number_after(page.as_slice()))),
    }
}

/// The first live record other than the one of a number that has its message, if there is one. The records of a message
/// come after its number.
fn keeper_of<R: Repository>(
    records: &mut R,
    message: u32,
    number: u32,
) -> Result<Option<u32>, R::Fault>
    ensures reads { OnlyReads R.clean R.stands records.old records.new }
    ensures told { IfOk result (λ o. R.clean records.new → (a : Archive) (r : Record)
        → R.stands records.old a → record_at a number ≡ Some r → r.destroyed ≡ false
        → r.message ≡ message → IsKeptBy a message number o) }
{
    if !records.is_shared(message) {
        return Ok(None);
    }
    let mut from = message;
    for _ in 0..u64::MAX {
        let found = look_on(records, from, message, number)?;
        match found {
            Search::Found(keeper) => return Ok(Some(keeper)),
            Search::Further(next) => from = next,
            Search::Ended => return Ok(None),
        }
    }
    Ok(None)
}

/// What the certificate of a live record says, and what is known of its message then. Fails where there is no such
/// record.
fn describe<R: Repository>(
    records: &mut R,
    number: u32,
    known: Option<Summed>,
) -> Result<(Destroyed, Summed), R::Fault>
    ensures reads { OnlyReads R.clean R.stands records.old records.new }
    ensures told { IfOk result (λ x. R.clean records.new → (a : Archive) → R.stands records.old a
        → IsKnown a known → IsTold a number (certificate_view x.0) x.1) }
{
    let entry = records.entry(number)?;
    let summed = sum_message(records, &entry, known)?;
    let kept_by = keeper_of(records, entry.message, number)?;
    let sum = summed.sum;
    let destroyed = Destroyed {
        entry,
        octets: summed.octets,
        sum,
        kept_by,
    };
    Ok((destroyed, summed))
}

/// What is known of the message of a destroyed record, where another record keeps it.
fn known_after(summed: Summed, kept_by: Option<u32>) -> Option<Summed>
    ensures { result ≡ known_after summed kept_by }
{
    match kept_by {
        Some(_) => Some(summed),
        None => None,
    }
}

/// What came of a record that was destroyed.
#[derive(Drop)]
pub(crate) struct Step<K> {
    /// What is known of its message, where another record keeps it.
    pub known: Option<Summed>,
    /// Why its certificate was not taken, if it was not.
    pub fault: Option<K>,
}

/// Destroys a record by a day, and hands over its certificate. Where that fails before the destruction, nothing has
/// changed.
pub(crate) fn destroy_one<R: Repository, K: Registrar>(
    records: &mut R,
    registrar: &mut K,
    number: u32,
    day: Date,
    known: Option<Summed>,
) -> Result<Step<K::Fault>, End<R::Fault, K::Fault>>
    requires { K.is_open registrar.old }
    ensures falls { R.clean records.new → R.clean records.old }
    ensures done { IfOk result (λ x. (c : Certificate) × K.takes registrar.old registrar.new c
        × (R.clean records.new → (a : Archive) → R.stands records.old a → IsKnown a known
        → IsCertificate a number c
        × Makes (λ b. R.stands records.new b × IsKnown b x.known)
        (archive.destroy_on a number (epoch_day day)))) }
    ensures failed { OnErr result ((registrar.new ≡ registrar.old)
        × ((a : Archive) → R.stands records.old a → R.stands records.new a)) }
    ensures open { IfOk result (λ x. x.fault ≡ None → K.is_open registrar.new) }
    ensures ended { IfErr result (λ e. e ≡ Done → ⊥) }
{
    let (destroyed, summed) = match describe(records, number, known) {
        Ok(told) => told,
        Err(fault) => return Err(End::Repository(fault)),
    };
    let draft = match registrar.draft(&destroyed) {
        Ok(draft) => draft,
        Err(fault) => return Err(End::Registrar(fault)),
    };
    match records.destroy(number, day) {
        Ok(()) => {}
        Err(fault) => return Err(End::Repository(fault)),
    }
    let fault = match registrar.take(draft) {
        Ok(()) => None,
        Err(fault) => Some(fault),
    };
    Ok(Step {
        known: known_after(summed, destroyed.kept_by),
        fault,
    })
}
