//! `list --twice`: the records whose messages were captured twice.

ghost use Rattle.std.specs.Prelude.{◌≡◌, ◌∷◌, [], false, None, true, IfOk, OnOk, string_bytes};
ghost use Rattle.record_choice.specs.Reads.{OnlyReads};
ghost use Rattle.cli_history.specs.Seals.{known};
ghost use Rattle.cli_readings.specs.Chosen.{OnlyReadsStore, TwiceOf};
ghost use Rattle.cli_readings.specs.Groups.{key_of, records_of};
ghost use Rattle.cli_readings.specs.Lists.{PushesRow};
ghost use Rattle.cli_choice.specs.Reads.{IsReadOf};
ghost use Rattle.cli_readings.specs.Shows.{IsEntryOf};
ghost use Rattle.cli_readings.specs.Twice.{
  AddsBeside,
  AddsGroups,
  AreCapturedTwice,
  Gathers,
  GathersAll,
  IsBeside,
  IsKeyOf,
  WritesTwice,
  after_group,
  before_group,
  beside_record,
  head_beside,
  more_gathered,
  none_gathered,
  sum_text as sum_text_of,
};

use crate::groups::{Group, Groups, SealKey, Sealed};
use crate::list::{ListText, headers_of_record};
use cli_console::{Failure, Reader, Sink, message_of, read_chosen, text_between};
use cli_history::Seals;
use cli_texts::{Headers, LIST_HEADER, LIST_HEADER_WITH_TEXTS, ListedHeaders, sum_of};
use command_lines::archives::{Format, Listing};
use record_choice::{Choice, Repository};
use record_store::{RecordEntry, Store, StoreFault};
use sqlite::Alter;
use std::alloc::{AllocError, Global};
use std::str;

/// The length and the SHA-256 of the octets of a live record's message. A failure is that of the store.
fn own_seal<R: Repository<Fault = StoreFault>>(
    rt: &HostRuntime,
    archive: &mut R,
    entry: &RecordEntry,
) -> Result<SealKey, Failure>
    ensures reads { OnlyReads R.clean R.stands archive.old archive.new }
    ensures told { IfOk result (λ seal. IsReadOf R.clean R.stands archive.old archive.new
        (λ a. IsKeyOf None a entry.now (key_of seal))) }
{
    let message = message_of(rt, archive, entry)?;
    let sum = sum_of(rt.alloc(), message.as_slice())?;
    Ok((message.len() as u64, sum.into_bytes()))
}

/// What stands for the message of a live record: what the history tells of it, or else its own length and SHA-256.
fn seal_of_record<R: Repository<Fault = StoreFault>>(
    rt: &HostRuntime,
    archive: &mut R,
    seals: &Seals,
    entry: &RecordEntry,
) -> Result<SealKey, Failure>
    ensures reads { OnlyReads R.clean R.stands archive.old archive.new }
    ensures told { IfOk result (λ seal. IsReadOf R.clean R.stands archive.old archive.new
        (λ a. IsKeyOf (known seals.now entry.now.message) a entry.now (key_of seal))) }
{
    let Some((octets, sum)) = seals.length_and_sum(entry.message) else {
        return own_seal(rt, archive, entry);
    };
    Ok((octets, Vec::from_slice(rt.alloc(), sum)?))
}

/// The live records of a volume, as they are gathered.
#[derive(Drop)]
struct Grouping<'a> {
    rt: &'a HostRuntime,
    volume: u32,
    seals: Seals,
    groups: Groups,
}

impl Reader for Grouping<'_> {
    ghost takes = { λ old a es new. Gathers old a es new };

    fn take<R: Repository<Fault = StoreFault>>(
        &mut self,
        archive: &mut R,
        entry: &RecordEntry,
        _headers: Option<&Headers>,
    ) -> Result<(), Failure> {
        let seal = seal_of_record(self.rt, archive, &self.seals, entry)?;
        let sealed = Sealed {
            volume: self.volume,
            number: entry.number,
            message: entry.message,
        };
        self.groups.add(seal, sealed)?;
        Ok(())
    }

    ghost takes_none = { λ grouping a. none_gathered grouping a };

    ghost takes_more = { λ x y z a es fs one other. more_gathered x y z a es fs one other };
}

/// Gathers the live records of a volume behind others, by what stands for their messages: what these seals tell, or else their own
/// lengths and sums. A failure is that of the store, or no memory.
pub(crate) fn gather<R: Repository<Fault = StoreFault>>(
    rt: &HostRuntime,
    archive: &mut R,
    volume: u32,
    seals: Seals,
    groups: Groups,
) -> Result<Groups, Failure>
    ensures reads { OnlyReads R.clean R.stands archive.old archive.new }
    ensures gathered { IfOk result (λ after. IsReadOf R.clean R.stands archive.old archive.new
        (λ a. GathersAll volume a seals groups after)) }
{
    let mut grouping = Grouping {
        rt,
        volume,
        seals,
        groups,
    };
    read_chosen(rt, archive, &Choice::live(), &mut grouping)?;
    let Grouping { groups, .. } = grouping;
    Ok(groups)
}

/// The groups of the live records whose messages were captured twice, in the order of their first records, with what stands for
/// their messages.
fn groups_of<R: Repository<Fault = StoreFault>>(
    rt: &HostRuntime,
    archive: &mut R,
    seals: Seals,
) -> Result<Vec<(SealKey, Group)>, Failure>
    ensures reads { OnlyReads R.clean R.stands archive.old archive.new }
    ensures twice { IfOk result (λ groups. IsReadOf R.clean R.stands archive.old archive.new
        (λ a. AreCapturedTwice a seals groups.items)) }
{
    let groups = gather(rt, archive, 1, seals, Groups::new(rt.alloc()))?;
    Ok(groups.into_twice()?)
}

/// The sum of a seal as it is written.
fn sum_text(seal: &SealKey) -> &str
    ensures { result.now ≡ sum_text_of (key_of seal.now).1 }
{
    match str::from_utf8(seal.1.as_slice()) {
        Ok(text) => text,
        Err(_) => "",
    }
}

/// What stands before the records of a group.
pub(crate) fn text_before(
    alloc: Global,
    format: Format,
    seal: &SealKey,
    is_first: bool,
) -> Result<String, AllocError>
    ensures { IfOk result
        (λ text. string_bytes text ≡ before_group format is_first (key_of seal.now)) }
{
    let octets = seal.0;
    let sum = sum_text(seal);
    match format {
        Format::Lines => format!(in alloc; "octets {octets} sha256 {sum}\n"),
        Format::Json => {
            let sign = text_between(is_first);
            format!(in alloc; "{sign}{{\"octets\":{octets},\"sha256\":\"{sum}\",\"records\":[")
        }
        Format::Csv | Format::Numbers | Format::Count => Ok(String::new(alloc)),
    }
}

/// What stands before each record of a group.
pub(crate) fn text_beside(
    alloc: Global,
    format: Format,
    seal: &SealKey,
) -> Result<String, AllocError>
    ensures { IfOk result (λ text. string_bytes text ≡ beside_record format (key_of seal.now)) }
{
    let octets = seal.0;
    let sum = sum_text(seal);
    match format {
        Format::Csv => format!(in alloc; "{octets},{sum},"),
        Format::Lines | Format::Json | Format::Numbers | Format::Count => Ok(String::new(alloc)),
    }
}

/// What stands after the records of a group.
pub(crate) fn text_after(format: Format) -> &'static str
    ensures { result.now ≡ after_group format }
{
    match format {
        Format::Json => "\n]}",
        Format::Lines | Format::Csv | Format::Numbers | Format::Count => "",
    }
}

/// The entry of a record that was gathered. A failure is that of the store.
fn entry_of<R: Repository<Fault = StoreFault>>(
    alloc: Global,
    archive: &mut R,
    number: u32,
) -> Result<RecordEntry, Failure>
    ensures reads { OnlyReads R.clean R.stands archive.old archive.new }
    ensures told { IfOk result (λ e. IsReadOf R.clean R.stands archive.old archive.new
        (λ a. IsEntryOf a number e)) }
{
    match archive.entry(number) {
        Ok(entry) => Ok(entry),
        Err(fault) => Err(Failure::of_store(alloc, "the store", fault)),
    }
}

/// Adds a record to a list, with what the header of its message says where that is listed.
fn push_entry<R: Repository<Fault = StoreFault>, K: Sink + Drop>(
    archive: &mut R,
    list: &mut ListText<'_, K>,
    entry: &RecordEntry,
    is_first: bool,
) -> Result<(), Failure>
    ensures reads { OnlyReads R.clean R.stands archive.old archive.new }
    ensures pushed { OnOk result (IsReadOf R.clean R.stands archive.old archive.new
        (λ a. PushesRow K.written a is_first list.old entry.now list.new)) }
{
    if !list.listing.headers {
        return list.push_row(entry, ListedHeaders::Unasked, is_first);
    }
    match headers_of_record(list.rt, archive, entry)? {
        Some(headers) => list.push_row(entry, ListedHeaders::Texts(&headers), is_first),
        None => list.push_row(entry, ListedHeaders::Destroyed, is_first),
    }
}

/// Adds a record of a group to a list, and before it what stands beside it.
pub(crate) fn add_record<R: Repository<Fault = StoreFault>, K: Sink + Drop>(
    archive: &mut R,
    list: &mut ListText<'_, K>,
    sealed: Sealed,
    beside: &str,
    is_first: bool,
) -> Result<(), Failure>
    ensures reads { OnlyReads R.clean R.stands archive.old archive.new }
    ensures added { OnOk result (IsReadOf R.clean R.stands archive.old archive.new
        (λ a. AddsBeside K.written beside.now is_first list.old a (sealed ∷ []) list.new)) }
{
    let entry = entry_of(list.rt.alloc(), archive, sealed.number)?;
    list.push(beside)?;
    push_entry(archive, list, &entry, is_first)?;
    Ok(())
}

/// Adds records to a list of which none is the first of its group.
fn add_others<R: Repository<Fault = StoreFault>, K: Sink + Drop>(
    archive: &mut R,
    list: &mut ListText<'_, K>,
    others: &[Sealed],
    beside: &str,
) -> Result<(), Failure>
    ensures reads { OnlyReads R.clean R.stands archive.old archive.new }
    ensures added { OnOk result (IsReadOf R.clean R.stands archive.old archive.new
        (λ a. AddsBeside K.written beside.now false list.old a others.now list.new)) }
{
    for other in others {
        add_record(archive, list, *other, beside, false)?;
    }
    Ok(())
}

/// Adds the records of a group to a list: its first one, and the others behind it.
fn add_records<R: Repository<Fault = StoreFault>, K: Sink + Drop>(
    archive: &mut R,
    list: &mut ListText<'_, K>,
    group: &Group,
    beside: &str,
) -> Result<(), Failure>
    ensures reads { OnlyReads R.clean R.stands archive.old archive.new }
    ensures added { OnOk result (IsReadOf R.clean R.stands archive.old archive.new
        (λ a. AddsBeside K.written beside.now true list.old a (records_of group.now) list.new)) }
{
    add_record(archive, list, group.first(), beside, true)?;
    add_others(archive, list, group.others(), beside)?;
    Ok(())
}

/// Adds a group to a list, and writes it.
fn write_group<R: Repository<Fault = StoreFault>, K: Sink + Drop>(
    archive: &mut R,
    list: &mut ListText<'_, K>,
    keyed: &(SealKey, Group),
) -> Result<(), Failure>
    ensures reads { OnlyReads R.clean R.stands archive.old archive.new }
    ensures added { OnOk result (IsReadOf R.clean R.stands archive.old archive.new
        (λ a. AddsGroups K.written (IsBeside a list.old.listing) list.old (keyed.now ∷ [])
        list.new)) }
{
    let alloc = list.rt.alloc();
    let format = list.listing.format;
    let before = text_before(alloc, format, &keyed.0, list.count == 0)?;
    let beside = text_beside(alloc, format, &keyed.0)?;
    list.push(before.as_str())?;
    add_records(archive, list, &keyed.1, beside.as_str())?;
    list.put(text_after(format))?;
    Ok(())
}

/// Adds groups to a list, and writes them one after the other.
fn write_groups<R: Repository<Fault = StoreFault>, K: Sink + Drop>(
    archive: &mut R,
    list: &mut ListText<'_, K>,
    groups: &[(SealKey, Group)],
) -> Result<(), Failure>
    ensures reads { OnlyReads R.clean R.stands archive.old archive.new }
    ensures added { OnOk result (IsReadOf R.clean R.stands archive.old archive.new
        (λ a. AddsGroups K.written (IsBeside a list.old.listing) list.old groups.now list.new)) }
{
    for keyed in groups {
        write_group(archive, list, keyed)?;
    }
    Ok(())
}

/// What stands before all groups.
pub(crate) fn text_first(alloc: Global, listing: Listing) -> Result<String, AllocError>
    ensures { IfOk result (λ text. string_bytes text
        ≡ head_beside listing.format listing.headers) }
{
    match listing.format {
        Format::Csv if listing.headers => {
            format!(in alloc; "octets,sha256,{LIST_HEADER_WITH_TEXTS}")
        }
        Format::Csv => format!(in alloc; "octets,sha256,{LIST_HEADER}"),
        Format::Json => String::from_str(alloc, "["),
        Format::Lines | Format::Numbers | Format::Count => Ok(String::new(alloc)),
    }
}

/// Writes the list of what was captured twice to a sink: the groups of the live records whose messages were captured twice, each
/// once, in the order of their first records, each with all of its records. Answers the sink. A failure is that of the store, that
/// of the sink, or no memory.
fn twice_to<R: Repository<Fault = StoreFault>, K: Sink + Drop>(
    rt: &HostRuntime,
    archive: &mut R,
    listing: Listing,
    seals: Seals,
    sink: K,
) -> Result<K, Failure>
    ensures reads { OnlyReads R.clean R.stands archive.old archive.new }
    ensures listed { IfOk result (λ after. IsReadOf R.clean R.stands archive.old archive.new
        (λ a. WritesTwice K.written listing seals sink a after)) }
{
    let groups = groups_of(rt, archive, seals)?;
    let mut list = ListText::new(rt, listing, sink);
    let first = text_first(rt.alloc(), listing)?;
    list.push(first.as_str())?;
    write_groups(archive, &mut list, groups.as_slice())?;
    list.end()?;
    let ListText { sink, .. } = list;
    Ok(sink)
}

/// Writes to a sink the live records whose messages were captured twice: those with the octets of another message, by their length
/// and SHA-256, whatever their headers say. They stand in groups, each with the records of all messages that are the same, in the
/// order of the first ones. Answers the sink. A failure is that of the store, that of the sink, or no memory.
pub fn write_twice<S: Alter, K: Sink + Drop>(
    rt: &HostRuntime,
    archive: &mut Store<S>,
    listing: Listing,
    sink: K,
) -> Result<K, Failure>
    ensures reads { OnOk result (OnlyReadsStore S.Store archive.old archive.new) }
    ensures listed { IfOk result (TwiceOf S.Store K.written listing archive.old archive.new.conn
        sink) }
{
    let seals = Seals::of(rt, archive)?;
    let written = twice_to(rt, archive, listing, seals, sink)?;
    Ok(written)
}
