//! Certificates of destruction, sums and moments.

ghost use Rattle.std.specs.Prelude.{◌≡◌, ◌<◌, ◌++◌, ℕ, List, IfOk, OnOk, string_bytes};
ghost use Rattle.sha2.specs.Sha256.{sha256};
ghost use Rattle.hex.specs.Hex.{encode_lower};
ghost use Rattle.cli_texts.specs.Lines.{destroyed_record, destroyed_message, kept_words, other_words, other_message, replaced_words, altered_words, certificate};
ghost use Rattle.cli_texts.specs.Moments.{two_digits, time_text, day_and_time as day_and_time_of, IsMomentText};

use crate::numbers::put_number;
use crate::records::put_due;
use crate::titles::{ClassTitle, put_title};
use class_plan::{Date, day_of};
use sha2::{Digest, Sha256};
use std::alloc::{AllocError, Global};
use tool_texts::{Shown, put};

/// A record that was destroyed, and the message that it had.
#[derive(Clone, Copy)]
pub struct Certificate<'a> {
    /// The number of its volume, in an archive of volumes.
    pub volume: Option<u32>,
    pub number: u32,
    pub path: &'a [u8],
    /// The title of its class, where it has a title or a legal basis.
    pub title: Option<ClassTitle<'a>>,
    pub due: Option<Date>,
    /// How many octets its message had.
    pub octets: usize,
    /// The SHA-256 of its message, in hexadecimal digits.
    pub sum: &'a str,
    /// When it was destroyed, in seconds since 1970-01-01T00:00:00Z.
    pub moment: u64,
    /// A live record that keeps the same message, if there is one.
    pub kept_by: Option<u32>,
    /// The one that was captured, where its message was another one.
    pub captured: Option<CapturedMessage<'a>>,
}

/// A message as it was captured.
#[derive(Clone, Copy)]
pub struct CapturedMessage<'a> {
    /// How many octets it had.
    pub octets: usize,
    /// Its SHA-256, in hexadecimal digits.
    pub sum: &'a str,
}

/// The SHA-256 of octets, in hexadecimal digits.
pub fn sum_of(alloc: Global, octets: &[u8]) -> Result<String, AllocError>
    ensures { IfOk result (λ s. string_bytes s ≡ encode_lower (sha256 octets.now)) }
{
    let mut hasher = Sha256::new();
    hasher.update(octets);
    sum_text(alloc, hasher.finalize().as_slice())
}

/// The octets of a sum, in hexadecimal digits.
pub fn sum_text(alloc: Global, sum: &[u8]) -> Result<String, AllocError>
    ensures { IfOk result (λ s. string_bytes s ≡ encode_lower sum.now) }
{
    hex::encode(alloc, sum)
}

/// Adds a number below 100 with two digits.
fn push_two(text: &mut String, number: u64) -> Result<(), AllocError>
    requires { number < 100 }
    ensures { OnOk result (string_bytes text.new ≡ string_bytes text.old ++ two_digits number) }
{
    text.push(char::from(b'0' + (number / 10) as u8))?;
    text.push(char::from(b'0' + (number % 10) as u8))
}

/// Adds a time of day, in seconds since midnight.
fn push_time(text: &mut String, seconds: u64) -> Result<(), AllocError>
    requires { seconds < 86400 }
    ensures { OnOk result (string_bytes text.new ≡ string_bytes text.old ++ time_text seconds) }
{
    text.push_str("T")?;
    push_two(text, seconds / 3_600)?;
    text.push_str(":")?;
    push_two(text, seconds / 60 % 60)?;
    text.push_str(":")?;
    push_two(text, seconds % 60)?;
    text.push_str("Z")
}

/// A day, with the time of a moment.
fn day_and_time(alloc: Global, day: Date, moment: u64) -> Result<String, AllocError>
    ensures { IfOk result (λ t. string_bytes t ≡ day_and_time_of day moment) }
{
    let mut text = format!(in alloc; "{day}")?;
    push_time(&mut text, moment % 86_400)?;
    Ok(text)
}

/// A moment in UTC, as `2023-11-14T22:13:20Z`; in seconds where it is after 2199.
///
/// The only refusal is no memory (99).
pub fn moment_text(alloc: Global, moment: u64) -> Result<String, AllocError>
    ensures { IfOk result (λ t. IsMomentText moment (string_bytes t)) }
{
    match day_of(moment) {
        Some(day) => day_and_time(alloc, day, moment),
        None => format!(in alloc; "{moment}"),
    }
}

/// Adds the record that was destroyed.
#[tactic(auto, unfolding(crate::specs::Lines::destroyed_record))]
fn put_record(line: &mut Shown, it: &Certificate<'_>) -> Result<(), AllocError>
    ensures { OnOk result (line.new ≡ line.old ++ destroyed_record it.now) }
{
    line.words("destroyed record ")?;
    put_number(line, it.volume, it.number)?;
    put!(line; " class " named(it.path))?;
    put_title(line, it.title)?;
    put!(line; " due ")?;
    put_due(line, it.due)
}

/// Adds the length and the sum of its message.
#[tactic(auto, unfolding(crate::specs::Lines::destroyed_message))]
fn put_message(line: &mut Shown, it: &Certificate<'_>) -> Result<(), AllocError>
    ensures { OnOk result (line.new ≡ line.old ++ destroyed_message it.now) }
{
    put!(line; " octets " value(&it.octets) " sha256 " value(&it.sum))
}

/// Adds which record of the same volume keeps the message, if one does.
pub(crate) fn put_keeper(
    line: &mut Shown,
    volume: Option<u32>,
    keeper: Option<u32>,
) -> Result<(), AllocError>
    ensures { OnOk result (line.new ≡ line.old ++ kept_words volume keeper) }
{
    match keeper {
        Some(keeper) => {
            line.words(" message kept by record ")?;
            put_number(line, volume, keeper)
        }
        None => Ok(()),
    }
}

/// Adds that the message was not the one that follows.
#[tactic(auto, unfolding(crate::specs::Lines::other_words))]
fn put_other(line: &mut Shown) -> Result<(), AllocError>
    ensures { OnOk result (line.new ≡ line.old ++ other_words) }
{
    line.words("; its message was not the one captured, which had")
}

/// Adds that the message was not the one that was captured, and which one that was.
#[tactic(auto, unfolding(crate::specs::Lines::other_message))]
fn put_captured(line: &mut Shown, captured: &CapturedMessage<'_>) -> Result<(), AllocError>
    ensures { OnOk result (line.new ≡ line.old ++ other_message captured.now) }
{
    put_other(line)?;
    put!(line; " octets " value(&captured.octets) " sha256 " value(&captured.sum))
}

/// Adds the message that was captured, where that of the record was another one.
fn put_replaced(line: &mut Shown, it: &Certificate<'_>) -> Result<(), AllocError>
    ensures { OnOk result (line.new ≡ line.old ++ replaced_words it.now.captured) }
{
    match &it.captured {
        Some(captured) => put_captured(line, captured),
        None => Ok(()),
    }
}

/// Adds that the message was not the one that was captured, where that is so, and that the length and the sum before it are
/// those of the one that was.
pub(crate) fn put_altered(line: &mut Shown, is_altered: bool) -> Result<(), AllocError>
    ensures { OnOk result (line.new ≡ line.old ++ altered_words is_altered) }
{
    if is_altered {
        line.words(
            "; its message was not the one captured: octets and sha256 are of the one captured, and no event tells those of the one destroyed",
        )?;
    }
    Ok(())
}

/// The line of a certificate with the text of its moment.
fn line_with(alloc: Global, it: &Certificate<'_>, moment: &String) -> Result<Shown, AllocError>
    ensures { IfOk result (λ line. line ≡ certificate it.now (string_bytes moment.now)) }
{
    let mut line = Shown::new(alloc);
    put_record(&mut line, it)?;
    put_message(&mut line, it)?;
    put!(line; " at " value(moment))?;
    put_keeper(&mut line, it.volume, it.kept_by)?;
    put_replaced(&mut line, it)?;
    line.end_line()?;
    Ok(line)
}

/// The line of a record that was destroyed: `destroyed record 7 class finance due 2030-11-14 octets 83 sha256 SUM at
/// 2030-12-01T09:00:00Z`, in a volume `destroyed record 3/7 ..`. The title and the legal basis of its class come after the path, as
/// `title_line` has them.
///
/// The only refusal is no memory (99).
pub fn certificate_line(alloc: Global, it: &Certificate<'_>) -> Result<Shown, AllocError>
    ensures { IfOk result (λ line. (moment : List ℕ) × IsMomentText it.now.moment moment
        × (line ≡ certificate it.now moment)) }
{
    let moment = moment_text(alloc, it.moment)?;
    line_with(alloc, it, &moment)
}
