//! Certificates of destruction: what each says, and where they are printed.

ghost use Rattle.std.specs.Prelude.{◌≡◌, List, ℕ, is_none, option_map, IfOk};
ghost use Rattle.cli_history.specs.Seals.{known, length_and_sum as told_of};
ghost use Rattle.cli_history.specs.Titles.{title_seen, title_for};
ghost use Rattle.cli_history.specs.declared.seals.Seals.{Seals};
ghost use Rattle.cli_changes.specs.Certificates.{Certifies, IsCaptured, IsCapturedBeside, IsCertificateLine, IsLineOf, IsTaken};

use crate::disposal_tally::DisposalTally;
use cli_console::{Failure, Status, now, tell, write_text};
use cli_history::{Fidelity, Seals};
use cli_texts::{CapturedMessage, Certificate, ClassTitle, certificate_line, sum_text};
use record_choice::{Destroyed, Registrar};
use std::str;
use tool_texts::Shown;

/// Where certificates are printed.
pub trait Printer: Drop {
    /// This line was printed, and no other.
    ghost prints: { Self → Self → List ℕ → Type 0 };

    /// Prints a line. Where that fails, no more is to be printed, and the line is told.
    fn print(&mut self, line: &Shown) -> Result<(), Failure>
        ensures { prints self.old self.new line.now };
}

/// Prints on standard output.
#[derive(Drop)]
pub struct StandardOutput<'r> {
    rt: &'r HostRuntime,
}

impl Printer for StandardOutput<'_> {
    ghost prints = { λ old new line. Unit {0} };

    /// Writes a certificate. Where that fails, it goes to standard error instead, and no more is destroyed.
    fn print(&mut self, line: &Shown) -> Result<(), Failure> {
        match write_text(self.rt, line) {
            Ok(()) => Ok(()),
            Err(_) => {
                tell(self.rt, line);
                Err(Failure::told(
                    self.rt.alloc(),
                    Status::NotWritten,
                    "the certificate above could not be written to standard output; no further record is destroyed",
                ))
            }
        }
    }
}

/// The certificates of a disposal, each printed as its record is destroyed.
#[derive(Drop)]
pub struct Certificates<'r, P: Printer> {
    rt: &'r HostRuntime,
    /// The number of the volume of the records, in an archive of volumes.
    pub(crate) volume: Option<u32>,
    /// The seals of the messages and the titles of the classes, as the history has them.
    pub(crate) seals: &'r Seals,
    printer: P,
    /// Whether a message is gone with a record.
    is_any_gone: bool,
}

/// A certificate that is made out.
#[derive(Drop)]
pub struct Draft {
    text: Shown,
    /// Whether the message goes with the record.
    is_gone: bool,
}

/// The message that was captured, where that of a record is another one.
fn captured_beside<'s>(
    seals: &'s Seals,
    message: u32,
    fidelity: Fidelity,
) -> Option<CapturedMessage<'s>>
    ensures { IsCaptured fidelity (option_map told_of (known seals.now message)) result }
{
    match (fidelity, seals.length_and_sum(message)) {
        (Fidelity::Altered(_), Some((octets, sum))) => Some(CapturedMessage {
            octets: octets as usize,
            sum: str::from_utf8(sum).unwrap_or(""),
        }),
        _ => None,
    }
}

/// The title of the class of a record that is about to be destroyed, if it has one.
fn title_beside<'s>(seals: &'s Seals, destroyed: &Destroyed) -> Option<ClassTitle<'s>>
    ensures { option_map title_seen result ≡ title_for seals.now.titles destroyed.now.entry }
{
    seals.titles().of_class(destroyed.entry.path.as_slice())
}

/// What is certified of a record that is about to be destroyed, with the number of its volume, if it has one, the title of its class,
/// the message that was captured, where its own is another one, and the digits of its message's sum, at a moment.
fn facts_of<'d>(
    volume: Option<u32>,
    destroyed: &'d Destroyed,
    title: Option<ClassTitle<'d>>,
    captured: Option<CapturedMessage<'d>>,
    sum: &'d str,
    moment: u64,
) -> Certificate<'d>
    ensures { (seals : Seals) → option_map title_seen title.entry ≡
        title_for seals.titles destroyed.now.entry
        → IsCapturedBeside seals destroyed.now.entry.message destroyed.now.octets sum.now
        captured.entry
        → Certifies volume destroyed.now seals sum.now moment result }
{
    let entry = &destroyed.entry;
    Certificate {
        volume,
        number: entry.number,
        path: entry.path.as_slice(),
        title,
        due: entry.due,
        octets: destroyed.octets,
        sum,
        moment,
        kept_by: destroyed.kept_by,
        captured,
    }
}

/// The certificate of a record that is about to be destroyed. Where the message is not the one that was captured, it says so,
/// and which one that was.
fn certificate_of(
    rt: &HostRuntime,
    volume: Option<u32>,
    seals: &Seals,
    destroyed: &Destroyed,
) -> Result<Shown, Failure>
    ensures { IfOk result (λ line. IsCertificateLine volume destroyed.now seals.now line) }
{
    let message = destroyed.entry.message;
    let sum = sum_text(rt.alloc(), destroyed.sum.as_slice())?;
    let fidelity = seals.fidelity(message, destroyed.octets as u64, sum.as_bytes());
    let title = title_beside(seals, destroyed);
    let captured = captured_beside(seals, message, fidelity);
    let facts = facts_of(volume, destroyed, title, captured, sum.as_str(), now(rt)?);
    Ok(certificate_line(rt.alloc(), &facts)?)
}

impl<'r> Certificates<'r, StandardOutput<'r>> {
    /// Certificates on standard output, by the seals and the titles of a history, for records of a volume in an archive of volumes.
    pub fn on_output(
        rt: &'r HostRuntime,
        volume: Option<u32>,
        seals: &'r Seals,
    ) -> Certificates<'r, StandardOutput<'r>>
        ensures seals { result.seals.now ≡ seals.now }
        ensures volume { result.volume ≡ volume }
    {
        Certificates {
            rt,
            volume,
            seals,
            printer: StandardOutput { rt },
            is_any_gone: false,
        }
    }
}

impl<P: Printer> Certificates<'_, P> {
    /// What a disposal has come to with them, by whether there was a record.
    pub fn tally(&self, is_any: bool) -> DisposalTally
        ensures { result ≡ record { is_any = is_any; is_any_gone = self.now.is_any_gone } }
    {
        DisposalTally {
            is_any,
            is_any_gone: self.is_any_gone,
        }
    }
}

impl<P: Printer> Registrar for Certificates<'_, P> {
    type Fault = Failure;

    type Draft = Draft;

    ghost says = { λ certificates draft certificate.
        IsLineOf certificates.volume certificates.seals.now certificate draft.text
        × (draft.is_gone ≡ is_none certificate.kept_by) };

    ghost takes = { λ old new certificate. IsTaken P.prints old new certificate };

    ghost is_open = { λ certificates. Unit {0} };

    fn draft(&self, destroyed: &Destroyed) -> Result<Draft, Failure> {
        Ok(Draft {
            text: certificate_of(self.rt, self.volume, self.seals, destroyed)?,
            is_gone: destroyed.kept_by.is_none(),
        })
    }

    fn take(&mut self, draft: Draft) -> Result<(), Failure> {
        self.is_any_gone = self.is_any_gone || draft.is_gone;
        self.printer.print(&draft.text)
    }
}
