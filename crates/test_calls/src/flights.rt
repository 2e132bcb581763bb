//! The call that shows a capture in flight, at a desk over an archive that keeps no record.

use crate::told::word;
use anyhow::{Result, bail};
use class_paths::Paths;
use class_plan::{Date, Plan};
use desk_commands::{Payload, Registry};
use filing_desk::Desk;
use record_archive::{ArchiveFault, ArchiveRefusal, Line, Records};
use std::alloc::Global;

/// An archive that has a plan, keeps no record and refuses each command. It claims nothing of an archive.
#[derive(Drop)]
struct PlanAlone {
    plan: Plan,
}

/// The refusal of each command.
const REFUSED: ArchiveFault<()> = ArchiveFault::Refused(ArchiveRefusal::NoArchive);

impl Records for PlanAlone {
    type Cause = ();

    ghost keeper = { record {
      clean = λ _. ⊥;
      stands = λ _ _. ⊥;
      remains = ⊥;
      may_leave = λ _ _. ⊥;
      keeps = λ _ _. ⊥;
    } };

    ghost plan_of = { λ s. s.plan };

    fn plan(&self) -> &Plan {
        &self.plan
    }

    fn add_class(&mut self, _path: &[u8]) -> Result<(), ArchiveFault<()>> {
        Err(REFUSED)
    }

    fn revise(&mut self, _plan: Plan) -> Result<(), ArchiveFault<()>> {
        Err(REFUSED)
    }

    fn capture(
        &mut self,
        _body: &[u8],
        _day: Date,
        _paths: &Paths,
    ) -> Result<Vec<Line>, ArchiveFault<()>> {
        Err(REFUSED)
    }

    fn hold(&mut self, _name: &[u8], _number: u32) -> Result<(), ArchiveFault<()>> {
        Err(REFUSED)
    }

    fn release(&mut self, _name: &[u8], _number: u32) -> Result<(), ArchiveFault<()>> {
        Err(REFUSED)
    }

    fn due(&mut self, _day: Date) -> Result<Vec<Line>, ArchiveFault<()>> {
        Err(REFUSED)
    }

    fn destroy(&mut self, _number: u32, _day: Date) -> Result<(), ArchiveFault<()>> {
        Err(REFUSED)
    }

    ghost plan_is = { λ s a stands. absurd stands };

    ghost is_archive = { λ s a stands. absurd stands };
}

/// The steps that the capture of a ticket has made, its budget, and whether its run has ended.
fn shown(alloc: Global, desk: &Desk<PlanAlone>, ticket: u64) -> Result<Vec<u8>> {
    let Some((program, machine)) = desk.in_flight(ticket) else {
        return word(alloc, "none");
    };
    let (steps, budget) = (machine.steps_done(), program.budget());
    let end = if machine.is_ended() {
        "ended"
    } else {
        "running"
    };
    Ok(format!(in alloc; "{steps} of {budget}, {end}")?.into_bytes())
}

/// What a desk shows of the first capture by an image after its first turn, and of the next ticket.
pub fn in_flight(alloc: Global, image: &[u8], message: &[u8]) -> Result<Vec<u8>> {
    let plan = Plan::new(alloc)?;
    let Ok(mut desk) = Desk::new(alloc, PlanAlone { plan }) else {
        bail!("there is no memory for a desk");
    };
    let image = Payload::Whole(Vec::from_slice(alloc, image)?);
    if desk.set_image(b"ann", &image).is_err() {
        bail!("the image is refused");
    }
    let message = Payload::Whole(Vec::from_slice(alloc, message)?);
    if desk.begin(b"ann", 0, message).is_err() || desk.turn(1, 1).is_err() {
        bail!("the capture is refused");
    }
    let mut out = shown(alloc, &desk, 1)?;
    out.extend_from_slice(b"; ")?;
    out.extend_from_slice(shown(alloc, &desk, 2)?.as_slice())?;
    Ok(out)
}
