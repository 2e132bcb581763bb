//! The turns of a capture, as long as patience lasts.

ghost use Rattle.filing_desk.specs.Deliveries.{MakesTurns};
ghost use Rattle.filing_desk.specs.Standing.{desk_keeper};

use crate::desk::Desk;
use crate::patience::Patience;
use desk_commands::{DeskFault, Registry};
use record_archive::Records;

/// Lets a capture make its turns, one at a time: as many as its budget, or up to the end of its run. Between two of them
/// the patience is asked, and once it is over no further turn is made. Answers whether it lasted.
pub(crate) fn make_turns<A: Records, P: Patience>(
    desk: &mut Desk<A>,
    ticket: u64,
    budget: u32,
    patience: &mut P,
) -> Result<bool, DeskFault>
    ensures { MakesTurns (desk_keeper A.keeper) P.asked desk.old ticket budget
        patience.old result patience.new desk.new }
{
    let mut made = budget.min(1);
    let mut turn = desk.turn(ticket, made)?;
    'turns: while made < budget && !turn.ended {
        if patience.is_over() {
            return Ok(false);
        }
        turn = desk.turn(ticket, 1)?;
        made += 1;
    }
    Ok(true)
}
