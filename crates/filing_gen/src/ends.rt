//! The ends of blocks and branches, which are known only once their contents are written.

ghost use Rattle.std.specs.Prelude.{◌≡◌, ◌≤◌, ◌<◌, ◌^◌, [], length, map};
ghost use Rattle.std.specs.List.{All};
ghost use Rattle.filing_gen.specs.Ends.{place_or as place_or_of, with_end as with_end_of, with_jumps, IsEnded};

use crate::output::{Output, put_at};
use filing_image::Operation;

/// The place of a jump as long as the end of its block is not known.
pub const NO_PLACE: u16 = u16::MAX;

/// The place, or the end where the place is `NO_PLACE`.
fn place_or(place: u16, end: u16) -> u16
    ensures { result ≡ place_or_of end place }
{
    if place == NO_PLACE { end } else { place }
}

/// The operation; a jump to `NO_PLACE` goes to the end instead.
fn with_end(operation: Operation, end: u16) -> Operation
    ensures { result ≡ with_end_of end operation }
{
    match operation {
        Operation::Jump(place) => Operation::Jump(place_or(place, end)),
        Operation::JumpIf(place) => Operation::JumpIf(place_or(place, end)),
        Operation::JumpUnless(place) => Operation::JumpUnless(place_or(place, end)),
        other => other,
    }
}

/// Makes each jump to `NO_PLACE` go to the end.
fn end_jumps(code: &mut [Operation], end: u16)
    ensures { code.new ≡ map (with_end_of end) code.old }
{
    for operation in code.iter_mut() {
        *operation = with_end(*operation, end);
    }
}

/// Makes each jump to `NO_PLACE`, in the code from the place `start` on, go to this end.
pub fn end_block_at(out: &mut Output, start: usize, end: u16)
    requires { start ≤ length out.old.code.items }
    ensures { IsEnded start end out.old out.new }
{
    let (_, block) = out.code.as_mut_slice().split_at_mut(start);
    end_jumps(block, end);
}

/// Ends the block whose code begins at `start`: its jumps to `NO_PLACE` go to the place after all that is written.
pub fn end_block(out: &mut Output, start: usize)
    requires start { start ≤ length out.old.code.items }
    requires room { length out.old.code.items < 2 ^ 16 }
    ensures { IsEnded start (length out.old.code.items) out.old out.new }
{
    let end = out.code.len() as u16;
    end_block_at(out, start, end);
}

/// Ends branches: the jumps at the places `jumps` go to the place after all that is written, and `jumps` is emptied.
pub fn end_branches(out: &mut Output, jumps: &mut Vec<usize>)
    requires room { length out.old.code.items < 2 ^ 16 }
    requires places { All (λ p. p < length out.old.code.items) jumps.old.items }
    ensures out { out.new ≡ with_jumps (length out.old.code.items) jumps.old.items out.old }
    ensures jumps { jumps.new.items ≡ [] }
{
    let end = out.code.len() as u16;
    while let Some(place) = jumps.pop() {
        put_at(out, place, Operation::Jump(end));
    }
}
