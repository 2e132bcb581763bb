//! One instruction of a run. What it asks of its case is answered in `whole` of `mail_case`.

ghost use Rattle.std.specs.Prelude.{◌≡◌, ◌≢◌, ◌<◌, ◌≤◌, ◌+◌, ◌^◌, [], ◌∷◌, length, map, if◌then◌else◌, slice_set, true, IfOk, IsOk, OnErr, OnOk, Ok};
ghost use Rattle.std.specs.List.{AllByRecursion};
ghost use Rattle.filing_verify.specs.Well.{InRange};
ghost use Rattle.sieve_meaning.specs.Case.{Facts};
ghost use Rattle.sieve_meaning.specs.RunFaults.{fault_of};
ghost use Rattle.filing_table.specs.Machine.{act, file, go_back, Trap};
ghost use Rattle.filing_machine.specs.StateViews.{state, entry, run_at, InCase, IsModest, after_join};
ghost use Rattle.filing_machine.specs.Items.{HasTwo, IsBare};
ghost use Rattle.filing_machine.specs.declared.state.Progress.TheVariants.{Going, Ended};

use crate::fields::{any_matches, fields_named, has_field};
use crate::state::{Item, Progress, RunState};
use filing_image::{Image, Operation};
use mail_case::Case;
use sieve_meaning::RunFault;
use std::alloc::{AllocError, Global};

/// Executes one instruction. Answers whether the run goes on, or how the instruction ends it. The only error is a
/// refused allocation, and the state is then unchanged.
pub fn act<C: Case>(
    alloc: Global,
    operation: Operation,
    image: &Image,
    case: &C,
    at: &mut RunState,
) -> Result<Progress, AllocError>
    requires place { at.old.place + 1 < 2 ^ 16 }
    requires sound { act image.now (C.facts case.now) operation (state (C.facts case.now) at.old)
        ≢ Trap }
    requires in_case { AllByRecursion (InCase (C.facts case.now)) at.old.stack }
    requires in_range { InRange image.now operation }
    requires slots { image.now.slots ≤ 64 }
    requires deep { length at.old.stack ≤ 32 }
    requires room { length at.old.calls < 256 }
    ensures does { IfOk result (λ progress. act image.now (C.facts case.now) operation
        (state (C.facts case.now) at.old) ≡ run_at progress (state (C.facts case.now) at.new)) }
    ensures in_case { AllByRecursion (InCase (C.facts case.now)) at.new.stack }
    ensures err { OnErr result (at.new ≡ at.old) }
    ensures modest { IsModest operation → IsOk result }
{
    match operation {
        Operation::PushTrue => push_on(Item::Truth(true), at),
        Operation::PushFalse => push_on(Item::Truth(false), at),
        Operation::Not => push_on(Item::Truth(!at.stack.pop_truth()), at),
        Operation::Values(b) => {
            let fields = fields_named(alloc, case, image.text(b as usize))?;
            push_on(Item::Fields(fields), at)
        }
        Operation::Join => join(case, at),
        Operation::Match(a, b) => {
            let fields = at.stack.pop_fields();
            let found = any_matches(case, &fields, a, image.text(b as usize));
            at.stack.push(Item::Fields(fields));
            push_on(Item::Truth(found), at)
        }
        Operation::Pop => {
            let Some(_) = at.stack.pop() else {
                unreachable!()
            };
            go_on(at)
        }
        Operation::Exists(b) => push_on(Item::Truth(has_field(case, image.text(b as usize))), at),
        Operation::Size => push_on(Item::Count(case.size()), at),
        Operation::Number(b) => push_on(Item::Count(image.numbers()[b as usize]), at),
        Operation::Less => {
            let second = at.stack.pop_count();
            push_on(Item::Truth(at.stack.pop_count() < second), at)
        }
        Operation::Jump(b) => jump_if(true, b, at),
        Operation::JumpIf(b) => jump_if(at.stack.pop_truth(), b, at),
        Operation::JumpUnless(b) => jump_if(!at.stack.pop_truth(), b, at),
        Operation::Marked(b) => push_on(Item::Truth(at.marks[b as usize]), at),
        Operation::Mark(b) => mark(b, at),
        Operation::File(a, b) => file(alloc, case, a, image.text(b as usize), at),
        Operation::Keep => keep(at),
        Operation::Discard => discard(at),
        Operation::Stop => Ok(Progress::Ended(None)),
        Operation::Fault(a) => Ok(fail(a)),
        Operation::Call(b) => enter(image.first_places()[b as usize], at),
        Operation::Return => go_back(at),
    }
}

/// Ends the run with the fault that has this number, which must be one of 2 to 5.
fn fail(number: u8) -> Progress
    requires least { 2 ≤ number }
    requires greatest { number ≤ 5 }
    ensures { result ≡ Ended (fault_of number) }
{
    let Some(fault) = RunFault::of_number(number) else {
        unreachable!()
    };
    Progress::Ended(Some(fault))
}

/// Goes on to the next place.
fn go_on(at: &mut RunState) -> Result<Progress, AllocError>
    requires { at.old.place < 2 ^ 62 }
    ensures to { result ≡ Ok Going }
    ensures at { at.new ≡ record at.old { place = at.old.place + 1 } }
{
    at.place += 1;
    Ok(Progress::Going)
}

/// Jumps to a place where this holds, and else goes on to the next one.
fn jump_if(holds: bool, place: u16, at: &mut RunState) -> Result<Progress, AllocError>
    requires { at.old.place < 2 ^ 62 }
    ensures to { result ≡ Ok Going }
    ensures at { at.new ≡ record at.old { place = (if holds then place else at.old.place + 1) } }
{
    if !holds {
        return go_on(at);
    }
    at.place = place as usize;
    Ok(Progress::Going)
}

/// Pushes an item and goes on to the next place.
fn push_on(item: Item, at: &mut RunState) -> Result<Progress, AllocError>
    requires place { at.old.place < 2 ^ 62 }
    requires room { length at.old.stack < 32 }
    ensures to { result ≡ Ok Going }
    ensures at { at.new ≡ record at.old { place = at.old.place + 1; stack = item ∷ at.old.stack } }
{
    at.stack.push(item);
    go_on(at)
}

/// Enters the procedure with this first place, to return to the next place.
fn enter(first: u16, at: &mut RunState) -> Result<Progress, AllocError>
    requires place { at.old.place + 1 < 2 ^ 16 }
    requires bare { IsBare at.old.stack }
    requires room { length at.old.calls < 256 }
    ensures to { result ≡ Ok Going }
    ensures bare { at.old.stack ≡ [] }
    ensures at { at.new
        ≡ record at.old { place = first; calls = (at.old.place + 1) ∷ at.old.calls } }
{
    at.calls.push(at.place as u16 + 1);
    at.place = first as usize;
    Ok(Progress::Going)
}

/// Returns from the last call; ends the run where there is none.
fn go_back(at: &mut RunState) -> Result<Progress, AllocError>
    requires bare { IsBare at.old.stack }
    ensures ok { IsOk result }
    ensures bare { at.old.stack ≡ [] }
    ensures stack { at.new.stack ≡ at.old.stack }
    ensures does { (c : Facts) → IfOk result
        (λ progress. go_back (state c at.old) at.old.calls ≡ run_at progress (state c at.new)) }
{
    match at.calls.pop() {
        Some(place) => {
            at.place = place as usize;
            Ok(Progress::Going)
        }
        None => Ok(Progress::Ended(None)),
    }
}

/// Sets a slot.
fn mark(slot: u16, at: &mut RunState) -> Result<Progress, AllocError>
    requires place { at.old.place < 2 ^ 62 }
    requires slot { slot < 64 }
    ensures to { result ≡ Ok Going }
    ensures at { at.new
        ≡ record at.old { place = at.old.place + 1; marks = slice_set at.old.marks slot true } }
{
    at.marks[slot as usize] = true;
    go_on(at)
}

/// Sets the kept flag.
fn keep(at: &mut RunState) -> Result<Progress, AllocError>
    requires { at.old.place < 2 ^ 62 }
    ensures to { result ≡ Ok Going }
    ensures at { at.new ≡ record at.old { place = at.old.place + 1; kept = true } }
{
    at.kept = true;
    go_on(at)
}

/// Cancels the implicit keep.
fn discard(at: &mut RunState) -> Result<Progress, AllocError>
    requires { at.old.place < 2 ^ 62 }
    ensures to { result ≡ Ok Going }
    ensures at { at.new ≡ record at.old { place = at.old.place + 1; cancelled = true } }
{
    at.cancelled = true;
    go_on(at)
}

/// Files the message under a path where it is open, and else ends the run with a fault. `how` is 0 to cancel the
/// implicit keep.
fn file<C: Case>(
    alloc: Global,
    case: &C,
    how: u8,
    path: &[u8],
    at: &mut RunState,
) -> Result<Progress, AllocError>
    requires { at.old.place < 2 ^ 62 }
    ensures does { IfOk result
        (λ progress. file (C.facts case.now) (state (C.facts case.now) at.old) how path.now
        ≡ run_at progress (state (C.facts case.now) at.new)) }
    ensures stack { at.new.stack ≡ at.old.stack }
    ensures err { OnErr result (at.new ≡ at.old) }
{
    if !case.is_open(path) {
        return Ok(Progress::Ended(Some(RunFault::ClassNotOpen)));
    }
    at.filed.insert(alloc, path)?;
    if how == 0 {
        at.cancelled = true;
    }
    go_on(at)
}

/// Replaces the two lists on the top by one, in which the list pushed first comes first.
fn join<C: Case>(case: &C, at: &mut RunState) -> Result<Progress, AllocError>
    requires place { at.old.place < 2 ^ 62 }
    requires two { HasTwo at.old.stack }
    requires in_case { AllByRecursion (InCase (C.facts case.now)) at.old.stack }
    requires deep { length at.old.stack ≤ 32 }
    ensures to { IfOk result (λ progress. progress ≡ Going) }
    ensures does { OnOk result (after_join (state (C.facts case.now) at.old)
        (map (entry (C.facts case.now)) at.old.stack) ≡ state (C.facts case.now) at.new) }
    ensures in_case { AllByRecursion (InCase (C.facts case.now)) at.new.stack }
    ensures err { OnErr result (at.new ≡ at.old) }
{
    let second = at.stack.pop_fields();
    let mut first = at.stack.pop_fields();
    if let Err(e) = first.append(&second) {
        at.stack.push(Item::Fields(first));
        at.stack.push(Item::Fields(second));
        return Err(e);
    }
    push_on(Item::Fields(first), at)
}
