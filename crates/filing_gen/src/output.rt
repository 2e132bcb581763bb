//! The output of the compiler.

ghost use Rattle.std.specs.Prelude.{◌≡◌, ◌<◌, ◌^◌, [], length, IfOk, OnOk};
ghost use Rattle.filing_flow.specs.Structure.{Fail, Push, action};
ghost use Rattle.filing_gen.specs.Adds.{Puts, Brings, EmitsAnywhere};
ghost use Rattle.filing_gen.specs.Ends.{with_operation};
ghost use Rattle.filing_gen.specs.Pools.{IsAmong};

use crate::number_pool::NumberPool;
use crate::text_pool::TextPool;
use filing_image::Operation;
use sieve_meaning::RunFault;
use std::alloc::{AllocError, Global};

/// The operations written so far, and the texts and numbers that they name.
#[derive(Drop)]
pub struct Output {
    pub texts: TextPool,
    pub numbers: NumberPool,
    pub code: Vec<Operation>,
}

impl Output {
    /// The empty output, with room for this number of operations. The only error is a refused allocation.
    pub fn with_room(alloc: Global, operations: u32) -> Result<Output, AllocError>
        ensures texts { IfOk result (λ o. o.texts ≡ []) }
        ensures numbers { IfOk result (λ o. o.numbers ≡ []) }
        ensures code { IfOk result (λ o. o.code.items ≡ []) }
    {
        Ok(Output {
            texts: TextPool::new(alloc),
            numbers: NumberPool::new(alloc),
            code: Vec::with_capacity(alloc, operations as usize)?,
        })
    }
}

/// The operand that names a text: its place among the texts. The text is added where it is new. The only error is a
/// refused allocation.
pub fn text_operand(out: &mut Output, text: &[u8]) -> Result<u16, AllocError>
    requires room { length out.old.texts < 2 ^ 16 }
    requires short { length text.now < 2 ^ 16 }
    ensures there { IfOk result (λ b. IsAmong (text.now, b) out.new.texts) }
    ensures brings { OnOk result (Brings out.old out.new) }
{
    out.texts.place(text)
}

/// The operand that names a number: its place among the numbers. The number is added where it is new. The only error is
/// a refused allocation.
pub fn number_operand(out: &mut Output, number: u64) -> Result<u16, AllocError>
    requires { length out.old.numbers < 2 ^ 16 }
    ensures there { IfOk result (λ b. IsAmong (number, b) out.new.numbers) }
    ensures brings { OnOk result (Brings out.old out.new) }
{
    out.numbers.place(number)
}

/// Appends an operation. The only error is a refused allocation.
pub fn put(out: &mut Output, operation: Operation) -> Result<(), AllocError>
    ensures { OnOk result (Puts out.old out.new operation) }
{
    out.code.push(operation)?;
    Ok(())
}

/// Appends the operation that ends the run with a fault. The only error is a refused allocation.
pub fn put_fault(out: &mut Output, fault: RunFault) -> Result<(), AllocError>
    ensures adds { OnOk result (EmitsAnywhere out.old out.new (action (Fail fault))) }
{
    put(out, Operation::Fault(fault.number()))
}

/// Replaces the operation at a place of the code.
pub fn put_at(out: &mut Output, place: usize, operation: Operation)
    requires { place < length out.old.code.items }
    ensures { out.new ≡ with_operation out.old place operation }
{
    out.code[place] = operation;
}

/// Appends the operation that pushes a truth value. The only error is a refused allocation.
pub fn put_truth(out: &mut Output, truth: bool) -> Result<(), AllocError>
    ensures adds { OnOk result (EmitsAnywhere out.old out.new (action (Push truth))) }
{
    if truth {
        return put(out, Operation::PushTrue);
    }
    put(out, Operation::PushFalse)
}
