//! Instructions, and the operations that they encode.

ghost use Rattle.std.specs.Prelude.{◌≡◌, ◌≢◌, IfSome, IfNone};
ghost use Rattle.filing_image.specs.Program.{instruction_of};
ghost use Rattle.filing_image.specs.Spelling.{FitsInstruction};

/// An instruction, which takes four octets: the operation's number `op`, 1 to 23, in one octet, the operand `a` in one,
/// and the operand `b` in two. An operand that the operation does not have is 0.
#[derive(Clone, Copy)]
pub struct Instruction {
    pub op: u8,
    pub a: u8,
    pub b: u16,
}

/// What an instruction does, with its operands. On the stack, T is a truth value, L a list of texts and N a number; the
/// topmost entry comes last. Each executed operation is one step. An image that is shown has the names of operations in
/// capitals; six of them have other names there.
#[derive(Clone, Copy)]
pub enum Operation {
    /// 1, shown as TRUE: pushes T, true.
    PushTrue,
    /// 2, shown as FALSE: pushes T, false.
    PushFalse,
    /// 3: replaces T by its negation.
    Not,
    /// 4: pushes L: the values of the header fields that the text names, in order.
    Values(u16),
    /// 5: replaces L L by one L, in which the list pushed first comes first.
    Join,
    /// 6: keeps L and pushes T: whether some value of L matches the text as key. Under `i;octet` the first operand is 0
    /// for `:is`, 2 for `:contains` and 4 for `:matches`; under `i;ascii-casemap` it is one more (RFC 5228, sections
    /// 2.7.1 and 2.7.3).
    Match(u8, u16),
    /// 7, shown as DROP: pops one entry of any kind.
    Pop,
    /// 8: pushes T: whether the header has a field that the text names.
    Exists(u16),
    /// 9: pushes N: the size of the message in octets.
    Size,
    /// 10, shown as NUM: pushes N: a number of the program.
    Number(u16),
    /// 11: replaces N N by T: whether the number pushed first is less.
    Less,
    /// 12: jumps to a place.
    Jump(u16),
    /// 13, shown as JUMPT: pops T and jumps to a place if it is true.
    JumpIf(u16),
    /// 14, shown as JUMPF: pops T and jumps to a place if it is false.
    JumpUnless(u16),
    /// 15: pushes T: whether a slot is set.
    Marked(u16),
    /// 16: sets a slot.
    Mark(u16),
    /// 17: files into the class whose path is the text, where that class is open; otherwise ends the run with fault 1.
    /// The first operand is 0 to cancel the implicit keep, or 1 for a copy, which leaves it as it is.
    File(u8, u16),
    /// 18: keeps the message.
    Keep,
    /// 19: cancels the implicit keep.
    Discard,
    /// 20: ends the run.
    Stop,
    /// 21: ends the run with a fault, 2 to 5.
    Fault(u8),
    /// 22, in version 2 alone: enters a procedure, on an empty stack.
    Call(u16),
    /// 23, in version 2 alone: goes on after the last call that was not returned from yet, on an empty stack, and ends
    /// the run where there is none.
    Return,
}

impl Operation {
    /// The operation that an instruction encodes; none where its number is not 1 to 23, or an operand that the
    /// operation does not have is not 0.
    pub fn of(instruction: Instruction) -> Option<Operation>
        ensures found { IfSome result (λ o. instruction_of o ≡ instruction) }
        ensures fits { IfSome result (λ o. FitsInstruction (instruction_of o)) }
        ensures none { IfNone result ((o : _) → instruction_of o ≢ instruction) }
    {
        let Instruction { op, a, b } = instruction;
        let found = match (op, a, b) {
            (1, 0, 0) => Operation::PushTrue,
            (2, 0, 0) => Operation::PushFalse,
            (3, 0, 0) => Operation::Not,
            (4, 0, b) => Operation::Values(b),
            (5, 0, 0) => Operation::Join,
            (6, a, b) => Operation::Match(a, b),
            (7, 0, 0) => Operation::Pop,
            (8, 0, b) => Operation::Exists(b),
            (9, 0, 0) => Operation::Size,
            (10, 0, b) => Operation::Number(b),
            (11, 0, 0) => Operation::Less,
            (12, 0, b) => Operation::Jump(b),
            (13, 0, b) => Operation::JumpIf(b),
            (14, 0, b) => Operation::JumpUnless(b),
            (15, 0, b) => Operation::Marked(b),
            (16, 0, b) => Operation::Mark(b),
            (17, a, b) => Operation::File(a, b),
            (18, 0, 0) => Operation::Keep,
            (19, 0, 0) => Operation::Discard,
            (20, 0, 0) => Operation::Stop,
            (21, a, 0) => Operation::Fault(a),
            (22, 0, b) => Operation::Call(b),
            (23, 0, 0) => Operation::Return,
            _ => return None,
        };
        Some(found)
    }

    /// The one instruction that encodes the operation.
    pub fn instruction(self) -> Instruction
        ensures { result ≡ instruction_of self }
    {
        let (op, a, b) = match self {
            Operation::PushTrue => (1, 0, 0),
            Operation::PushFalse => (2, 0, 0),
            Operation::Not => (3, 0, 0),
            Operation::Values(b) => (4, 0, b),
            Operation::Join => (5, 0, 0),
            Operation::Match(a, b) => (6, a, b),
            Operation::Pop => (7, 0, 0),
            Operation::Exists(b) => (8, 0, b),
            Operation::Size => (9, 0, 0),
            Operation::Number(b) => (10, 0, b),
            Operation::Less => (11, 0, 0),
            Operation::Jump(b) => (12, 0, b),
            Operation::JumpIf(b) => (13, 0, b),
            Operation::JumpUnless(b) => (14, 0, b),
            Operation::Marked(b) => (15, 0, b),
            Operation::Mark(b) => (16, 0, b),
            Operation::File(a, b) => (17, a, b),
            Operation::Keep => (18, 0, 0),
            Operation::Discard => (19, 0, 0),
            Operation::Stop => (20, 0, 0),
            Operation::Fault(a) => (21, a, 0),
            Operation::Call(b) => (22, 0, b),
            Operation::Return => (23, 0, 0),
        };
        Instruction { op, a, b }
    }

    /// Proves that an operation fits its octets; it has no effect.
    pub(crate) fn fits(self)
        ensures { FitsInstruction (instruction_of self) }
    {
        let _instruction = self.instruction();
    }
}
