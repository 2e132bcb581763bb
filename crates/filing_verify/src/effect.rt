//! What an operation does to the kinds of the stack.

ghost use Rattle.std.specs.Prelude.{◌≡◌, ◌≢◌, ◌≤◌, List, ◌∷◌, length, true, false, Some, None};
ghost use Rattle.filing_verify.specs.declared.kind.Kind.{Kind as KindType};
ghost use Rattle.filing_verify.specs.Shapes.{after};

use crate::kind::Kind;
use crate::shape::Shape;
use filing_image::Operation;

/// Pops the topmost entry, and answers whether it is of this kind.
fn takes(kind: Kind, shape: &mut Shape) -> bool
    ensures taken { result ≡ true → shape.old ≡ kind ∷ shape.new }
    ensures other { result ≡ false → (top : KindType) (rest : List KindType)
        → shape.old ≡ top ∷ rest → top ≢ kind }
{
    match shape.pop() {
        Some(top) => top == kind,
        None => false,
    }
}

/// Pushes an entry, and answers true.
fn puts(kind: Kind, shape: &mut Shape) -> bool
    requires { length shape.old ≤ 32 }
    ensures done { result ≡ true }
    ensures put { shape.new ≡ kind ∷ shape.old }
{
    shape.push(kind);
    true
}

/// Applies the effect of an operation to the shape of a stack, which must have at most 32 entries. False where an
/// operand is missing or of another kind.
pub fn apply(operation: Operation, shape: &mut Shape) -> bool
    requires { length shape.old ≤ 32 }
    ensures finds { result ≡ true → after operation shape.old ≡ Some shape.new }
    ensures lacks { result ≡ false → after operation shape.old ≡ None }
{
    match operation {
        Operation::PushTrue | Operation::PushFalse | Operation::Exists(_) | Operation::Marked(_) =>
            puts(Kind::Truth, shape),
        Operation::Not => takes(Kind::Truth, shape) && puts(Kind::Truth, shape),
        Operation::Values(_) => puts(Kind::Texts, shape),
        Operation::Join => takes(Kind::Texts, shape)
            && takes(Kind::Texts, shape)
            && puts(Kind::Texts, shape),
        Operation::Match(_, _) => takes(Kind::Texts, shape)
            && puts(Kind::Texts, shape)
            && puts(Kind::Truth, shape),
        Operation::Pop => shape.pop().is_some(),
        Operation::Size | Operation::Number(_) => puts(Kind::Count, shape),
        Operation::Less => takes(Kind::Count, shape)
            && takes(Kind::Count, shape)
            && puts(Kind::Truth, shape),
        Operation::JumpIf(_) | Operation::JumpUnless(_) => takes(Kind::Truth, shape),
        Operation::Call(_) | Operation::Return => shape.is_empty(),
        Operation::Jump(_)
        | Operation::Mark(_)
        | Operation::File(_, _)
        | Operation::Keep
        | Operation::Discard
        | Operation::Stop
        | Operation::Fault(_) => true,
    }
}
