//! The outcome of a run: the classes that it captures a message in, and the fault with which it ended.

ghost use Rattle.std.specs.Prelude.{◌≡◌, [], ◌∷◌, None, Some, false, IfOk};
ghost use Rattle.class_paths.specs.Path.{unfiled};
ghost use Rattle.sieve_meaning.specs.Outcome.{outcome_at};

use crate::run_fault::RunFault;
use class_paths::{Paths, UNFILED};
use std::alloc::{AllocError, Global};

/// What a run captures a message in, and how the run ended.
#[derive(Drop)]
pub struct Outcome {
    /// The paths of the classes, in byte order.
    pub classes: Paths,
    /// The fault with which the run ended; none where it ended without a fault.
    pub fault: Option<RunFault>,
}

/// The outcome of a run that ended with this fault: it captures in the default class `unfiled` alone. Fails only if
/// memory runs out.
pub fn fault_alone(alloc: Global, fault: RunFault) -> Result<Outcome, AllocError>
    ensures alone { IfOk result (λ o. o ≡ record { classes = unfiled ∷ []; fault = Some fault }) }
    ensures at_end { IfOk result (λ o. o ≡ outcome_at (Some fault) [] false false) }
{
    let mut classes = Paths::new(alloc);
    classes.insert(alloc, UNFILED)?;
    Ok(Outcome {
        classes,
        fault: Some(fault),
    })
}

/// The outcome of a run, by how it ended. With a fault it captures in the default class alone. Without one it captures
/// in the classes that the run filed into, and in the default class too if the message is kept (RFC 5228, section
/// 2.10.2). `kept` is an explicit keep, and `cancelled` cancels the implicit one. `filed` is copied only if there is no
/// fault. Fails only if memory runs out.
pub fn outcome_at_end(
    alloc: Global,
    fault: Option<RunFault>,
    filed: &Paths,
    kept: bool,
    cancelled: bool,
) -> Result<Outcome, AllocError>
    ensures { IfOk result (λ o. o ≡ outcome_at fault filed.now kept cancelled) }
{
    if let Some(fault) = fault {
        return fault_alone(alloc, fault);
    }
    let mut classes = filed.copy(alloc)?;
    if kept || !cancelled {
        classes.insert(alloc, UNFILED)?;
    }
    Ok(Outcome {
        classes,
        fault: None,
    })
}
