//! The volumes of a row, by their numbers.

ghost use Rattle.std.specs.Prelude.{◌≡◌, [], ℕ, IfOk, IfErr};
ghost use Rattle.std.specs.BTreeSet.{contains};
ghost use Rattle.std.specs.Ordering.{nat_cmp};
ghost use Rattle.record_choice.specs.Disposals.{is_one_of};
ghost use Rattle.record_volumes.specs.declared.rows.RowFault.TheVariants.{Missing};
ghost use Rattle.record_volumes.specs.Rows.{greatest, missing, missing_to};

use std::alloc::{AllocError, Global};
use std::collections::BTreeSet;

/// Why a row of volumes is none that an archive can be read from.
#[derive(Drop)]
pub enum RowFault {
    /// These volumes are missing, upwards.
    Missing(Vec<u32>),
    /// No memory.
    NoMemory,
}

impl From<AllocError> for RowFault {
    ghost use Rattle.std.specs.Prelude.{◌≡◌};
    ghost use Rattle.record_volumes.specs.declared.rows.RowFault.TheVariants.{NoMemory};

    ghost from_gives = { λ _ fault. fault ≡ NoMemory };

    fn from(_: AllocError) -> RowFault {
        RowFault::NoMemory
    }
}

/// The set of some numbers.
fn set_of(alloc: Global, numbers: &[u32]) -> Result<BTreeSet<u32>, AllocError>
    ensures { IfOk result (λ s. (n : ℕ) → contains nat_cmp s n ≡ is_one_of numbers.now n) }
{
    let mut set = BTreeSet::new(alloc);
    for number in numbers {
        let _new = set.insert(*number)?;
    }
    Ok(set)
}

/// The greatest of some numbers, and of one more.
fn greatest(begun: u32, found: &[u32]) -> u32
    ensures { result ≡ greatest begun found.now }
{
    let mut most = begun;
    for number in found {
        most = most.max(*number);
    }
    most
}

/// The numbers from 1 to one that are not among some, upwards.
fn missing_to(alloc: Global, last: u32, found: &[u32]) -> Result<Vec<u32>, AllocError>
    ensures { IfOk result (λ v. v.items ≡ missing_to last found.now) }
{
    let set = set_of(alloc, found)?;
    let mut missing = Vec::new(alloc);
    for before in 0..last {
        let volume = before + 1;
        if !set.contains(&volume) {
            missing.push(volume)?;
        }
    }
    Ok(missing)
}

/// The number of the last volume of a row of which these volumes were found and so many are known to have been begun; 0
/// where there is none. `Missing` where one before it is not there, or one that was begun.
pub fn judge_row(alloc: Global, begun: u32, found: &[u32]) -> Result<u32, RowFault>
    ensures whole { IfOk result (λ last. (missing begun found.now ≡ [])
        × (last ≡ greatest begun found.now)) }
    ensures gaps { IfErr result (λ f. (v : _) → f ≡ Missing v → v.items ≡ missing begun found.now) }
    ensures some { IfErr result (λ f. (v : _) → f ≡ Missing v → v.items ≡ [] → ⊥) }
{
    let last = greatest(begun, found);
    let missing = missing_to(alloc, last, found)?;
    if missing.is_empty() {
        Ok(last)
    } else {
        Err(RowFault::Missing(missing))
    }
}
