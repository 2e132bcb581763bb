//! Lists that grow as they are read: of commands, tests, arguments and strings. The third argument of `push` counts the
//! items for which a list has room at first.

ghost use Rattle.std.specs.Prelude.{◌≡◌, [], ◌∷◌, ◌++◌, OnOk};

use std::alloc::AllocError;

/// The first capacity of a list that mostly has several items.
pub const SEVERAL: usize = 4;

/// Adds an item at the end. Fails only if memory runs out.
///
/// The first capacity is `first` items. It grows by a fifth and four, so that lists that are read at the same time
/// never have much spare capacity.
pub fn push<T: Drop>(list: &mut Vec<T>, item: T, first: usize) -> Result<(), AllocError>
    ensures ok { OnOk result (list.new.items ≡ list.old.items ++ item ∷ []) }
{
    let count = list.len();
    if count == list.capacity() {
        let more = if count == 0 { first } else { count / 5 + 4 };
        list.reserve_exact(more)?;
    }
    list.push(item)?;
    Ok(())
}
