//! The classes that a new plan leaves out.

ghost use Rattle.std.specs.Prelude.{◌≡◌, not, map, filter, IfOk, option_map};
ghost use Rattle.class_plan.specs.Plans.{has, paths_of};
ghost use Rattle.tool_plans.specs.Renamings.{likely_renaming, renaming_view};

use class_plan::Plan;
use std::alloc::{AllocError, Global};

/// The paths of a plan that are no classes of a new one, in byte order. While there is one, the new plan is refused in
/// place of the old one (57). The only error is out of memory.
pub fn dropped_paths<'p>(
    alloc: Global,
    present: &'p Plan,
    new: &Plan,
) -> Result<Vec<&'p [u8]>, AllocError>
    ensures { IfOk result (λ v. map (λ p. p.now) v.items
        ≡ filter (λ p. not (has new.now.rows p)) (paths_of present.now.rows)) }
{
    let mut dropped = Vec::new(alloc);
    for (path, _, _) in present.classes(alloc)?.as_slice() {
        if !new.contains(path) {
            dropped.push(*path)?;
        }
    }
    Ok(dropped)
}

/// A class that a new plan leaves out, and the one that it has in addition: more likely the same class by another path.
#[derive(Clone, Copy)]
pub struct Renaming<'d, 'n> {
    pub from: &'d [u8],
    pub to: &'n [u8],
}

/// The renaming that a new plan is likely meant to be, by the classes of the present one that it leaves out and those that are
/// new in it: there is one where a single class went and a single class came, and only there.
pub fn renaming_of<'d, 'n>(dropped: &[&'d [u8]], new: &[&'n [u8]]) -> Option<Renaming<'d, 'n>>
    ensures { option_map renaming_view result
        ≡ likely_renaming (map (λ p. p.now) dropped.now) (map (λ p. p.now) new.now) }
{
    match (dropped, new) {
        ([from], [to]) => Some(Renaming {
            from: *from,
            to: *to,
        }),
        _ => None,
    }
}
