//! Changes of a plan: a new plan in its place, a copy, and the removal of a class.
ghost use Rattle.std.specs.Prelude.{◌≡◌, true, false, IfOk, MatchResult};
ghost use Rattle.std.specs.List.{list_all};
ghost use Rattle.class_plan.specs.Changes.{without_class};
ghost use Rattle.class_plan.specs.Plans.{has, keeps, IsPlan};
ghost use Rattle.class_plan.specs.Fields.{rows_in};

use crate::plans::{Class, Plan, class_at};
use std::alloc::AllocError;
use std::collections::BTreeMap;

/// Whether each path of the old map is also one of the new.
fn keeps_classes(old: &BTreeMap<Vec<u8>, Class>, new: &BTreeMap<Vec<u8>, Class>) -> bool
    ensures { result ≡ list_all (λ r. has (rows_in new.now) r.path) (rows_in old.now) }
{
    for path in old.keys() {
        if class_at(new, path.as_slice()).is_none() {
            return false;
        }
    }
    true
}

impl Plan {
    /// Replaces this plan with a new one.
    ///
    /// Where the new plan lacks a path of this one (57), this one stays unchanged, and the new one
    /// is returned as the error.
    pub fn revise(&mut self, new: Plan) -> Result<(), Plan>
        ensures { MatchResult result (λ _. (keeps self.old new ≡ true) × (self.new ≡ new))
            (λ p. (keeps self.old new ≡ false) × (p ≡ new) × (self.new ≡ self.old)) }
    {
        if !keeps_classes(&self.classes, &new.classes) {
            return Err(new);
        }
        *self = new;
        Ok(())
    }

    /// A copy of the plan, equal to it.
    ///
    /// The only refusal is no memory (99).
    pub fn copy(&self) -> Result<Plan, AllocError>
        ensures { IfOk result (λ p. p ≡ self.now) }
    {
        Ok(Plan {
            alloc: self.alloc,
            root: self.root,
            classes: self.classes.clone()?,
        })
    }
    /// Removes the class at a path; where the path is no class, nothing changes.
    ///
    /// The caller ensures that the rest is still a plan, as it is where that class was the last
    /// one added.
    pub fn remove(&mut self, path: &[u8])
        requires { IsPlan (without_class self.old path.now) }
        ensures { self.new ≡ without_class self.old path.now }
    {
        let _class = self.classes.remove(path);
    }
}
