//! A plan: the root's schedule and the classes. A class has a path, is open or closed, and may
//! have a schedule of its own.
ghost use Rattle.std.specs.Prelude.{◌≡◌, ◌≢◌, ◌≤◌, Bool, true, false, is_some, Option, Some, None, option_map, Ok, Err, IfOk, IfErr, OnOk, OnErr, MatchResult, IfSome, map};
ghost use Rattle.class_paths.specs.Path.{has_parent_in};
ghost use Rattle.class_plan.specs.Plans.{row_at, has, is_among, is_open_in, open_paths_of, first_plan, IsPlan};
ghost use Rattle.class_plan.specs.Fields.{rows_in};
ghost use Rattle.class_plan.specs.Changes.{addition, speaks_against};
ghost use Rattle.class_plan.specs.Faults.{first_fault, HoldsNone, IsSmallest};
ghost use Rattle.class_plan.specs.declared.faults.PlanFault.TheVariants.{NoMemory};

use crate::faults::PlanFault;
use crate::schedules::Schedule;
use class_paths::{SLASH, UNFILED, fits_path};
use std::alloc::{AllocError, Global};
use std::collections::{BTreeMap, BTreeSet};
use std::marker::Model;

/// The most classes of a plan, `unfiled` among them.
pub(crate) const MAX_CLASSES: usize = 4096;

/// What a plan keeps of a class besides its path.
#[derive(Clone, Copy)]
pub(crate) struct Class {
    pub(crate) is_open: bool,
    pub(crate) schedule: Option<Schedule>,
}

/// A plan of at most 4,096 classes. The class `unfiled` is always among them, and open. The parent
/// of each class is one of them, and the count of each schedule is in its unit's range.
pub struct Plan {
    pub(crate) alloc: Global,
    pub(crate) root: Schedule,
    pub(crate) classes: BTreeMap<Vec<u8>, Class>,
}

impl Drop for Plan {
    fn drop(self) {
        let Plan {
            alloc: _,
            root: _,
            classes: _,
        } = self;
    }
}

impl Model for Plan {
    ghost use Rattle.class_plan.specs.Plans.{Listing, IsPlan};
    ghost use Rattle.class_plan.specs.Fields.{rows_in};

    ghost Value = { Listing };

    ghost view = { λ p. record { root = p.root; rows = rows_in p.classes } };

    ghost invariant = { λ p. IsPlan (record { root = p.root; rows = rows_in p.classes }) };
}

pub(crate) fn class_at(classes: &BTreeMap<Vec<u8>, Class>, path: &[u8]) -> Option<Class>
    ensures open { option_map (λ c. c.is_open) result ≡
        option_map (λ r. r.is_open) (row_at path.now (rows_in classes.now)) }
    ensures schedule { option_map (λ c. c.schedule) result ≡
        option_map (λ r. r.schedule) (row_at path.now (rows_in classes.now)) }
    ensures some { is_some result ≡ has (rows_in classes.now) path.now }
{
    classes.get(path).copied()
}

/// Whether the path's parent is a class; a path of one segment needs none.
pub(crate) fn has_parent(classes: &BTreeMap<Vec<u8>, Class>, path: &[u8]) -> bool
    ensures { result ≡ has_parent_in (has (rows_in classes.now)) path.now }
{
    for end in (0..path.len()).rev() {
        if path[end] == SLASH {
            return class_at(classes, &path[..end]).is_some();
        }
    }
    true
}

impl Plan {
    /// The plan of the one class `unfiled`, open and without a schedule of its own, under a
    /// permanent schedule of the root.
    ///
    /// The only refusal is no memory (99).
    pub fn new(alloc: Global) -> Result<Plan, AllocError>
        ensures { IfOk result (λ p. p ≡ first_plan) }
    {
        let mut classes = BTreeMap::new(alloc);
        let class = Class {
            is_open: true,
            schedule: None,
        };
        classes.insert(Vec::from_slice(alloc, UNFILED)?, class)?;
        Ok(Plan {
            alloc,
            root: Schedule::Permanent,
            classes,
        })
    }

    /// The fault with the smallest number, if any, of adding a class at the path.
    fn fault_at(&self, path: &[u8]) -> Option<PlanFault>
        ensures first { result ≡ first_fault (speaks_against self.now path.now) }
        ensures told { IfSome result (λ f. f ≢ NoMemory) }
    {
        if !fits_path(path) {
            return Some(PlanFault::BadPath);
        }
        if !has_parent(&self.classes, path) {
            return Some(PlanFault::ParentMissing);
        }
        if class_at(&self.classes, path).is_some() {
            return Some(PlanFault::PathTwice);
        }
        if self.classes.len() >= MAX_CLASSES {
            return Some(PlanFault::TooManyClasses);
        }
        None
    }

    /// Adds an open class without a schedule of its own.
    ///
    /// Refused with the smallest number that holds:
    ///
    /// - 52: the path is not well made;
    /// - 53: its parent is no class;
    /// - 54: the path is a class already;
    /// - 56: there are 4,096 classes already;
    /// - 99: no memory, where none of these holds.
    ///
    /// A refusal leaves the plan unchanged.
    pub fn add(&mut self, path: &[u8]) -> Result<(), PlanFault>
        ensures ok { OnOk result (addition self.old path.now ≡ Ok self.new) }
        ensures refused { IfErr result (λ f. f ≢ NoMemory → addition self.old path.now ≡ Err f) }
        ensures smallest { MatchResult result (λ _. HoldsNone (speaks_against self.old path.now))
            (λ f. f ≢ NoMemory → IsSmallest (speaks_against self.old path.now) f) }
        ensures memory { result ≡ Err NoMemory → HoldsNone (speaks_against self.old path.now) }
        ensures unchanged { OnErr result (self.new ≡ self.old) }
        ensures plans { IsPlan self.old × IsPlan self.new }
    {
        if let Some(fault) = self.fault_at(path) {
            return Err(fault);
        }
        let key = Vec::from_slice(self.alloc, path)?;
        let class = Class {
            is_open: true,
            schedule: None,
        };
        self.classes.insert(key, class)?;
        Ok(())
    }

    /// Whether the path is, octet for octet, an open class of the plan.
    pub fn is_open(&self, path: &[u8]) -> bool
        ensures { result ≡ is_open_in self.now path.now }
    {
        match class_at(&self.classes, path) {
            Some(class) => class.is_open,
            None => false,
        }
    }

    /// The paths of the open classes: exactly those for which [`Plan::is_open`] answers true.
    ///
    /// The only refusal is no memory (99).
    pub fn open_paths(&self, alloc: Global) -> Result<BTreeSet<Vec<u8>>, AllocError>
        ensures paths { IfOk result (λ s. map (λ v. v.items) s.keys ≡ open_paths_of self.now) }
        ensures among { IfOk result
            (λ s. is_among (map (λ v. v.items) s.keys) ≡ is_open_in self.now) }
    {
        let mut paths = BTreeSet::new(alloc);
        for (path, class) in &self.classes {
            if class.is_open {
                paths.insert(Vec::from_slice(alloc, path.as_slice())?)?;
            }
        }
        Ok(paths)
    }
}
