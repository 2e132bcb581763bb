//! Plan files: a plan from the octets of a TOML text.
ghost use Rattle.std.specs.Prelude.{◌≡◌, ◌≢◌, Ok, Err, IfOk, IfErr, MatchResult};
ghost use Rattle.class_plan.specs.Faults.{HoldsNone, IsSmallest};
ghost use Rattle.class_plan.specs.Document.{text_faults, plan_of_text};
ghost use Rattle.class_plan.specs.declared.faults.PlanFault.TheVariants.{NoMemory};

use crate::document::lists_from;
use crate::faults::PlanFault;
use crate::plan_rules::plan_from;
use crate::plans::Plan;
use std::alloc::Global;

impl Plan {
    /// The plan of a plan file: a TOML table with these keys and no others.
    ///
    /// - `root`: the text of the root's schedule.
    /// - `class`, optional: an array of tables, one for each class. Each table has `path`, a text,
    ///   and may have `open`, a boolean, and `schedule`, the text of a schedule. `open` is true
    ///   where it is missing.
    ///
    /// `unfiled` need not be listed, and then has no schedule of its own. Parents may be listed
    /// after their children.
    ///
    /// Refused with 99 (no memory), or else with the smallest number that holds:
    ///
    /// - 50: the text is not UTF-8, or not TOML;
    /// - 51: a key is unknown or missing, a value has another kind, or `unfiled` is closed;
    /// - 52: a path is not well made;
    /// - 53: a parent is no class;
    /// - 54: a path appears twice;
    /// - 55: a schedule is not well made, or its count is out of range;
    /// - 56: there are more than 4,096 classes, `unfiled` among them.
    pub fn from_toml(alloc: Global, text: &[u8]) -> Result<Plan, PlanFault>
        ensures plan { IfOk result (λ p. plan_of_text text.now ≡ Ok p) }
        ensures refused { IfErr result (λ f. f ≢ NoMemory → plan_of_text text.now ≡ Err f) }
        ensures smallest { MatchResult result (λ _. HoldsNone (text_faults text.now))
            (λ f. f ≢ NoMemory → IsSmallest (text_faults text.now) f) }
    {
        let Ok(text) = str::from_utf8(text) else {
            return Err(PlanFault::NotToml);
        };
        let table = match toml::table_from_str(alloc, text) {
            Ok(table) => table,
            Err(error) => {
                return Err(if error.is_memory() {
                    PlanFault::NoMemory
                } else {
                    PlanFault::NotToml
                });
            }
        };
        match lists_from(alloc, &table)? {
            Some(lists) => plan_from(alloc, lists.root, lists.classes.as_slice()),
            None => Err(PlanFault::BadShape),
        }
    }
}
