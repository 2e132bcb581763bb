//! What a capture requires of its paths.

ghost use Rattle.std.specs.Prelude.{◌≡◌};
ghost use Rattle.std.specs.List.{list_all};
ghost use Rattle.class_plan.specs.Plans.{has};

use class_paths::Paths;
use class_plan::Plan;

/// Whether each path of a set is a class of a plan, as a capture requires.
pub fn are_classes(plan: &Plan, paths: &Paths) -> bool
    ensures { result ≡ list_all (has plan.now.rows) paths.now }
{
    paths
        .as_slice()
        .iter()
        .all(|path| plan.contains(path.as_slice()))
}
