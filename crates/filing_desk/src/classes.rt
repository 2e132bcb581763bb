//! The open classes of a plan, as a run asks for them.

use class_plan::Plan;
use mail_case::OpenPaths;

/// The classes of a plan, which the caller keeps.
#[derive(Drop)]
pub struct PlanClasses<'a>(pub &'a Plan);

impl OpenPaths for PlanClasses<'_> {
    ghost use Rattle.class_plan.specs.Plans.{is_open_in};

    ghost opens = { λ c. is_open_in (c.0).now };

    fn is_open(&self, path: &[u8]) -> bool {
        self.0.is_open(path)
    }
}
