//! The store as `Records`, over which a desk is made. Each call first finds the connection open, and then is the store's
//! own of the same name. So nothing is done any more on a connection that a fault of the disk has shut.
//!
//! The seven calls are written out: a helper that took the store's call as a closure would state its contract again.

ghost use Rattle.record_store.specs.Stores.{keeper_of};

use crate::fault::{Cause, StoreFault};
use crate::store::Store;
use class_paths::Paths;
use class_plan::{Date, Plan};
use record_archive::{Line, Records};
use sqlite::Alter;

impl<S: Alter> Records for Store<S> {
    type Cause = Cause;

    ghost keeper = { keeper_of S.Store };

    ghost plan_of = { λ s. s.plan };

    fn plan(&self) -> &Plan {
        self.plan()
    }

    fn add_class(&mut self, path: &[u8]) -> Result<(), StoreFault> {
        self.ensure_open()?;
        let done = self.add_class(path);
        let _idle = self.is_idle();
        done
    }

    fn revise(&mut self, plan: Plan) -> Result<(), StoreFault> {
        self.ensure_open()?;
        let done = self.revise(plan);
        let _idle = self.is_idle();
        done
    }

    fn capture(&mut self, body: &[u8], day: Date, paths: &Paths) -> Result<Vec<Line>, StoreFault> {
        self.ensure_open()?;
        let lines = self.capture(body, day, paths);
        let _idle = self.is_idle();
        lines
    }

    fn hold(&mut self, name: &[u8], number: u32) -> Result<(), StoreFault> {
        self.ensure_open()?;
        let done = self.hold(name, number);
        let _idle = self.is_idle();
        done
    }

    fn release(&mut self, name: &[u8], number: u32) -> Result<(), StoreFault> {
        self.ensure_open()?;
        let done = self.release(name, number);
        let _idle = self.is_idle();
        done
    }

    fn due(&mut self, day: Date) -> Result<Vec<Line>, StoreFault> {
        self.ensure_open()?;
        let lines = self.due(day);
        let _idle = self.is_idle();
        lines
    }

    fn destroy(&mut self, number: u32, day: Date) -> Result<(), StoreFault> {
        self.ensure_open()?;
        let done = self.destroy(number, day);
        let _idle = self.is_idle();
        done
    }

    ghost plan_is = { λ s a stands. stands.plan };

    ghost is_archive = { λ s a stands. stands.archive };
}
