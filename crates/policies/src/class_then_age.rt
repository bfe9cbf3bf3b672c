// Class, then age: a job may wait for one of a greater class, or of its own class and opened after it.
ghost use Rattle.policies.specs.Classes.{greater_class, by_class};
ghost use Rattle.std.proofs.Common.{rules};

use crate::wait_policy::{Standing, WaitPolicy};

#[derive(Clone, Copy)]
pub struct ClassThenAge;

impl WaitPolicy for ClassThenAge {
    ghost allows = { greater_class };

    ghost rank = { by_class };

    ghost ranked = { Prim.search rules };

    fn may_wait(&self, asker: Standing, holder: Standing) -> bool {
        asker < holder
    }
}
