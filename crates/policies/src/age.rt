// Age: a job may wait for one that was opened after it (wait-die).
ghost use Rattle.policies.specs.Ages.{younger, by_number};
ghost use Rattle.std.proofs.Common.{rules};

use crate::wait_policy::{Standing, WaitPolicy};

#[derive(Clone, Copy)]
pub struct Age;

impl WaitPolicy for Age {
    ghost allows = { younger };

    ghost rank = { by_number };

    ghost ranked = { Prim.search rules };

    fn may_wait(&self, asker: Standing, holder: Standing) -> bool {
        asker.number < holder.number
    }
}
