// Never: no job may wait.
ghost use Rattle.policies.specs.Nevers.{nobody, no_rank};
ghost use Rattle.std.proofs.Common.{rules};

use crate::wait_policy::{Standing, WaitPolicy};

#[derive(Clone, Copy)]
pub struct Never;

impl WaitPolicy for Never {
    ghost allows = { nobody };

    ghost rank = { no_rank };

    ghost ranked = { Prim.search rules };

    fn may_wait(&self, _asker: Standing, _holder: Standing) -> bool {
        false
    }
}
