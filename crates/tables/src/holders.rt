// Who stands in the way of a request.
ghost use Rattle.std.specs.Prelude.{◌≡◌};
ghost use Rattle.tables.specs.Lists.{keep};
ghost use Rattle.tables.specs.Locks.{conflicts, smallest_of, barred_of};
ghost use Rattle.tables.specs.Holders.{lesser, noting};

use crate::entries::LockEntry;
use policies::wait_policy::WaitPolicy;
use predicates::predicate::Predicate;

// The smallest holder of a conflicting lock, and the smallest that may not be waited for.
#[derive(Clone, Copy)]
pub struct Holders {
    pub any: Option<u32>,
    pub barred: Option<u32>,
}

fn lesser(least: Option<u32>, job: u32) -> Option<u32>
    ensures { result ≡ lesser least job }
{
    Some(least.map_or(job, |other| job.min(other)))
}

impl Holders {
    // One conflicting lock more.
    fn noting<P: Predicate, W: WaitPolicy>(
        self,
        policy: &W,
        wanted: &LockEntry<P>,
        entry: &LockEntry<P>,
    ) -> Holders
        ensures { result ≡ noting W.allows wanted.now.class wanted.now.job self entry.now }
    {
        let any = lesser(self.any, entry.job);
        let barred = if policy.may_wait(wanted.standing(), entry.standing()) {
            self.barred
        } else {
            lesser(self.barred, entry.job)
        };
        Holders { any, barred }
    }
}

// The holders of the locks that conflict with the lock that is wanted.
pub fn gather<P: Predicate, W: WaitPolicy>(
    locks: &[LockEntry<P>],
    policy: &W,
    wanted: &LockEntry<P>,
) -> Holders
    ensures any { result.any
        ≡ smallest_of (keep (conflicts P.apart wanted.now.job wanted.now.mode wanted.now.predicate) locks.now) }
    ensures barred { result.barred ≡ barred_of W.allows wanted.now.class wanted.now.job
        (keep (conflicts P.apart wanted.now.job wanted.now.mode wanted.now.predicate) locks.now) }
{
    let mut holders = Holders {
        any: None,
        barred: None,
    };
    // The project asks for this form: a loop over the entries with their index, which gathers the holders.
    for (_i, entry) in locks.iter().enumerate() {
        if entry.conflicts_with(wanted) {
            holders = holders.noting(policy, wanted, entry);
        }
    }
    holders
}
