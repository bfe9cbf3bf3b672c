// What a window on hires means.
ghost use Rattle.std.specs.Prelude.{◌≡◌, Decides};
ghost use Rattle.predicates.specs.Windows.{meets, window_holds, window_apart, window_covers};
ghost use Rattle.predicates.specs.WindowMeaning.{ADayInBoth};
ghost use Rattle.predicates.specs.HireWindowPredicateLemmas.{windows_disjoint, windows_contained};
ghost use Rattle.std.proofs.Common.{arith};
ghost use Rattle.std.proofs.lemmas.Bool.Decides.{nat_tests};

use super::HireWindow;
use crate::interval::Interval;
use crate::predicate::Predicate;
use rows::hire::Hire;
use rows::hire::state::HireState;

// Whether a hire in this state has a day in the range.
fn meets(days: &Interval, state: &HireState) -> bool
    ensures { result ≡ meets days.now state.now }
{
    match *state {
        HireState::Booked { first, last } | HireState::Back { first, last, .. } => {
            first <= days.high() && days.low() <= last
        }
        HireState::Out { first } => days.contains(first),
    }
}

// Whether some day of the range is a day of the hire: how a window judges days. It stands apart from `meets`, as a second promise
// there, over all days, would cost callers their automatic proof.
#[tactic(auto, using(crate::proofs::Days::meets_exact))]
pub fn share_a_day(days: &Interval, hire: &Hire) -> bool
    ensures { Decides result (ADayInBoth days.now hire.now.state) }
{
    meets(days, &hire.state())
}

impl Predicate for HireWindow {
    type Row = Hire;

    ghost holds = { window_holds };

    ghost apart = { window_apart };

    ghost covers = { window_covers };

    ghost symmetric = { Prim.grind (arith, nat_tests) };

    ghost disjoint = { λ p q r. windows_disjoint p q r.van r.state };

    ghost contained = { λ p q r. windows_contained p q r.van r.state };

    fn holds(&self, row: &Hire) -> bool {
        let state = row.state();
        self.van.contains(row.van()) && self.states.contains(&state) && meets(&self.day, &state)
    }

    fn apart(&self, other: &HireWindow) -> bool {
        self.van.is_disjoint(&other.van)
            || self.states.is_disjoint(&other.states)
            || (self.states.shares_only_out(&other.states) && self.day.is_disjoint(&other.day))
    }

    fn covers(&self, other: &HireWindow) -> bool {
        self.van.encloses(&other.van)
            && self.states.includes(&other.states)
            && self.day.encloses(&other.day)
    }
}
