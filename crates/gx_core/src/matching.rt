//! What a matching step comes to, by what the gate keeps of its records.

ghost use Rattle.std.specs.Prelude.{◌≡◌, ◌<◌, length, IsTrue, Some};
ghost use Rattle.gx_history.specs.Showing.{is_showable};
ghost use Rattle.gx_access_gate.specs.{Gates.matched_by, Matches.{matching_of, next_match}};
ghost use Rattle.gx_core.specs.Known.{first_of};

use crate::gate::Gate;
use gx_access_gate::{AccessGate, Outcome};
use gx_history::live_order::LiveOrder;
use gx_matching::meeting::{best_against, outcome_against};
use gx_units::Moment;

impl Gate {
    /// The first order that waits to be matched.
    #[tactic(auto, using(crate::proofs::Match_call::first_is_known))]
    pub(crate) fn first_waiting(&self) -> Option<LiveOrder>
        ensures { result ≡ first_of self.now }
    {
        self.state.orders.first_waiting()
    }

    /// The number, the moment and the verdict of the record of a matching step, where this order is the first that waits.
    /// Its stock is looked for at this place of the policy's stocks first.
    #[tactic(auto, using(crate::proofs::Match_call::match_in_parts))]
    pub(crate) fn match_outcome(&self, first: &LiveOrder, near: usize, handed: Moment) -> Outcome
        requires waits { first_of self.now ≡ Some first.now }
        ensures next { next_match self.now handed ≡ Some (matched_by handed result) }
        ensures verdict { matching_of self.now ≡ Some result.verdict }
        ensures shown { IsTrue (is_showable (matched_by handed result)) }
    {
        Outcome {
            number: self.length() + 1,
            moment: handed.max(self.last_moment()),
            verdict: outcome_against(first, best_against(&self.state.book, first, near)),
        }
    }
}
