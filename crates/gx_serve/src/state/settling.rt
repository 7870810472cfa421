//! Matching steps that are made with a connection's pass.

ghost use Rattle.std.specs.Prelude.{◌≡◌, None, IsFalse, IsTrue};
ghost use Rattle.gx_access_gate.specs.Matches.{matching_of};
ghost use Rattle.gx_pass.specs.Views.{mine};
ghost use Rattle.gx_door.specs.Acts.{gate_met, history_met};
ghost use Rattle.gx_serve.specs.States.{WasMatched};

use crate::state::{ConnectionState, STEPS};
use gx_door::{Dial, Door};
use gx_units::Moment;
use std::sync::Wait;

impl<T: Drop> ConnectionState<T> {
    /// Makes a few matching steps with the pass, unless no order waited behind the last of its steps. Answers whether none
    /// waits then. The session is told nothing.
    pub fn settle<D: Door<Pass = T>, R: Wait + Dial>(
        &mut self,
        rt: &R,
        door: &D,
        moment: Moment,
    ) -> bool
        requires clock { R.shown moment }
        ensures settled { self.new.is_settled ≡ result }
        ensures stays { IsTrue self.old.is_settled → IsTrue result }
        ensures same { IsTrue self.old.is_settled → self.new.pass ≡ self.old.pass }
        ensures idle { IsFalse self.old.is_settled → IsTrue result
            → matching_of (gate_met D.policy (history_met D.observed self.new.pass)) ≡ None }
        ensures matched { IsFalse self.old.is_settled → WasMatched D.policy moment
            (history_met D.observed self.old.pass) (history_met D.observed self.new.pass) }
        ensures own { mine (history_met D.observed self.new.pass)
            ≡ mine (history_met D.observed self.old.pass) }
        ensures user { self.new.user ≡ self.old.user }
        ensures session { self.new.session ≡ self.old.session }
        ensures outbox { self.new.outbox ≡ self.old.outbox }
        ensures cursor { self.new.cursor ≡ self.old.cursor }
    {
        if self.is_settled {
            return true;
        }
        let Some(pass) = self.pass.take() else {
            unreachable!()
        };
        let (pass, matched) = door.match_some(rt, pass, moment, STEPS);
        self.pass = Some(pass);
        self.drained = false;
        self.is_settled = matched.end.is_idle();
        self.is_settled
    }
}
