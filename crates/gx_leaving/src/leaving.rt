//! Logouts of all who are logged in, where no connection is left.

ghost use Rattle.std.specs.Prelude.{◌≡◌, ◌<◌, ◌≤◌, length, Some};
ghost use Rattle.gx_units.specs.{declared.names.UserName.UserName, Spelling.folded_user};
ghost use Rattle.gx_history.specs.{InForce.line_of, Verdicts.IsLegal};
ghost use Rattle.gx_leaving.specs.Logouts.{AddsLogouts, IsOff, LeavesLine, NobodyIsOn};

use gx_access_gate::AccessGate;
use gx_history::record::{Asked, Request};
use gx_units::{Moment, UserName};

/// Before each other one: a record's moment is then that of the record before it.
const NO_MOMENT: Moment = 0;

/// Logs the user out, who is logged in on this line.
fn leave_line<G: AccessGate>(gate: &mut G, line: u16, user: UserName, moment: Moment)
    requires line { 0 < line }
    requires on { line_of (G.state gate.old).records (folded_user user) ≡ Some line }
    ensures policy { (G.state gate.new).policy ≡ (G.state gate.old).policy }
    ensures added { AddsLogouts moment (G.state gate.old).records (G.state gate.new).records }
    ensures left { LeavesLine (G.state gate.old).policy
        (G.state gate.old).records (G.state gate.new).records
        (folded_user user) }
{
    gate.is_legal();
    // It is granted, and so never refused.
    let _ = gate.step(Asked {
        line,
        user: user.folded(),
        request: Request::Logout,
        handed: moment,
    });
}

/// Logs the user out, where he is logged in.
fn log_out<G: AccessGate>(gate: &mut G, user: UserName, moment: Moment)
    ensures policy { (G.state gate.new).policy ≡ (G.state gate.old).policy }
    ensures added { AddsLogouts moment (G.state gate.old).records (G.state gate.new).records }
    ensures off { IsOff (G.state gate.new).records (folded_user user) }
    ensures others { (other : UserName) → IsOff (G.state gate.old).records other
        → IsOff (G.state gate.new).records other }
{
    let Some(line) = gate.on(user.folded()) else {
        return;
    };
    // no line has this number
    if line == 0 {
        return;
    }
    leave_line(gate, line, user, moment);
}

/// Logs out each user who is logged in, as is right where no connection is left of those that made the gate's records.
/// Nothing else changes. Takes no memory, and goes in a full day too.
pub fn log_out_all<G: AccessGate>(gate: &mut G, moment: Moment)
    ensures policy { (G.state gate.new).policy ≡ (G.state gate.old).policy }
    ensures added { AddsLogouts moment (G.state gate.old).records (G.state gate.new).records }
    ensures legal { IsLegal (G.state gate.new).policy (G.state gate.new).records }
    ensures nobody_on { NobodyIsOn (G.state gate.new) }
{
    for place in 0..gate.policy().users().len() {
        let user = gate.policy().users()[place].name;
        log_out(gate, user, moment);
    }
    gate.is_legal();
}

/// Logs out each user who is logged in by the gate's records, at the moment of the last of them.
#[tactic(auto, using(crate::proofs::Logout_call::longer))]
pub fn log_out_at_last<G: AccessGate>(gate: &mut G)
    ensures policy { (G.state gate.new).policy ≡ (G.state gate.old).policy }
    ensures added { AddsLogouts 0 (G.state gate.old).records (G.state gate.new).records }
    ensures longer { length (G.state gate.old).records ≤ length (G.state gate.new).records }
    ensures nobody_on { NobodyIsOn (G.state gate.new) }
{
    log_out_all(gate, NO_MOMENT);
}
