//! What a login asks of a gate.

ghost use Rattle.std.specs.Prelude.{◌≡◌, IsTrue, IfOk, IfErr, OnOk, OnErr};
ghost use Rattle.gx_history.specs.Showing.{has_its_first};
ghost use Rattle.gx_access_gate.specs.Asking.{gate_after_step};
ghost use Rattle.gx_connection.specs.{Faults.IsToldFull, Steps.{login_request_of, login_asked_at, login_told}};

use gx_access_gate::{AccessGate, LoginAnswer, StepFault, asked};
use gx_history::record::Request;
use gx_soup::LoginRequest;

/// The request of a Login Request packet: whether the password and the session name are right, and the
/// number wanted.
fn login_request<G: AccessGate>(gate: &G, login: &LoginRequest) -> Request
    ensures asked { result ≡ login_request_of (G.state gate.now) login.now }
    ensures first { IsTrue (has_its_first result) }
{
    gate.login_request(login.user, login.password, login.session, login.wanted)
}

/// Makes the login's step, and says what it is told.
#[tactic(auto, unfolding(crate::specs::Steps::login_told), using(gx_laws::proofs::Requests_judged::verdict_of_next, crate::proofs::Step_call::told_full))]
pub(crate) fn login_step<G: AccessGate>(
    gate: &mut G,
    moment: u64,
    login: &LoginRequest,
) -> Result<LoginAnswer, StepFault>
    ensures gate { OnOk result
        (G.state gate.new
        ≡ gate_after_step (G.state gate.old)
        (login_asked_at (G.state gate.old) moment login.now)) }
    ensures told { IfOk result
        (λ answer. answer ≡ login_told (G.state gate.old) moment login.now) }
    ensures err { OnErr result (G.state gate.new ≡ G.state gate.old) }
    ensures full { IfErr result (IsToldFull (G.state gate.new)) }
{
    let request = login_request(gate, login);
    let outcome = gate.step(asked(login.user, request, moment))?;
    Ok(gate.login_answer(login.user.folded(), login.wanted, outcome.verdict))
}
