//! Whom what concerns: the accounts that are a viewer's.

ghost use Rattle.std.specs.Prelude.{◌≡◌};
ghost use Rattle.gx_board.specs.Sight.{is_action_shown, is_record_shown, is_request_shown, is_shown, is_trader_shown, is_user_shown};

use gx_desk::Action;
use gx_history::record::{RecordData, Request, Step};
use gx_policy::Role;
use gx_records::ShowsState;
use gx_units::{AccountName, UserName};

/// Whether the viewer is shown the account: to an officer those of his scope, to a reader those that he is entitled to now, to
/// a trader none.
pub fn is_shown<G: ShowsState>(gate: &G, viewer: UserName, account: AccountName) -> bool
    ensures { result
        ≡ is_shown (G.state gate.now).policy (G.state gate.now).records viewer account }
{
    let Some(known) = gate.policy().user(viewer) else {
        return false;
    };
    match &known.role {
        Role::Officer(_, scope) => scope.covers(account),
        Role::Reader(_) => gate.is_entitled(viewer, account),
        Role::Trader(_) => false,
    }
}

/// Whether the viewer is shown the account that the user trades for.
fn is_trader_shown<G: ShowsState>(gate: &G, viewer: UserName, user: UserName) -> bool
    ensures { result
        ≡ is_trader_shown (G.state gate.now).policy (G.state gate.now).records viewer user }
{
    match gate.policy().account_of(user) {
        Some(account) => is_shown(gate, viewer, account),
        None => false,
    }
}

/// Whether the viewer is shown that the user is logged in.
pub(crate) fn is_user_shown<G: ShowsState>(gate: &G, viewer: UserName, user: UserName) -> bool
    ensures { result
        ≡ is_user_shown (G.state gate.now).policy (G.state gate.now).records viewer user }
{
    user == viewer || is_trader_shown(gate, viewer, user)
}

fn is_action_shown<G: ShowsState>(gate: &G, viewer: UserName, action: &Action) -> bool
    ensures { result ≡
        is_action_shown (G.state gate.now).policy (G.state gate.now).records viewer action.now }
{
    match *action {
        Action::Kill(account)
        | Action::Lift(account)
        | Action::Grant(_, account)
        | Action::Revoke(_, account) => is_shown(gate, viewer, account),
        _ => true,
    }
}

fn is_request_shown<G: ShowsState>(
    gate: &G,
    viewer: UserName,
    user: UserName,
    request: &Request,
) -> bool
    ensures { result ≡ is_request_shown (G.state gate.now).policy (G.state gate.now).records
        viewer user request.now }
{
    match request {
        Request::Command(command) => is_action_shown(gate, viewer, &command.action),
        _ => is_trader_shown(gate, viewer, user),
    }
}

/// Whether the viewer is shown the record of a request.
pub(crate) fn is_record_shown<G: ShowsState>(gate: &G, viewer: UserName, left: &RecordData) -> bool
    ensures { result ≡
        is_record_shown (G.state gate.now).policy (G.state gate.now).records viewer left.now }
{
    match &left.step {
        Step::Asked(asked) => is_request_shown(gate, viewer, asked.user, &asked.request),
        Step::Matching(_) => false,
    }
}
