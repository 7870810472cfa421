//! The request that a login makes, and what it is told.

ghost use Rattle.std.specs.Prelude.{◌≡◌};
ghost use Rattle.gx_history.specs.Logins.{session_is, first_wanted};
ghost use Rattle.gx_access_gate.specs.Logins.{login_answer_after, login_asked_of};

use gx_access_gate::LoginAnswer;
use gx_history::record::{Login, Request, Verdict};
use gx_people::People;
use gx_policy::{Policy, RuleName};
use gx_units::{LoginRejection, Password, SessionName, UserName};

const BLANK_SESSION: SessionName = SessionName {
    bytes: *b"          ",
};

fn session_is(policy: &Policy, given: SessionName) -> bool
    ensures { result ≡ session_is policy.now given }
{
    given == BLANK_SESSION || given == policy.session()
}

/// The request of a login with this password, to this session.
pub fn login_asked(
    people: &People,
    policy: &Policy,
    user: UserName,
    password: Password,
    session: SessionName,
    wanted: u64,
) -> Request
    ensures { result ≡ login_asked_of people.now policy.now user password session wanted }
{
    Request::Login(Login {
        password_is_right: people.password_is(user.folded(), password.folded()),
        session_is_right: session_is(policy, session.folded()),
        wanted,
    })
}

fn first_wanted(owed: u64, wanted: u64) -> u64
    ensures { result ≡ first_wanted owed wanted }
{
    if wanted == 0 { owed.max(1) } else { wanted }
}

/// What a login with this verdict is told, where so many reports are owed to its user.
pub fn login_answered(policy: &Policy, owed: u64, wanted: u64, verdict: Verdict) -> LoginAnswer
    ensures { result ≡ login_answer_after policy.now owed wanted verdict }
{
    match verdict {
        Verdict::Granted => LoginAnswer::Accepted {
            session: policy.session(),
            next: first_wanted(owed, wanted),
        },
        Verdict::Denied(RuleName::L3) => {
            LoginAnswer::Rejected(LoginRejection::SessionNotAvailable)
        }
        _ => LoginAnswer::Rejected(LoginRejection::NotAuthorized),
    }
}
