//! What is told of a request, by its verdict.

ghost use Rattle.std.specs.Prelude.{◌≡◌};
ghost use Rattle.gx_events.specs.{Events.{command_event, login_event, logout_event}, Known.{denies_login, login_line}};

use crate::event::Event;
use crate::limits::RuleLimit;
use gx_desk::Action;
use gx_history::record::{RecordData, Request, Step, Verdict};
use gx_units::UserName;

/// The line on which the record's login was asked for, if it is one.
pub(crate) fn login_line(shown: &RecordData) -> Option<u16>
    ensures { result ≡ login_line shown.now }
{
    match &shown.step {
        Step::Asked(asked) => match &asked.request {
            Request::Login(_) => Some(asked.line),
            _ => None,
        },
        Step::Matching(_) => None,
    }
}

/// Whether the record denies a login.
pub(crate) fn denies_login(shown: &RecordData) -> bool
    ensures { result ≡ denies_login shown.now }
{
    login_line(shown).is_some() && matches!(shown.verdict, Verdict::Denied(_))
}

/// What is told of a login: of a denied one only where it is the first within its minute.
pub(crate) fn login_event(
    user: UserName,
    line: u16,
    is_first: bool,
    verdict: &Verdict,
) -> Option<Event>
    ensures { result ≡ login_event user line is_first verdict.now }
{
    match verdict {
        Verdict::Granted => Some(Event::LoggedIn(user, line)),
        Verdict::Denied(rule) if is_first => Some(Event::LoginDenied(user, line, *rule)),
        _ => None,
    }
}

/// What is told of a logout.
pub(crate) fn logout_event(user: UserName, line: u16, verdict: &Verdict) -> Option<Event>
    ensures { result ≡ logout_event user line verdict.now }
{
    match verdict {
        Verdict::Granted => Some(Event::LoggedOut(user, line)),
        _ => None,
    }
}

/// What is told of a command, with what is known of the limit that it was to change.
pub(crate) fn command_event(
    user: UserName,
    earlier: Option<RuleLimit>,
    action: Action,
    verdict: &Verdict,
) -> Option<Event>
    ensures { result ≡ command_event user earlier action verdict.now }
{
    match verdict {
        Verdict::Granted => Some(Event::Commanded(user, action, earlier)),
        Verdict::Denied(rule) => Some(Event::CommandDenied(user, action, *rule, earlier)),
        _ => None,
    }
}
