//! Which requests find their places reserved, and which may make more wanted.

ghost use Rattle.std.specs.Prelude.{◌≡◌};
ghost use Rattle.gx_history.specs.Reserved.{may_notify_all_users, is_never_refused, is_kill_or_logout, is_lift_or_close};

use crate::record::{Request, Verdict};
use gx_desk::Action;

fn is_kill_or_logout(request: &Request) -> bool
    ensures { result ≡ is_kill_or_logout request.now }
{
    match request {
        Request::Logout => true,
        Request::Command(c) => match c.action {
            Action::Kill(_) => true,
            _ => false,
        },
        _ => false,
    }
}

/// Whether a request of this verdict is a granted Kill or Logout: its record, and what it tells,
/// have places that were kept beforehand.
pub fn is_never_refused(request: &Request, given: Verdict) -> bool
    ensures { result ≡ is_never_refused request.now given }
{
    match given {
        Verdict::Granted => is_kill_or_logout(request),
        _ => false,
    }
}

fn is_lift_or_close(request: &Request) -> bool
    ensures { result ≡ is_lift_or_close request.now }
{
    match request {
        Request::Command(c) => match c.action {
            Action::Lift(_) | Action::CloseDay => true,
            _ => false,
        },
        _ => false,
    }
}

/// Whether a request of this verdict is a granted Lift or Close Day, after which many a user may
/// want more places, or is told.
pub fn may_notify_all_users(request: &Request, given: Verdict) -> bool
    ensures { result ≡ may_notify_all_users request.now given }
{
    match given {
        Verdict::Granted => is_lift_or_close(request),
        _ => false,
    }
}
