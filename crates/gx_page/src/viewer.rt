//! Who asks for something.

ghost use Rattle.std.specs.Prelude.{◌≡◌};
ghost use Rattle.gx_page.specs.Replies.{viewer_of};

use gx_door::{Caller, Door};
use gx_http::Credentials;
use gx_units::UserName;
use std::sync::Wait;

/// The officer or the reader who asks, if it is one with his password. No step is made.
pub(crate) fn viewer<D: Door, R: Wait>(
    rt: &R,
    door: &D,
    caller: Option<Credentials>,
) -> Option<UserName>
    ensures { result ≡ viewer_of D.policy caller }
{
    let who = caller?;
    match door.caller(rt, who.user, who.password) {
        Caller::Staff => Some(who.user.folded()),
        Caller::Trader | Caller::Stranger => None,
    }
}
